//! The points and triangles of a file of any format that is read: OBJ, STL or PLY.
#![tactic(auto)]

mod fault;
mod format;
mod gather;
mod scan;
mod text;
mod whole;

pub use fault::{MeshFail, MeshFault};
pub use format::{FIRST_BYTES, Foreign, Format, format_by};
pub use scan::scan_mesh;
