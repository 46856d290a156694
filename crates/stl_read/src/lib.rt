//! The points and triangles of an STL file.
#![tactic(auto)]

mod ascii;
mod binary;
mod fault;
mod lines;
mod read;
mod reader;
mod recent;
mod stage;
mod tests;
mod vertices;

pub use fault::{Refused, StlFail, StlFault};
pub use read::{is_text, read_stl};
pub use stage::Stage;
pub use vertices::StlTriangles;

/// The answer for want of memory.
pub type OutOfMemory = std::alloc::AllocError;
