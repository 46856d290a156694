//! Small meshes and hierarchies, for tests.
#![tactic(auto)]

mod hierarchies;
mod meshes;
mod units;

pub use hierarchies::{lone_face, octahedron};
pub use meshes::{OCTAHEDRON, OCTAHEDRON_FACES, Spot, Triple, at_origin, mesh, point};
pub use units::{Unit, face, head, shaped};
