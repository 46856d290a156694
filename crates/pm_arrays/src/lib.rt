//! The mesh that a front shows, as arrays of numbers: what a frame text tells, for a caller that
//! draws it.
#![tactic(auto)]

mod faces;
mod laws;
mod nodes;
mod storing;

pub use faces::{corners_of, write_faces};
pub use laws::positions_are_sound;
pub use nodes::write_nodes;
pub use storing::{store, store_place, store_three};
