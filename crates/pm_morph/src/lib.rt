//! Geomorphs: the mesh on its way from a marked front to a finer one (Hoppe 1996). It has the faces
//! of the finer front, and each node stands between its elder, the node of the marked front above
//! it, and its own place.
#![tactic(auto)]

mod elder;
mod finer;
mod interpolation;
mod limits;
mod marker;
mod text;
mod theory;

pub use limits::MOST_PARTS;
pub use marker::{Marker, MorphFail};
pub use theory::geomorphs_are_sound;

/// The answer for want of memory.
pub type OutOfMemory = std::alloc::AllocError;
