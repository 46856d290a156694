//! A grid of points with heights that look like chance, as a triangle mesh of any size up to 256
//! times 256 cells.
#![tactic(auto)]

mod mesh;
mod theory;

pub use mesh::grid;
pub use theory::grids_are_sound;

/// The answer for want of memory.
pub type OutOfMemory = std::alloc::AllocError;
