//! Triangle strips: the mesh that a front shows, as display hardware takes it.
#![tactic(auto)]

mod line;
mod sides;
mod strip;
mod stripper;
mod theory;

pub use stripper::Stripper;
pub use theory::strips_are_sound;

/// The answer for want of memory.
pub type OutOfMemory = std::alloc::AllocError;
