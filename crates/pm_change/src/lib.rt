//! What changed between two fronts of a hierarchy, its text, and what a viewer makes of it.
#![tactic(auto)]

mod before;
mod changer;
mod corners;
mod faces;
mod fitting;
mod gathering;
mod line;
mod parts;
mod sets;
mod storing;
mod telling;
mod theory;

pub use changer::Changer;
pub use fitting::ChangeSizes;
pub use theory::changes_are_sound;

/// The answer for want of memory.
pub type OutOfMemory = std::alloc::AllocError;
