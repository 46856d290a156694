//! The plan of a view: its target, the moves that lead to it, and as many of them as a budget
//! allows.
#![tactic(auto)]

mod deciding;
mod doing;
mod finding;
mod marks;
mod needs;
mod plan;
mod refiner;
mod sight;
mod theory;

pub use refiner::{Adapted, Refiner};
pub use theory::deviation_views_are_sound;

/// The answer for want of memory.
pub type OutOfMemory = std::alloc::AllocError;
