//! The vertex forest of a run of edge collapses, made from the log of the run.
#![tactic(auto)]

mod feed;
mod left;
mod number;
mod run;
mod tables;
mod theory;
mod units;

pub use number::from_log;
pub use theory::numbers_are_sound;

/// The answer for want of memory.
pub type OutOfMemory = std::alloc::AllocError;
