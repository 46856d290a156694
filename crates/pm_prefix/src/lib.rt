//! The first records of a hierarchy as a hierarchy of its own: what is shown of a model while the
//! rest of it is still to come.
#![tactic(auto)]

mod begun;
mod feed;
mod first;
mod readers;
mod theory;
mod units;

pub use first::first_records;
pub use theory::first_records_are_sound;

/// The answer for want of memory.
pub type OutOfMemory = std::alloc::AllocError;
