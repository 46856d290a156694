//! A large valid input out of one number: a grid is simplified and looked at, and a summary tells
//! what that gave.
#![tactic(auto)]

mod lines;
mod scene;
mod theory;
mod views;
mod write;

pub use theory::summaries_are_sound;
pub use write::{DemoFail, demo};

/// The answer for want of memory.
pub type OutOfMemory = std::alloc::AllocError;
