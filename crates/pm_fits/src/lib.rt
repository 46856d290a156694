//! What each node of the vertex forest has of a number that goes with places, as a place in a
//! texture: that of the linear map which fits the numbers of its leaves best, at its own place.
#![tactic(auto)]

mod channels;
mod faults;
mod fits;
mod numbers;
mod places;
mod ranges;
mod theory;
mod weights;

pub use channels::fits_by_channel;
pub use faults::{FitFault, number_fault};
pub use fits::fits_of;
pub use numbers::GREATEST_NUMBER;
pub use theory::fits_are_sound;

/// The answer for want of memory.
pub type OutOfMemory = std::alloc::AllocError;
