//! What each node of the vertex forest has of a number that the vertices of the input have, as a
//! part of their colours: the rounded mean, or the sum, over the leaves under the node.
#![tactic(auto)]

mod channels;
mod inputs;
mod leaves;
mod means;
mod sums;
mod theory;

pub use channels::means_by_channel;
pub use inputs::{NO_VERTEX, write_faces, write_vertices};
pub use means::means_of;
pub use sums::{MOST_VALUE, sums_of};
pub use theory::means_are_sound;

/// The answer for want of memory.
pub type OutOfMemory = std::alloc::AllocError;
