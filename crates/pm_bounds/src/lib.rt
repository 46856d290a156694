//! How far what is under a node of the vertex forest can be from the node's place, and which way
//! its faces look.
#![tactic(auto)]

mod balls;
mod bounds;
mod growing;
mod leaves;
mod normal_box;
mod roots;
mod theory;

pub use balls::Ball;
pub use bounds::Bounds;
pub use normal_box::NormalBox;
pub use theory::bounds_are_sound;

/// The answer for want of memory.
pub type OutOfMemory = std::alloc::AllocError;
