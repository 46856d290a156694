//! Picking: which face of the input a ray hits first. Nodes whose balls the ray doesn't meet are
//! skipped with all under them.
#![tactic(auto)]

mod balls;
mod fields;
mod hits;
mod limits;
mod lists;
mod nearest;
mod picker;
mod ray;
mod theory;
mod walk;
mod ways;

pub use balls::ball_met;
pub use fields::{BadRay, read_ray};
pub use hits::{Hit, face_hit};
pub use limits::GREATEST_WAY_COMPONENT;
pub use picker::Picker;
pub use ray::Ray;
pub use theory::hits_are_sound;

/// The answer for want of memory.
pub type OutOfMemory = std::alloc::AllocError;
