//! A second number of each node, by which a view can judge it: its deviation, which knows flat
//! ground and straight borders.
#![tactic(auto)]

mod axes;
mod axis_spreads;
mod border;
mod cosines;
mod deviations;
mod face_headings;
mod farthest;
mod heading;
mod leaves;
mod lines;
mod measures;
mod nodes;
mod parts;
mod planes;
mod roots;
mod space_spreads;
mod spread;
mod steps;
mod theory;
mod unit_box;
mod upward;
mod way;

pub use measures::Measures;
pub use theory::deviations_are_sound;

/// The answer for want of memory.
pub type OutOfMemory = std::alloc::AllocError;
