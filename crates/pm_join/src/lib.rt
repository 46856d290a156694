//! Tiles of a mesh that was cut: streams that were simplified apart, their borders kept, and what
//! their frames show together.
#![tactic(auto)]

mod theory;

pub use theory::tiles_show_the_whole;
