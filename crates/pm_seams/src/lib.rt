//! Meshes put together along their borders, and what may stand in the place of one of them.
#![tactic(auto)]

mod theory;

pub use theory::seams_are_sound;
