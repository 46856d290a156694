//! Runs of collapses that keep some vertices, such as those of a border, and their laws.
#![tactic(auto)]

mod theory;

pub use theory::keeping_is_sound;
