//! The theory of edge collapses, of runs of them, and of vertex splits: each function here states
//! laws, which its check proves.
#![tactic(auto)]

mod theory;

pub use theory::{runs_are_sound, splits_are_sound, steps_are_sound};
