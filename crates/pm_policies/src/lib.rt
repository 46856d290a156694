//! Runs of collapses by a policy, which says what planes a vertex stands for, where a pair is put
//! and which vertices are kept, and the laws of such runs.
#![tactic(auto)]

mod theory;

pub use theory::policies_are_sound;
