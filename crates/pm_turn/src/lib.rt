//! Faces turned round so that neighbours agree: the patches that faces make over the edges that two
//! of them share, and of each patch the faces that are turned.
#![tactic(auto)]

mod areas;
mod choice;
mod counts;
mod edges;
mod inward;
mod patches;
mod sides;
mod theory;
mod turning;
mod volumes;

pub use choice::{Turned, chosen_turns};
pub use counts::TurnCounts;
pub use edges::side_mates;
pub use inward::inside_out_by;
use std::alloc::AllocError;
pub use theory::{
    chosen_turns_are_sound, turn_counts_are_sound, turns_are_sound, unions_are_sound,
};
pub use turning::{turned, turns};

/// The answer for want of memory.
pub type OutOfMemory = AllocError;
