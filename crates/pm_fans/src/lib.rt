//! Any faces become an oriented manifold: those stay that have three different corners, one for
//! each three; the surface is cut along its singular sides, and each vertex is split into its fans.
#![tactic(auto)]

mod chains;
mod cutting;
mod glue;
mod keeping;
mod numbers;
mod sides;
mod split;
mod theory;

pub use cutting::cut_sides;
pub use glue::glued_sides;
pub use keeping::{is_flat, kept};
pub use split::{Split, split_by_fans};
use std::alloc::AllocError;
pub use theory::splits_are_sound;

/// The answer for want of memory.
pub type OutOfMemory = AllocError;
