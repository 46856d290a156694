//! Tiles that meet along their borders whatever each shows: the vertices on a border, which
//! a run may keep, and the laws of leaves that every front shows.
#![tactic(auto)]

mod border;
mod theory;

pub use border::border_flags;
pub use theory::{fixed_borders_are_sound, spared_vertices_are_sound};

/// The answer for want of memory.
pub type OutOfMemory = std::alloc::AllocError;
