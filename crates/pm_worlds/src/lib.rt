//! Worlds of tiles: hierarchies side by side, each of which shows what it will.
#![tactic(auto)]

mod theory;

pub use theory::{cut_meshes_are_sound, worlds_are_sound};
