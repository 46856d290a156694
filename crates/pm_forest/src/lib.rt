//! The vertex forest of a progressive mesh: roots, base faces and vertex splits, and the rules of
//! their shape.
#![tactic(auto)]

mod face_faults;
mod faults;
mod growing;
mod hierarchy;
mod marks;
mod meshes;
mod neighbours;
mod parts;
mod readers;
mod shaper;
mod theory;

pub use growing::Growing;
pub use hierarchy::Hierarchy;
pub use parts::{
    Child, Counts, Face, FaceList, Head, NewFace, Record, Records, Root, Roots, Shape, Unfinished,
    UnitKind,
};
pub use shaper::Shaper;
pub use theory::{fronts_are_sound, input_meshes_are_sound};

/// The answer for want of memory.
pub type OutOfMemory = std::alloc::AllocError;
