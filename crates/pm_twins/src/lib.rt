//! The twin of each side of a triangle mesh, the vertices on its border, and whether the faces at
//! each vertex are a fan; and surfaces, which are meshes where all this is well.
#![tactic(auto)]

mod fans;
mod half_edges;
mod side_lists;
mod sides;
mod stamps;
mod surface;
mod theory;
mod twins;

pub use fans::{FansFail, check_fans};
use std::alloc::AllocError;
pub use surface::{Surface, SurfaceFail};
pub use theory::meshes_are_sound;
pub use twins::{Twins, TwinsFail};

/// The answer for want of memory.
pub type OutOfMemory = AllocError;
