//! Polygons cut into triangles by ears, on the plane of the axes that shows them largest.
#![tactic(auto)]

mod counted;
mod cut;
mod ears;
mod fan;
mod plane;
mod recut;
mod seen;
mod spots;
mod theory;

pub use cut::{Cut, CutKind, MOST_EAR_CORNERS, cut_polygon};
pub use plane::{Axis, Plane};
pub use recut::{Polygon, Recut, recut_polygons};
pub use spots::{Spot, Triangle};
use std::alloc::AllocError;
pub use theory::ears_are_sound;

/// The answer for want of memory.
pub type OutOfMemory = AllocError;
