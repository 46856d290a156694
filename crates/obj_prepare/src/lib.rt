//! What makes any text in the syntax of Wavefront OBJ fit: decimals of any length, and points
//! scaled onto the grid.
#![tactic(auto)]

mod apart;
mod counting;
mod decimal;
mod different;
mod digits;
mod exact;
mod extents;
mod fitting;
mod joining;
mod longest;
mod named;
mod notes;
mod placing;
mod preparing;
mod scale;
mod standing;
mod theory;
mod three;

pub use decimal::{Coordinate, decimal_coordinate, exact_coordinate};
pub use different::rounded_count;
pub use exact::ExactPoint;
pub use extents::{PointBox, box_of, extent, scaled};
pub use longest::{Axis, LongestAxis, longest_axis};
pub use notes::Notes;
pub use placing::{Fit, Placing, place_points};
pub use preparing::{PrepareFail, Prepared, prepare};
pub use scale::{along, nearest};
pub use standing::{stands, whole};
pub use theory::prepared_are_sound;
pub use three::of_three;

/// The answer for want of memory.
pub type OutOfMemory = std::alloc::AllocError;
