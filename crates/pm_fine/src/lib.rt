//! Planes whose normals have a chosen length, their exact quadrics, and the place of a pair by
//! them, all in whole numbers.
#![tactic(auto)]

mod area;
mod border;
mod fine_quadric;
mod fourth;
mod limits;
mod matrix;
mod normal;
mod place;
mod plane;
mod point;
mod rounding;
mod terms;

pub use area::area_normal;
pub use border::border_normal;
pub use fine_quadric::{FineQuadric, MOST_FINE_PLANES};
pub use fourth::{fourth_place, fourth_places_are_sound};
pub use limits::fine_values_fit;
pub use matrix::{Matrix, Vector, digits_above, short};
pub use normal::FineNormal;
pub use place::{best_fine_place, least_place};
pub use plane::FinePlane;
pub use point::point_quadric;
pub use rounding::near_wide;
