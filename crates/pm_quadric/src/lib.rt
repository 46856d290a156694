//! Exact quadrics: the squared values of a list of planes, summed in whole numbers, and the place
//! where they are least.
#![tactic(auto)]

mod best;
mod limits;
mod plane;
mod quadric;
mod terms;

pub use best::best_place;
pub use limits::values_fit;
pub use quadric::{MOST_PLANES, Quadric};
