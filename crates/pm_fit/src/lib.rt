//! The linear map that fits the numbers of some places best, at another place, in whole numbers.
#![tactic(auto)]

mod fitting;
mod moments;
mod slopes;

pub use fitting::fit;
pub use moments::{Moments, NumberSums, PlaceSums, Spot};
