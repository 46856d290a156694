//! Sets of numbers below a bound, which give their numbers in order.
#![tactic(auto)]

mod bits;
mod set;
mod words;

pub use set::{BOUND_LIMIT, NumberSet, OutOfMemory};
