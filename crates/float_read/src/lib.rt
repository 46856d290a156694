//! Numbers that a file has as bits, in units of 10^-18.
#![tactic(auto)]

mod fault;
mod format;
mod number;
mod units;

pub use fault::FloatFault;
pub use format::Format;
pub use number::{double_coordinate, single_coordinate, whole_coordinate};
