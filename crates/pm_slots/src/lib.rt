//! Tables of the live vertices of a mesh that is being simplified.
#![tactic(auto)]

mod table;

pub use table::{OutOfMemory, SlotTable};
