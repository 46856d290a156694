//! The slots of a renderer's buffer: which item stands in which slot, and which slots a change
//! writes.
#![tactic(auto)]

mod changes;
mod checks;
mod laws;
mod marks;
mod slots;
mod tables;
#[cfg(test)]
mod tests;

pub use laws::writes_are_fewest;
pub use slots::{ChangeFail, OutOfMemory, Slots};
pub use tables::EMPTY;
