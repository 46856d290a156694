//! Linked lists in one arena: each head has a list of items, and each item is in at most one list.
#![tactic(auto)]

mod items;
mod links;
mod rings;

pub use items::Items;
pub use links::{LIMIT, Links, OutOfMemory};
pub use rings::Ends;
