//! A map from items to keys, with its least entry at hand: an indexed heap (Williams 1964) of four
//! branches (Johnson 1975) for the keys of small cost. The others wait in no order until they are
//! needed, as in a quickheap (Navarro and Paredes 2010).
#![tactic(auto)]

mod heap;
mod key;
mod parts;
mod places;
mod queue;
mod samples;
mod sift;
mod slot;

pub use key::Key;
pub use queue::{ITEM_LIMIT, OutOfMemory, Queue};
