//! Which records of a front may be moved: what each record needs, how often it is needed, and the
//! two sets of records on which a move may be tried.
#![tactic(auto)]

mod candidates;
mod need_counts;
mod needs;

pub use candidates::Candidates;
pub use need_counts::{NeedCounts, lower_all, raise_all};
pub use needs::NeedTable;

/// The answer for want of memory.
pub type OutOfMemory = std::alloc::AllocError;
