//! What the pairs of a mesh that is being simplified cost by a policy, and where they are put.
#![tactic(auto)]

mod costs;
mod quadrics;

pub use costs::Costs;
pub use quadrics::{OutOfMemory, QuadricTable};
