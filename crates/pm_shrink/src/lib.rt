//! The mesh that is being simplified: which pairs of vertices may be collapsed, and the collapse of
//! one.
#![tactic(auto)]

mod beside;
mod border;
mod collapse;
mod corners;
mod faces;
mod fan;
mod legal;
mod readers;
mod rims;
mod setup;
mod shrink;
mod tables;
mod verdict;

pub use shrink::{OutOfMemory, Shrink};
pub use verdict::Verdict;
