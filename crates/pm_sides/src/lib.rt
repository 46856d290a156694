//! A hierarchy with the tables beside it that the sides of its faces are found by, and what stands
//! beyond each side.
#![tactic(auto)]

mod indexed;
mod inner;
mod lowering;
mod record_face;
mod sides;
mod table;
mod told;

pub use indexed::IndexedHierarchy;
pub use lowering::{BadNeighbour, Lowering};
pub use sides::{holds, leaf_at};
pub use table::SideTable;

/// The answer for want of memory.
pub type OutOfMemory = std::alloc::AllocError;
