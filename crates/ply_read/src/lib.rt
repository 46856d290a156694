//! The points and triangles of a PLY file.
#![tactic(auto)]

mod declared;
mod fault;
mod header;
mod items;
mod lines;
mod losses;
mod mesh;
mod names;
mod number;
mod opening;
mod read;
mod row;
mod stop;
mod words;

pub use declared::{
    Declared, Element, Encoding, Kind, Order, PlyHeader, Property, Role, ScalarType,
};
pub use fault::{PlyFail, PlyFault, Refused, Spot};
pub use header::read_header;
pub use losses::Losses;
pub use read::{Ply, read_ply};

/// The answer for want of memory.
pub type OutOfMemory = std::alloc::AllocError;
