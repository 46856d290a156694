//! Packed texts: the words of a stream text by a range coder, each by a guess of it.
#![tactic(auto)]

mod beginning;
mod fault;
mod fields;
mod grid;
mod mixing;
mod next;
mod past;
mod plane;
mod reading;
mod ring;
mod slots;
mod text;
mod theory;
mod word;
mod writing;

pub use beginning::{Beginning, unpack_first};
pub use fault::{Fault, pack_fault, unpack_fault};
pub use reading::{UnpackFail, unpack};
pub use theory::packed_texts_are_sound;
pub use writing::{PackFail, pack};

/// The answer for want of memory.
pub type OutOfMemory = std::alloc::AllocError;
