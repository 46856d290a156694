//! Sources and sinks of bytes, which count their failures, and the window, the line and the page of
//! text over them.
#![tactic(auto)]

mod device;
mod line;
mod memory;
mod number;
mod page;
mod put;
mod streams;
mod taker;

pub use device::{Failed, ReadFault, Sink, Source, WriteFault};
pub use line::Line;
pub use memory::{MemSink, MemSource, SureSource};
pub use number::{are_digits, read_unsigned, value_up_to};
pub use page::Page;
pub use put::put_all;
pub use streams::{StdSink, StdSource};
pub use taker::Taker;

/// The answer for want of memory.
pub type OutOfMemory = std::alloc::AllocError;
