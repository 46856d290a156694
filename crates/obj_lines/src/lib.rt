//! The lines of a text in the syntax of Wavefront OBJ that comes in pieces of any size.
#![tactic(auto)]

mod cutting;
mod fault;
mod limits;
mod lines;
mod piece;
mod read;
mod reader;
mod state;
mod step;
mod text;

pub use cutting::any_cutting;
pub use fault::{LineFault, TextFail};
pub use limits::{MOST_LINE_BYTES, MOST_TEXT_BYTES};
pub use lines::Lines;
pub use read::{read_lines, read_lines_after};
pub use reader::LineReader;
pub use state::{Fed, LineState};
pub use text::{is_continued, until};

/// The answer for want of memory.
pub type OutOfMemory = std::alloc::AllocError;
