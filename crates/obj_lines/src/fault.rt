//! The fault of a line, and why a text was not read to its end.

/// What is wrong with a line, and its number, from 1.
#[derive(Clone, Copy, Debug, PartialEq, Eq)]
pub struct LineFault<F> {
    pub fault: F,
    pub line: u32,
}

/// Why a text was not read to its end.
#[derive(Clone, Copy, Debug, PartialEq, Eq)]
pub enum TextFail<F> {
    /// The first line with a fault has this one first.
    Fault(LineFault<F>),
    /// The source failed, and the bytes taken so far don't reach the place of the first fault.
    Read,
    /// Memory was wanting.
    OutOfMemory,
}
