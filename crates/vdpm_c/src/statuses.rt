//! What the exported functions answer. A fault of a stream is answered by its own number, which is
//! 11 or more; one of an OBJ text is told beside the answer.

/// It was done.
pub(crate) const DONE: u32 = 0;
/// The text has a fault.
pub(crate) const FAULTY: u32 = 1;
/// A number that was asked for is out of its range.
pub(crate) const OUT_OF_RANGE: u32 = 2;
/// Memory was wanting.
pub(crate) const NO_MEMORY: u32 = 5;
/// The handle isn't open, or, where it was to be opened, is open.
pub(crate) const NOT_SO: u32 = 6;
/// An array has too little room.
pub(crate) const NO_ROOM: u32 = 7;
/// There is no node or leaf with this number.
pub(crate) const NO_SUCH: u32 = 8;
/// The line was `q`.
pub(crate) const QUIT: u32 = 9;
/// The line is none of the forms.
pub(crate) const BAD_LINE: u32 = 30;
/// The line names no record.
pub(crate) const NO_RECORD: u32 = 31;
/// What is told where there is no number to tell.
pub(crate) const NONE: u32 = 0xFFFF_FFFF;
