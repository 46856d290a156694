//! The faults of an OBJ text, and why none was read.
ghost use Rattle.std.specs.Prelude.{◌≡◌};
ghost use Rattle.obj_read.specs.Numbers.{fault_number};

use thiserror::Error;

/// What is wrong with a line. A line with several faults is refused for the first one by the order
/// of the OBJ profile, which isn't the order here.
#[derive(Clone, Copy, Debug, PartialEq, Eq, Error)]
pub enum ObjFault {
    #[error("more than 65,536 bytes stand before the line's end")]
    LineTooLong,
    #[error("the line is continued by a backslash")]
    Continuation,
    #[error("fewer than three fields follow the keyword")]
    TooFewFields,
    #[error("a field is not a number")]
    BadNumber,
    #[error("a coordinate is not whole")]
    NotWhole,
    #[error("a coordinate is out of range")]
    OutOfRange,
    #[error("a corner names no vertex read so far")]
    BadIndex,
    #[error("the face has more than three corners")]
    NotTriangle,
    #[error("there are too many bytes, vertices or faces")]
    TooMany,
    #[error("two corners of the face are the same vertex")]
    RepeatedCorner,
}

impl ObjFault {
    /// The number by which programs tell the fault: from 1 to 10.
    pub fn number(self) -> u32
        ensures { result ≡ fault_number self }
    {
        match self {
            ObjFault::LineTooLong => 1,
            ObjFault::Continuation => 2,
            ObjFault::TooFewFields => 3,
            ObjFault::BadNumber => 4,
            ObjFault::NotWhole => 5,
            ObjFault::OutOfRange => 6,
            ObjFault::BadIndex => 7,
            ObjFault::NotTriangle => 8,
            ObjFault::TooMany => 9,
            ObjFault::RepeatedCorner => 10,
        }
    }
}

/// Why a text gave no mesh.
#[derive(Clone, Copy, Debug, PartialEq, Eq, Error)]
pub enum ObjFail {
    /// The line, counted from 1, is the first with a fault, and has this one first.
    #[error("line {line}: {fault}")]
    Fault { fault: ObjFault, line: u32 },
    /// The source failed, and the bytes taken so far don't reach the place of the first fault.
    #[error("the text could not be read")]
    Read,
    /// Memory was wanting.
    #[error("out of memory")]
    OutOfMemory,
}
