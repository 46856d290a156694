//! The faults of a file, and why none was read.

/// What is wrong with a file.
#[derive(Clone, Copy, Debug, PartialEq, Eq)]
pub enum StlFault {
    /// It ends before what its count of facets tells, or in a solid.
    CutOff,
    /// It goes on after what its count of facets tells.
    MoreBytes,
    /// A coordinate is an infinity, or not a number.
    NotFinite,
    /// A coordinate is more than 10^14 away from 0.
    TooLarge,
    /// There are more than 1,048,576 different points.
    TooManyVertices,
    /// There are more than 1,048,576 facets.
    TooManyFaces,
    /// A line of a text isn't what comes next.
    UnexpectedWord,
    /// A coordinate of a text isn't a number.
    BadNumber,
}

/// The first fault of a file, and where it stands: the byte, counted from 0, or
/// the line of a text, counted from 1.
#[derive(Clone, Copy, Debug, PartialEq, Eq)]
pub struct Refused {
    pub fault: StlFault,
    pub place: usize,
}

/// Why a file gave no points and triangles.
#[derive(Clone, Copy, Debug, PartialEq, Eq)]
pub enum StlFail {
    /// The file has this fault first.
    Fault(Refused),
    /// Memory was wanting.
    OutOfMemory,
}
