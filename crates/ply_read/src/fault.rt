//! The faults of a file, and why none was read.

/// What is wrong with a file.
#[derive(Clone, Copy, Debug, PartialEq, Eq)]
pub enum PlyFault {
    /// The first line isn't `ply`.
    NotPly,
    /// The file ends in its header, or before what its header tells.
    CutOff,
    /// A line of the header isn't one that may stand there.
    UnexpectedLine,
    /// The format isn't one of the three, in version 1.0, or there is none.
    UnknownFormat,
    /// A property hasn't one of the types, or a list's count isn't of whole numbers.
    UnknownType,
    /// A count or an index isn't a whole number from 0 on, or a coordinate of a text isn't a
    /// number.
    BadNumber,
    /// A property stands before all elements, or one of x, y, z or the corners stands there twice,
    /// or isn't of a form that it may have.
    UnexpectedProperty,
    /// An element `vertex` lacks x, y or z, or an element `face` its corners.
    MissingProperty,
    /// An element `vertex` or `face` stands there twice, or `face` before `vertex`.
    UnexpectedElement,
    /// There is no element `vertex`.
    NoVertices,
    /// There is an element `tristrips`.
    TriangleStrips,
    /// There are more than 1,048,576 vertices.
    TooManyVertices,
    /// Faces make more than 1,048,576 triangles.
    TooManyTriangles,
    /// A face names a vertex that isn't there.
    BadIndex,
    /// A coordinate is an infinity, or not a number.
    NotFinite,
    /// A coordinate is more than 10^14 away from 0.
    TooLarge,
}

/// Where a fault stands: a line, counted from 1, or a byte, counted from 0.
#[derive(Clone, Copy, Debug, PartialEq, Eq)]
pub enum Spot {
    Line(usize),
    Byte(usize),
}

/// The first fault of a file, and where it stands.
#[derive(Clone, Copy, Debug, PartialEq, Eq)]
pub struct Refused {
    pub fault: PlyFault,
    pub spot: Spot,
}

/// Why a file gave no points and triangles.
#[derive(Clone, Copy, Debug, PartialEq, Eq)]
pub enum PlyFail {
    /// The file has this fault first.
    Fault(Refused),
    /// Memory was wanting.
    OutOfMemory,
}
