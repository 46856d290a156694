//! Why bytes are no coat.

/// What is wrong with bytes that should be the coat of a stream. Bytes are numbered from 1.
#[derive(Clone, Copy, Debug, PartialEq, Eq)]
pub enum Refused {
    /// They begin otherwise than a coat.
    NoCoat,
    /// The version isn't 1.
    Version,
    /// It is for another number of vertices than the stream has leaves.
    Vertices,
    /// It is for another number of faces than the stream has.
    Faces,
    /// It has no part, or one that isn't known.
    Parts,
    /// So many bytes came, and they are too few.
    Cut(u32),
    /// The number that begins at this byte is out of range.
    Number(u32),
    /// This byte fills up a word, and isn't 0.
    Filler(u32),
    /// This byte follows the coat.
    Trailing(u32),
}
