//! What one piece of a text does to the open line.
/// What came of a piece.
#[derive(Clone, Copy, Debug, PartialEq, Eq)]
pub enum LineState {
    /// No LF came: the line goes on.
    Partial,
    /// The line is whole.
    Whole,
    /// The line has more bytes before its LF than a line may have.
    TooLong,
    /// The line is whole, and what is read of it ends with a backslash.
    Continued,
}

/// How many bytes of a piece were taken, and what came of them.
#[derive(Clone, Copy, Debug, PartialEq, Eq)]
pub struct Fed {
    pub used: usize,
    pub state: LineState,
}
