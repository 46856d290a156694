//! Why bits are no coordinate.

/// What is wrong with a number.
#[derive(Clone, Copy, Debug, PartialEq, Eq)]
pub enum FloatFault {
    /// It is an infinity, or not a number.
    NotFinite,
    /// It is more than 10^14 away from 0.
    TooLarge,
}
