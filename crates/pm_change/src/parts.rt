//! The parts of a change.

/// The parts of a change, in the order in which they are told.
#[derive(Clone, Copy, Debug, PartialEq, Eq)]
pub(crate) enum Part {
    GoneFaces,
    GoneNodes,
    NewNodes,
    PutFaces,
}
