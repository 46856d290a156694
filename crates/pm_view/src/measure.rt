//! By which number of a node a view judges how far off the node may look.

/// By which number of a node a view judges it.
#[derive(Clone, Copy, Debug, PartialEq, Eq)]
pub enum Measure {
    /// The error: no leaf under the node is farther from its place.
    Error,
    /// The deviation: how far the node's place may be from the faces under it, so that flat ground
    /// is seen as flat.
    Deviation,
}
