//! What a run of edge collapses leaves behind, so that it can be undone. The names follow Hoppe
//! 1996: an edge collapse puts the vertex s in place of t and u, and drops the face to the left and
//! the face to the right of the edge.
use crate::{FaceId, Items, Point, Side};

/// A face that a collapse dropped. `first` and `second` are what stood just before across its two
/// other sides, in the face's own cyclic order after the side between the two vertices that were
/// merged. All numbers are those of the mesh that the run began with.
#[derive(Clone, Copy, Debug, PartialEq, Eq)]
pub struct Gone {
    pub face: FaceId,
    pub first: Option<Side>,
    pub second: Option<Side>,
}

/// An edge collapse: the vertices `t` and `u` became the vertex `s` at `place`. The left face is
/// the dropped one in which `t` is followed by `u`, and the right face the one in which `u` is
/// followed by `t`.
#[derive(Clone, Copy, Debug, PartialEq, Eq)]
pub struct Collapse {
    pub t: u32,
    pub u: u32,
    pub s: u32,
    pub place: Point,
    pub left: Option<Gone>,
    pub right: Option<Gone>,
}

/// The collapses of a run, in their order.
pub type Log = Items<Collapse>;
