//! The leaves at the corners of a hierarchy's faces, and the nodes above them.
ghost use Rattle.std.specs.Prelude.{◌≡◌, ◌+◌, ◌*◌, ◌<◌};
ghost use Rattle.pm_forest.specs.Forest.{leaf_count, node_count, holds as holds_in};
ghost use Rattle.pm_forest.specs.Faces.{face_count, from_leaf};

use pm_base::{FaceId, NodeId};
use pm_forest::Hierarchy;

/// Whether a leaf is under a node. O(1).
#[tactic(auto, using(crate::proofs::SideLaws::holds_at))]
pub fn holds(h: &Hierarchy, node: NodeId, leaf: u32) -> bool
    requires { node.0 < node_count h.now }
    ensures { result ≡ holds_in h.now node.0 leaf }
{
    let (from, until) = h.interval(node);
    from <= leaf && leaf < until
}

/// The leaf at corner `i` of a face, which is 0, 1 or 2. O(1).
#[tactic(auto, using(crate::proofs::SideLaws::leaf_first, crate::proofs::SideLaws::leaf_second, crate::proofs::SideLaws::leaf_third, crate::proofs::SideLaws::corner_first, crate::proofs::SideLaws::corner_second, crate::proofs::SideLaws::corner_third))]
pub fn leaf_at(h: &Hierarchy, f: FaceId, i: u32) -> u32
    requires face { f.0 < face_count h.now }
    requires corner { i < 3 }
    ensures value { result ≡ from_leaf h.now (3 * f.0 + i) }
    ensures leaf { result < leaf_count h.now }
{
    h.invariant();
    let corners = h.face_at(f);
    match i {
        0 => corners.a,
        1 => corners.b,
        _ => corners.c,
    }
}
