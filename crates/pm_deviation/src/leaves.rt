//! Leaves by the faces that have them as corners, and their places.
ghost use Rattle.std.specs.Prelude.{◌≡◌, ◌<◌, ◌*◌};
ghost use Rattle.pm_forest.specs.Forest.{leaf_count};
ghost use Rattle.pm_forest.specs.Faces.{face_count, corners_of, from_leaf, to_leaf};
ghost use Rattle.pm_forest.specs.Meshes.{leaf_place};

use pm_base::{FaceId, Point, Side};
use pm_forest::{Face, Hierarchy};

/// The place of a leaf.
pub(crate) fn leaf_point(h: &Hierarchy, leaf: u32) -> Point
    requires { leaf < leaf_count h.now }
    ensures { result ≡ leaf_place h.now leaf }
{
    h.place(h.leaf_node(leaf))
}

/// A face, whose corners are leaves.
pub(crate) fn face_leaves(h: &Hierarchy, f: FaceId) -> Face
    requires { f.0 < face_count h.now }
    ensures corners { result ≡ corners_of h.now f.0 }
    ensures a_leaf { result.a < leaf_count h.now }
    ensures b_leaf { result.b < leaf_count h.now }
    ensures c_leaf { result.c < leaf_count h.now }
{
    h.invariant();
    h.face_at(f)
}

/// The leaves that a side runs from and to.
pub(crate) fn side_leaves(h: &Hierarchy, side: Side) -> (u32, u32)
    requires { side.0 < 3 * face_count h.now }
    ensures from { result.0 ≡ from_leaf h.now side.0 }
    ensures to { result.1 ≡ to_leaf h.now side.0 }
    ensures from_small { result.0 < leaf_count h.now }
    ensures to_small { result.1 < leaf_count h.now }
{
    let face = face_leaves(h, FaceId(side.0 / 3));
    match side.0 % 3 {
        0 => (face.a, face.b),
        1 => (face.b, face.c),
        _ => (face.c, face.a),
    }
}
