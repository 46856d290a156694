//! The bounds of leaves, which the faces at them give.
ghost use Rattle.std.specs.Prelude.{◌≡◌, ℕ, ◌<◌, ◌≤◌, cond, None, IfOk, replicate, length};
ghost use Rattle.std.specs.Prelude.{slice_index_or, slice_set};
ghost use Rattle.pm_base.specs.Geometry.{cross_of};
ghost use Rattle.pm_base.specs.Rounded.{root_up};
ghost use Rattle.pm_base.specs.Place.{origin};
ghost use Rattle.pm_forest.specs.Forest.{node_count, leaf_count};
ghost use Rattle.pm_forest.specs.Faces.{face_count, corners_of};
ghost use Rattle.pm_forest.specs.Meshes.{leaf_place};
ghost use Rattle.pm_bounds.specs.Boxes.{box_at, IsSmallBox};
ghost use Rattle.pm_bounds.specs.Leaves.{bare_leaf_at, widened, widened_by, is_leaf_corner};
ghost use Rattle.pm_bounds.specs.Leaves.{AreBareLeaves, AreSmallLeaves, AreSeen};
ghost use Rattle.pm_bounds.specs.Tables.{
  places_of,
  errors_of,
  radii_of,
  AreBare,
  AreAtMost,
  AreSmallBoxes,
  AreOfLeaves,
};

use crate::normal_box::join;
use crate::roots::root_up;
use crate::{Ball, NormalBox, OutOfMemory};
use pm_base::{FaceId, NodeId, Point, cross, dist2};
use pm_forest::{Face, Hierarchy};
use std::alloc::Global;

/// What the faces at a leaf tell of it: the greatest squared distance of their corners from its
/// place, and the box of their normals. These lie apart from the bounds of nodes, in the order of
/// leaves, so that a face finds all that it widens by its leaf numbers alone.
#[derive(Clone, Copy)]
pub struct LeafBounds {
    place: Point,
    square: u64,
    normals: Option<NormalBox>,
}

/// The bounds of each leaf before any face is seen.
pub(crate) fn bare_leaves(alloc: Global, h: &Hierarchy) -> Result<Vec<LeafBounds>, OutOfMemory>
    ensures { IfOk result (λ leaves. AreBareLeaves h.now (leaf_count h.now) leaves.items) }
{
    let mut leaves = Vec::with_capacity(alloc, h.leaves() as usize)?;
    for leaf in 0..h.leaves() {
        let place = h.place(h.leaf_node(leaf));
        leaves.push(LeafBounds {
            place,
            square: 0,
            normals: None,
        })?;
    }
    Ok(leaves)
}

// A face, whose corners are leaves.
fn corner_leaves(h: &Hierarchy, f: FaceId) -> Face
    requires { f.0 < face_count h.now }
    ensures corners { result ≡ corners_of h.now f.0 }
    ensures a_leaf { result.a < leaf_count h.now }
    ensures b_leaf { result.b < leaf_count h.now }
    ensures c_leaf { result.c < leaf_count h.now }
{
    h.invariant();
    h.face_at(f)
}

// The normal of the face between three places alone, as a box.
fn face_box(a: Point, b: Point, c: Point) -> NormalBox
    ensures value { result ≡ box_at (cross_of a b c) }
    ensures small { IsSmallBox result }
{
    let normal = cross(a, b, c);
    NormalBox {
        low: normal,
        high: normal,
    }
}

// Lets the square of a leaf reach as far as another, and takes the normal of a face into its box.
fn widen(leaves: &mut Vec<LeafBounds>, leaf: u32, square: u64, face: NormalBox)
    requires leaf { leaf < length leaves.old.items }
    requires square { square ≤ 12884115468 }
    requires face { IsSmallBox face }
    requires small { AreSmallLeaves leaves.old.items }
    ensures len { length leaves.new.items ≡ length leaves.old.items }
    ensures wider { let old = leaves.old.items in
        leaves.new.items
        ≡ slice_set old leaf (widened (slice_index_or old leaf (bare_leaf_at origin)) square face) }
    ensures small { AreSmallLeaves leaves.new.items }
{
    let seen = &mut leaves[leaf as usize];
    seen.square = seen.square.max(square);
    seen.normals = join(seen.normals, Some(face));
}

// Lets the squares of the leaves at a face's corners reach it, and takes its normal into their
// boxes.
fn widen_corners(h: &Hierarchy, leaves: &mut Vec<LeafBounds>, f: FaceId)
    requires face { f.0 < face_count h.now }
    requires len { length leaves.old.items ≡ leaf_count h.now }
    requires places { (l : ℕ) → l < leaf_count h.now
        → (slice_index_or leaves.old.items l (bare_leaf_at origin)).place ≡ leaf_place h.now l }
    requires small { AreSmallLeaves leaves.old.items }
    ensures len { length leaves.new.items ≡ leaf_count h.now }
    ensures wider { (l : ℕ) → l < leaf_count h.now
        → let old = slice_index_or leaves.old.items l (bare_leaf_at origin) in
        slice_index_or leaves.new.items l (bare_leaf_at origin)
        ≡ cond (is_leaf_corner l (corners_of h.now f.0))
        (widened_by h.now l (corners_of h.now f.0) old) old }
    ensures small { AreSmallLeaves leaves.new.items }
{
    let face = corner_leaves(h, f);
    let first = leaves[face.a as usize].place;
    let second = leaves[face.b as usize].place;
    let third = leaves[face.c as usize].place;
    let ab = dist2(first, second);
    let bc = dist2(second, third);
    let ca = dist2(third, first);
    let normal = face_box(first, second, third);
    // A corner lies at no distance from itself, so it reaches along its two sides.
    widen(leaves, face.a, ab.max(ca), normal);
    widen(leaves, face.b, ab.max(bc), normal);
    widen(leaves, face.c, bc.max(ca), normal);
}

// Puts the root of a square, rounded up, in the place of a node's radius.
fn take_root(balls: &mut Vec<Ball>, node: NodeId, square: u64)
    requires node { node.0 < length balls.old.items }
    requires square { square ≤ 12884115468 }
    requires small { AreAtMost 113509 (radii_of balls.old.items) }
    ensures len { length balls.new.items ≡ length balls.old.items }
    ensures places { places_of balls.new.items ≡ places_of balls.old.items }
    ensures errors { errors_of balls.new.items ≡ errors_of balls.old.items }
    ensures radii { radii_of balls.new.items
        ≡ slice_set (radii_of balls.old.items) node.0 (root_up square) }
    ensures small { AreAtMost 113509 (radii_of balls.new.items) }
{
    balls[node.0 as usize].radius = root_up(square);
}

// Gives each node that no record splits the bounds of its leaf.
fn give_nodes(
    h: &Hierarchy,
    leaves: &[LeafBounds],
    balls: &mut Vec<Ball>,
    boxes: &mut Vec<Option<NormalBox>>,
)
    requires leaves { AreSeen h.now leaves.now }
    requires bare { AreBare h.now (node_count h.now) balls.old.items }
    requires missing { boxes.old.items ≡ replicate (node_count h.now) None }
    ensures balls_len { length balls.new.items ≡ node_count h.now }
    ensures boxes_len { length boxes.new.items ≡ node_count h.now }
    ensures are { AreOfLeaves h.now balls.new.items boxes.new.items }
    ensures small_radii { AreAtMost 113509 (radii_of balls.new.items) }
    ensures small_boxes { AreSmallBoxes boxes.new.items }
{
    h.invariant();
    for leaf in 0..h.leaves() {
        let node = h.leaf_node(leaf);
        let seen = &leaves[leaf as usize];
        take_root(balls, node, seen.square);
        boxes[node.0 as usize] = seen.normals;
    }
}

/// Gives each node that no record splits its bounds; the others keep only room, with no error. The
/// table of leaves ends with this call.
pub fn bound_leaves(
    h: &Hierarchy,
    mut leaves: Vec<LeafBounds>,
    balls: &mut Vec<Ball>,
    boxes: &mut Vec<Option<NormalBox>>,
)
    requires bare_leaves { AreBareLeaves h.now (leaf_count h.now) leaves.items }
    requires bare { AreBare h.now (node_count h.now) balls.old.items }
    requires missing { boxes.old.items ≡ replicate (node_count h.now) None }
    ensures balls_len { length balls.new.items ≡ node_count h.now }
    ensures boxes_len { length boxes.new.items ≡ node_count h.now }
    ensures are { AreOfLeaves h.now balls.new.items boxes.new.items }
    ensures small_radii { AreAtMost 113509 (radii_of balls.new.items) }
    ensures small_boxes { AreSmallBoxes boxes.new.items }
{
    // The root of the greatest square is the greatest of the roots, so a root is taken when all
    // faces are seen.
    h.invariant();
    for f in 0..h.faces() {
        widen_corners(h, &mut leaves, FaceId(f));
    }
    give_nodes(h, &leaves, balls, boxes);
}
