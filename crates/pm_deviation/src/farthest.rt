//! Which of the planes of the faces under a node is the farthest from its place, for nodes with few
//! leaves: from each corner of a face the nodes above it are gone through.
ghost use Rattle.std.specs.Prelude.{◌≡◌, ℕ, ◌<◌, ◌≤◌, ◌*◌, None, IfOk, replicate, length};
ghost use Rattle.std.specs.Prelude.{slice_index_or};
ghost use Rattle.std.specs.Option.{option_map, unwrap_or};
ghost use Rattle.pm_base.specs.Sides.{face_of};
ghost use Rattle.pm_forest.specs.Forest.{node_count, leaf_count};
ghost use Rattle.pm_forest.specs.Faces.{face_count, from_leaf};
ghost use Rattle.pm_deviation.specs.Farthest.{has_few_leaves, few_above, face_box};
ghost use Rattle.pm_deviation.specs.Farthest.{plane_through, IsRung, AreRungs, AreRaised};
ghost use Rattle.pm_deviation.specs.Farthest.{AreFarthestPlanes};
ghost use Rattle.pm_bounds.specs.Tables.{AreAtMost};
ghost use Rattle.pm_deviation.specs.Tables.{IsUnitBox, AreHeadings, AreOfFaces};

use crate::OutOfMemory;
use crate::heading::Heading;
use crate::nodes::nodes_of;
use crate::spread::Spread;
use crate::steps::way_along;
use crate::unit_box::UnitBox;
use pm_base::{FaceId, NodeId, Point, Side};
use pm_forest::Hierarchy;
use std::alloc::Global;

/// So many leaves, and no more, are few: each plane under a node with few leaves is looked at, and
/// a corner for this many nodes at most.
pub const FEW_LEAVES: u32 = 64;

// Clauses cite the limit by its name, so its value is said here.
const _: () = prove!(FEW_LEAVES == 64);

/// Whether a node has few leaves.
#[tactic(auto, unfolding(crate::specs::Farthest::has_few_leaves))]
pub(crate) fn has_few_leaves(h: &Hierarchy, node: NodeId) -> bool
    requires { node.0 < node_count h.now }
    ensures { result ≡ has_few_leaves h.now node.0 }
{
    h.invariant();
    let (from, until) = h.interval(node);
    until - from <= FEW_LEAVES
}

// The node above a node, where it has few leaves.
fn few_above(h: &Hierarchy, node: NodeId) -> Option<NodeId>
    requires { node.0 < node_count h.now }
    ensures { option_map (λ (above : NodeId). above.0) result ≡ few_above h.now node.0 }
{
    let above = nodes_of(h, h.maker(node)?).s;
    if has_few_leaves(h, above) {
        Some(above)
    } else {
        None
    }
}

/// What a way up from a leaf reads at each node: its place, and the node above it, where that has
/// few leaves. The hierarchy has the two far apart in memory.
#[derive(Clone, Copy)]
pub struct Rung {
    pub place: Point,
    pub above: Option<NodeId>,
}

// The rung of a node.
fn rung_at(h: &Hierarchy, node: NodeId) -> Rung
    requires { node.0 < node_count h.now }
    ensures { IsRung h.now node.0 result }
{
    Rung {
        place: h.place(node),
        above: few_above(h, node),
    }
}

// The rungs of all nodes, 16 bytes a node.
fn rungs(alloc: Global, h: &Hierarchy) -> Result<Vec<Rung>, OutOfMemory>
    ensures { IfOk result (λ rungs. AreRungs h.now (node_count h.now) rungs.items) }
{
    let mut rungs = Vec::with_capacity(alloc, h.nodes() as usize)?;
    for node in 0..h.nodes() {
        rungs.push(rung_at(h, NodeId(node)))?;
    }
    Ok(rungs)
}

// Lets the number of each node with few leaves above a leaf be at least how far its place may be
// from a plane through the leaf.
fn raise_above(h: &Hierarchy, rungs: &[Rung], table: &mut Vec<u32>, leaf: u32, parts: UnitBox)
    requires rungs { AreRungs h.now (node_count h.now) rungs.now }
    requires leaf { leaf < leaf_count h.now }
    requires parts { IsUnitBox parts }
    requires len { length table.old.items ≡ node_count h.now }
    requires small { AreAtMost 113509 table.old.items }
    ensures len { length table.new.items ≡ node_count h.now }
    ensures small { AreAtMost 113509 table.new.items }
    ensures raised { AreRaised h.now leaf (plane_through h.now parts leaf) table.old.items
        table.new.items }
{
    h.invariant();
    let lowest = h.leaf_node(leaf);
    let place = rungs[lowest.0 as usize].place;
    let mut above = Some(lowest);
    while let Some(node) = above {
        let at = node.0 as usize;
        let rung = &rungs[at];
        table[at] = table[at].max(way_along(&parts, rung.place, place));
        above = rung.above;
    }
}

// The leaf at a corner of a face.
#[tactic(auto, unfolding(pm_forest::specs::Faces::from_leaf))]
fn leaf_at(h: &Hierarchy, faces: &[Heading], corner: Side) -> u32
    requires are { AreHeadings h.now faces.now }
    requires faces { AreOfFaces h.now (face_count h.now) faces.now }
    requires corner { corner.0 < 3 * face_count h.now }
    ensures leaf { result ≡ from_leaf h.now corner.0 }
    ensures below { result < leaf_count h.now }
{
    let face = &faces[corner.face().0 as usize];
    match corner.0 % 3 {
        0 => face.a,
        1 => face.b,
        _ => face.c,
    }
}

// The normal of a face in parts of its own length; 0 on each axis where it has no area.
fn face_box(h: &Hierarchy, faces: &[Heading], f: FaceId) -> UnitBox
    requires are { AreHeadings h.now faces.now }
    requires faces { AreOfFaces h.now (face_count h.now) faces.now }
    requires face { f.0 < face_count h.now }
    ensures value { result ≡ face_box h.now f.0 }
    ensures small { IsUnitBox result }
{
    let none = Spread { low: 0, high: 0 };
    faces[f.0 as usize].parts.unwrap_or(UnitBox {
        x: none,
        y: none,
        z: none,
    })
}

// Looks at each corner from the nodes above it.
fn look_at_corners(h: &Hierarchy, faces: &[Heading], rungs: &[Rung], table: &mut Vec<u32>)
    requires are { AreHeadings h.now faces.now }
    requires faces { AreOfFaces h.now (face_count h.now) faces.now }
    requires rungs { AreRungs h.now (node_count h.now) rungs.now }
    requires zeros { table.old.items ≡ replicate (node_count h.now) 0 }
    ensures { AreFarthestPlanes h.now table.new.items }
{
    for number in 0..3 * h.faces() {
        let corner = Side(number);
        let parts = face_box(h, faces, corner.face());
        raise_above(h, rungs, table, leaf_at(h, faces, corner), parts);
    }
}

// As many zeros as there are nodes. The length is a parameter, so that no proof unfolds the list.
fn zeros(alloc: Global, nodes: usize) -> Result<Vec<u32>, OutOfMemory>
    ensures { IfOk result (λ table. table.items ≡ replicate nodes 0) }
{
    vec![in alloc; 0; nodes]
}

/// How far the place of each node with few leaves may be from the planes of the faces under it: 4
/// bytes a node, and 16 more while they are found. The numbers of other nodes mean nothing.
pub(crate) fn farthest_planes(
    alloc: Global,
    h: &Hierarchy,
    faces: &[Heading],
) -> Result<Vec<u32>, OutOfMemory>
    requires are { AreHeadings h.now faces.now }
    requires faces { AreOfFaces h.now (face_count h.now) faces.now }
    ensures { IfOk result (λ table. AreFarthestPlanes h.now table.items) }
{
    let rungs = rungs(alloc, h)?;
    let mut table = zeros(alloc, h.nodes() as usize)?;
    look_at_corners(h, faces, &rungs, &mut table);
    Ok(table)
}
