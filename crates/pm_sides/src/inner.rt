//! Which side of each new face is the inner one, found once.
ghost use Rattle.std.specs.Prelude.{◌≡◌, ◌<◌, ◌++◌, IfOk, OnOk};
ghost use Rattle.pm_forest.specs.Forest.{node_count};
ghost use Rattle.pm_forest.specs.Faces.{face_count, first_face};
ghost use Rattle.pm_sides.specs.Tables.{AreInnerCorners, corner_under, corners_under};

use crate::OutOfMemory;
use crate::sides::holds;
use pm_base::NodeId;
use pm_forest::{Face, Hierarchy, NewFace};
use std::alloc::Global;

// The first corner of a face under a node, or the last one where none of the others is.
fn corner_under(h: &Hierarchy, node: NodeId, face: &Face) -> u8
    requires { node.0 < node_count h.now }
    ensures { result ≡ corner_under h.now node.0 face.now }
{
    if holds(h, node, face.a) {
        0
    } else if holds(h, node, face.b) {
        1
    } else {
        2
    }
}

// Adds the corner at which the inner side of a new face begins, where that face is there. The inner
// side runs from the corner under the node.
fn add_corner(
    h: &Hierarchy,
    node: NodeId,
    face: &Option<NewFace>,
    corners: &mut Vec<u8>,
) -> Result<(), OutOfMemory>
    requires { node.0 < node_count h.now }
    ensures { OnOk result (corners.new.items
        ≡ corners.old.items ++ corners_under h.now node.0 face.now) }
{
    if let Some(new) = face {
        corners.push(corner_under(h, node, &new.face))?;
    }
    Ok(())
}

// The entries of the base faces, which have no inner side: 0 for each. There is room for all faces.
#[tactic(auto, using(crate::proofs::InnerLaws::inners_none, crate::proofs::FirstLaws::firsts_begin))]
fn base_corners(alloc: Global, h: &Hierarchy) -> Result<Vec<u8>, OutOfMemory>
    ensures { IfOk result (λ corners. AreInnerCorners h.now (first_face h.now 0) corners.items) }
{
    let mut corners = Vec::with_capacity(alloc, h.faces() as usize)?;
    for _base in 0..h.bases() {
        corners.push(0)?;
    }
    Ok(corners)
}

/// The corner at which the inner side of each face begins: in a record's left face the one under
/// its child t, and in its right face the one under u.
#[tactic(auto, using(crate::proofs::InnerLaws::inners_record))]
pub(crate) fn inner_corners(alloc: Global, h: &Hierarchy) -> Result<Vec<u8>, OutOfMemory>
    ensures { IfOk result (λ corners. AreInnerCorners h.now (face_count h.now) corners.items) }
{
    let mut corners = base_corners(alloc, h)?;
    for k in 0..h.records() {
        let change = h.record_at(k);
        let (t, u) = h.children(k);
        add_corner(h, t, &change.left, &mut corners)?;
        add_corner(h, u, &change.right, &mut corners)?;
    }
    Ok(corners)
}
