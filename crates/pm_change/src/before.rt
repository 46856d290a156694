//! What was active or kept in the marked front, and whether a node or a face is gone or new.
ghost use Rattle.std.specs.Prelude.{◌≡◌, ◌<◌, length};
ghost use Rattle.pm_base.specs.Counts.{set_of};
ghost use Rattle.pm_forest.specs.Forest.{node_count, record_count, maker_of, splitter_of};
ghost use Rattle.pm_forest.specs.Fronts.{is_active as active_in, made_in, split_in};
ghost use Rattle.pm_forest.specs.Faces.{face_count, revealed_by as revealer_of};
ghost use Rattle.pm_forest.specs.Kept.{is_kept as kept_in};
ghost use Rattle.pm_change.specs.Changes.{is_gone_face, is_gone_node, is_new_node};
ghost use Rattle.pm_morph.specs.Marks.{AreMarksOf};

use pm_base::{FaceId, NodeId};
use pm_forest::Hierarchy;
use pm_front::Front;

// Whether the record that made a node was split, or none made it.
fn was_made(h: &Hierarchy, marks: &[bool], node: NodeId) -> bool
    requires node { node.0 < node_count h.now }
    requires marks { length marks.now ≡ record_count h.now }
    ensures { result ≡ made_in (set_of marks.now) (maker_of h.now node.0) }
{
    match h.maker(node) {
        None => true,
        Some(k) => marks[k as usize],
    }
}

// Whether the record that splits a node was split.
fn was_split(h: &Hierarchy, marks: &[bool], node: NodeId) -> bool
    requires node { node.0 < node_count h.now }
    requires marks { length marks.now ≡ record_count h.now }
    ensures { result ≡ split_in (set_of marks.now) (splitter_of h.now node.0) }
{
    match h.splitter(node) {
        None => false,
        Some(k) => marks[k as usize],
    }
}

// Whether a node was active.
#[tactic(auto, unfolding(pm_forest::specs::Fronts::is_active))]
fn was_active(h: &Hierarchy, marks: &[bool], node: NodeId) -> bool
    requires node { node.0 < node_count h.now }
    requires marks { length marks.now ≡ record_count h.now }
    ensures { result ≡ active_in h.now (set_of marks.now) node.0 }
{
    was_made(h, marks, node) && !was_split(h, marks, node)
}

// Whether the record that reveals a face was split, or none reveals it.
fn was_revealed(h: &Hierarchy, marks: &[bool], face: FaceId) -> bool
    requires face { face.0 < face_count h.now }
    requires marks { length marks.now ≡ record_count h.now }
    ensures { result ≡ made_in (set_of marks.now) (revealer_of h.now face.0) }
{
    match h.revealed_by(face) {
        None => true,
        Some(k) => marks[k as usize],
    }
}

// Whether a face was kept.
#[tactic(auto, using(pm_forest::proofs::ViewLaws::kept_flag, crate::proofs::TestLaws::marked_front))]
fn was_kept(h: &Hierarchy, marks: &[bool], face: FaceId) -> bool
    requires face { face.0 < face_count h.now }
    requires told { AreMarksOf h.now marks.now }
    ensures { result ≡ kept_in h.now (set_of marks.now) face.0 }
{
    h.invariant();
    was_revealed(h, marks, face)
}

/// Whether a face was kept and isn't.
pub(crate) fn is_gone_face(front: &Front, marks: &[bool], face: FaceId) -> bool
    requires face { face.0 < face_count front.now.h }
    requires told { AreMarksOf front.now.h marks.now }
    ensures { let S = set_of marks.now in let G = set_of front.now.flags in
        result ≡ is_gone_face front.now.h S G face.0 }
{
    was_kept(front.hierarchy(), marks, face) && !front.is_kept(face)
}

/// Whether a node was active and isn't.
pub(crate) fn is_gone_node(front: &Front, marks: &[bool], node: NodeId) -> bool
    requires node { node.0 < node_count front.now.h }
    requires told { AreMarksOf front.now.h marks.now }
    ensures { let S = set_of marks.now in let G = set_of front.now.flags in
        result ≡ is_gone_node front.now.h S G node.0 }
{
    was_active(front.hierarchy(), marks, node) && !front.is_active(node)
}

/// Whether a node is active and wasn't.
pub(crate) fn is_new_node(front: &Front, marks: &[bool], node: NodeId) -> bool
    requires node { node.0 < node_count front.now.h }
    requires told { AreMarksOf front.now.h marks.now }
    ensures { let S = set_of marks.now in let G = set_of front.now.flags in
        result ≡ is_new_node front.now.h S G node.0 }
{
    front.is_active(node) && !was_active(front.hierarchy(), marks, node)
}
