//! Gathers what is gone and the nodes that are new, from the records that differ.
ghost use Rattle.std.specs.Prelude.{◌≡◌, ◌+◌, ◌*◌, ◌<◌, ◌≤◌, true, length, slice_set};
ghost use Rattle.std.specs.Prelude.{if◌then◌else◌};
ghost use Rattle.pm_base.specs.Counts.{count, set_of};
ghost use Rattle.pm_forest.specs.Forest.{node_count, record_count};
ghost use Rattle.pm_forest.specs.Faces.{face_count};
ghost use Rattle.pm_beyond.specs.Plans.{differs};
ghost use Rattle.pm_morph.specs.Marks.{AreMarksOf};
ghost use Rattle.pm_change.specs.Changes.{is_gone_node, is_gone_face, is_new_node};
ghost use Rattle.pm_change.specs.Gathering.{Gathers, AreJust, HasNodesOf, HasFacesOf, HaveRoomFor};
ghost use Rattle.pm_change.specs.Gathering.{HaveGathered, HaveSeen, AreEmptySets};

use crate::before;
use crate::faces::{first_face, new_faces};
use crate::sets::ChangeSets;
use pm_base::{FaceId, NodeId};
use pm_front::Front;
use pm_sets::NumberSet;
use pm_view::Steps;
use std::sync::ledger::Ledger;

// Puts a number in a set where it passes.
fn gather(set: &mut NumberSet, number: u32, passes: bool)
    requires { number < length set.old }
    ensures { set.new ≡ if passes then slice_set set.old number true else set.old }
{
    if passes {
        set.insert(number);
    }
}

// Looks at a node, which may be gone or new.
#[tactic(auto, using(crate::proofs::GatherLaws::gathered, crate::proofs::GatherLaws::is_gathered))]
fn see_node<L: Ledger>(
    front: &Front,
    marks: &[bool],
    node: NodeId,
    gone: &mut NumberSet,
    new: &mut NumberSet,
    steps: &mut Steps<L>,
)
    requires node { node.0 < node_count front.now.h }
    requires told { AreMarksOf front.now.h marks.now }
    requires gone_len { length gone.old ≡ node_count front.now.h }
    requires new_len { length new.old ≡ node_count front.now.h }
    ensures gone { let S = set_of marks.now in let G = set_of front.now.flags in
        Gathers (is_gone_node front.now.h S G) gone.old gone.new }
    ensures new { let S = set_of marks.now in let G = set_of front.now.flags in
        Gathers (is_new_node front.now.h S G) new.old new.new }
    ensures gone_seen { let S = set_of marks.now in let G = set_of front.now.flags in
        is_gone_node front.now.h S G node.0 ≡ true → set_of gone.new node.0 ≡ true }
    ensures new_seen { let S = set_of marks.now in let G = set_of front.now.flags in
        is_new_node front.now.h S G node.0 ≡ true → set_of new.new node.0 ≡ true }
    ensures cost { steps.new ≡ steps.old + 1 }
{
    steps.tick();
    gather(gone, node.0, before::is_gone_node(front, marks, node));
    gather(new, node.0, before::is_new_node(front, marks, node));
}

// Looks at the node that a record splits, and at both children.
fn see_nodes<L: Ledger>(
    front: &Front,
    marks: &[bool],
    k: u32,
    gone: &mut NumberSet,
    new: &mut NumberSet,
    steps: &mut Steps<L>,
)
    requires record { k < record_count front.now.h }
    requires told { AreMarksOf front.now.h marks.now }
    requires gone_len { length gone.old ≡ node_count front.now.h }
    requires new_len { length new.old ≡ node_count front.now.h }
    ensures gone { let S = set_of marks.now in let G = set_of front.now.flags in
        Gathers (is_gone_node front.now.h S G) gone.old gone.new }
    ensures new { let S = set_of marks.now in let G = set_of front.now.flags in
        Gathers (is_new_node front.now.h S G) new.old new.new }
    ensures gone_seen { let S = set_of marks.now in let G = set_of front.now.flags in
        HasNodesOf front.now.h (is_gone_node front.now.h S G) k gone.new }
    ensures new_seen { let S = set_of marks.now in let G = set_of front.now.flags in
        HasNodesOf front.now.h (is_new_node front.now.h S G) k new.new }
    ensures cost { steps.new ≡ steps.old + 3 }
{
    let (t, u) = front.hierarchy().children(k);
    see_node(front, marks, front.split_node(k), gone, new, steps);
    see_node(front, marks, t, gone, new, steps);
    see_node(front, marks, u, gone, new, steps);
}

// Looks at the faces of a record, which may be gone.
fn see_faces<L: Ledger>(
    front: &Front,
    marks: &[bool],
    k: u32,
    gone: &mut NumberSet,
    steps: &mut Steps<L>,
)
    requires record { k < record_count front.now.h }
    requires told { AreMarksOf front.now.h marks.now }
    requires len { length gone.old ≡ face_count front.now.h }
    ensures gone { let S = set_of marks.now in let G = set_of front.now.flags in
        Gathers (is_gone_face front.now.h S G) gone.old gone.new }
    ensures seen { let S = set_of marks.now in let G = set_of front.now.flags in
        HasFacesOf front.now.h (is_gone_face front.now.h S G) k gone.new }
    ensures cost { steps.new ≤ steps.old + 23 }
{
    front.invariant();
    let h = front.hierarchy();
    let first = first_face(h, k, steps);
    for face in first..first + new_faces(h.record_at(k)) {
        steps.tick();
        gather(gone, face, before::is_gone_face(front, marks, FaceId(face)));
    }
}

// Looks at the nodes of a record that differs, and at its faces if it isn't split.
fn see_record<L: Ledger>(
    front: &Front,
    marks: &[bool],
    k: u32,
    sets: &mut ChangeSets,
    steps: &mut Steps<L>,
)
    requires record { k < record_count front.now.h }
    requires told { AreMarksOf front.now.h marks.now }
    requires room { HaveRoomFor front.now.h sets.old }
    ensures room { HaveRoomFor front.now.h sets.new }
    ensures gathered { let S = set_of marks.now in let G = set_of front.now.flags in
        HaveGathered front.now.h S G sets.old sets.new }
    ensures seen { let S = set_of marks.now in let G = set_of front.now.flags in
        HaveSeen front.now.h S G k sets.new }
    ensures cost { steps.new ≤ steps.old + 26 }
{
    front.invariant();
    see_nodes(
        front,
        marks,
        k,
        &mut sets.gone_nodes,
        &mut sets.new_nodes,
        steps,
    );
    if !front.is_split(k) {
        see_faces(front, marks, k, &mut sets.gone_faces, steps);
    }
}

// Whether a record is split in one of the two fronts and not in the other.
fn differs(front: &Front, marks: &[bool], k: u32) -> bool
    requires record { k < record_count front.now.h }
    requires marks { length marks.now ≡ record_count front.now.h }
    ensures { result ≡ differs (set_of marks.now) (set_of front.now.flags) k }
{
    marks[k as usize] != front.is_split(k)
}

/// Gathers the faces and the nodes that are gone, and the nodes that are new: only a record that
/// is split in one of the two fronts and not in the other makes or splits such a node, and reveals
/// such a face.
pub(crate) fn gather_gone_and_new<L: Ledger>(
    front: &Front,
    marks: &[bool],
    sets: &mut ChangeSets,
    steps: &mut Steps<L>,
)
    requires told { AreMarksOf front.now.h marks.now }
    requires room { HaveRoomFor front.now.h sets.old }
    requires empty { AreEmptySets sets.old }
    ensures gone_faces { let S = set_of marks.now in let G = set_of front.now.flags in
        AreJust (is_gone_face front.now.h S G) (face_count front.now.h) sets.new.gone_faces }
    ensures gone_nodes { let S = set_of marks.now in let G = set_of front.now.flags in
        AreJust (is_gone_node front.now.h S G) (node_count front.now.h) sets.new.gone_nodes }
    ensures new_nodes { let S = set_of marks.now in let G = set_of front.now.flags in
        AreJust (is_new_node front.now.h S G) (node_count front.now.h) sets.new.new_nodes }
    ensures puts { sets.new.put_faces ≡ sets.old.put_faces }
    ensures cost { let R = record_count front.now.h in steps.new ≤ steps.old + R
        + 26 * count (differs (set_of marks.now) (set_of front.now.flags)) R }
{
    front.invariant();
    for k in 0..front.hierarchy().records() {
        steps.tick();
        if differs(front, marks, k) {
            see_record(front, marks, k, sets, steps);
        }
    }
}
