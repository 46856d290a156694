//! A hierarchy with the first face of each record, the node that it splits, and the inner side of
//! each face: what no move changes.
ghost use Rattle.std.specs.Prelude.{◌≡◌, ◌+◌, ◌*◌, ◌<◌, ◌≤◌, is_some, IfOk, Some};
ghost use Rattle.pm_base.specs.Counts.{one_if};
ghost use Rattle.pm_base.specs.Sides.{face_of};
ghost use Rattle.pm_base.specs.declared.limits.TheConstants.{MOST_FACES, MOST_SIDES};
ghost use Rattle.pm_forest.specs.Forest.{node_count, record_count, s_of};
ghost use Rattle.pm_forest.specs.Faces.{face_count, first_face, inner_of, is_left, revealed_by};
ghost use Rattle.pm_forest.specs.Rules.{HasShape};
ghost use Rattle.pm_beyond.specs.Walks.{number_of, mate_of, expected};
ghost use Rattle.pm_sides.specs.Tables.{AreFirstFaces, AreSplitNodes, AreInnerCorners};

use crate::OutOfMemory;
use crate::inner::inner_corners;
use pm_base::{FaceId, NodeId, Side};
use pm_forest::{Hierarchy, Record};
use std::alloc::Global;
use std::marker::Model;

/// A hierarchy with tables by which the sides of its records' faces are found. Contracts see the
/// hierarchy. Which side of each face is the inner one is found once, when it is indexed.
#[derive(Drop)]
pub struct IndexedHierarchy {
    hierarchy: Hierarchy,
    tables: Tables,
}

impl Model for IndexedHierarchy {
    ghost use Rattle.pm_forest.specs.Forest.{Hierarchy};
    ghost use Rattle.pm_sides.specs.Tables.{IsIndexed};

    ghost Value = { Hierarchy };

    ghost view = { λ i. i.hierarchy };

    ghost invariant = { λ i. IsIndexed i.hierarchy i.tables.first_faces.items
        i.tables.split_nodes.items i.tables.inner_corners.items };
}

// What is found of a hierarchy: the first face of each record, the node that it splits, and the
// corner at which the inner side of each face begins, which is one byte a face.
#[derive(Drop)]
struct Tables {
    first_faces: Vec<u32>,
    split_nodes: Vec<u32>,
    inner_corners: Vec<u8>,
}

impl Tables {
    fn of(alloc: Global, h: &Hierarchy) -> Result<Tables, OutOfMemory>
        ensures firsts { IfOk result
            (λ t. AreFirstFaces h.now (record_count h.now) t.first_faces.items) }
        ensures splits { IfOk result
            (λ t. AreSplitNodes h.now (record_count h.now) t.split_nodes.items) }
        ensures inners { IfOk result
            (λ t. AreInnerCorners h.now (face_count h.now) t.inner_corners.items) }
    {
        let first_faces = first_faces(alloc, h)?;
        let split_nodes = split_nodes(alloc, h)?;
        let inner_corners = inner_corners(alloc, h)?;
        Ok(Tables {
            first_faces,
            split_nodes,
            inner_corners,
        })
    }
}

// How many faces a record brings in.
fn new_faces(change: &Record) -> u32
    ensures { result ≡ one_if (is_some change.now.left) + one_if (is_some change.now.right) }
{
    u32::from(change.left.is_some()) + u32::from(change.right.is_some())
}

// The first face of each record.
#[tactic(auto, using(crate::proofs::FirstLaws::firsts_begin, crate::proofs::FirstLaws::firsts_none, crate::proofs::FirstLaws::firsts_go_on, crate::proofs::FirstLaws::next_first, crate::proofs::FirstLaws::next_few))]
fn first_faces(alloc: Global, h: &Hierarchy) -> Result<Vec<u32>, OutOfMemory>
    ensures { IfOk result (λ firsts. AreFirstFaces h.now (record_count h.now) firsts.items) }
{
    h.invariant();
    let mut firsts = Vec::with_capacity(alloc, h.records() as usize)?;
    let mut next = h.bases();
    for k in 0..h.records() {
        firsts.push(next)?;
        next += new_faces(h.record_at(k));
    }
    Ok(firsts)
}

// The node that each record splits.
#[tactic(auto, using(crate::proofs::SplitNodeLaws::splits_none, crate::proofs::SplitNodeLaws::splits_go_on, crate::proofs::SplitNodeLaws::s_is))]
fn split_nodes(alloc: Global, h: &Hierarchy) -> Result<Vec<u32>, OutOfMemory>
    ensures { IfOk result (λ nodes. AreSplitNodes h.now (record_count h.now) nodes.items) }
{
    let mut nodes = Vec::with_capacity(alloc, h.records() as usize)?;
    for k in 0..h.records() {
        nodes.push(h.record_at(k).s)?;
    }
    Ok(nodes)
}

impl IndexedHierarchy {
    /// Indexes a hierarchy: O(R + F) for R records and F faces. The only call that takes memory:
    /// two numbers for each record and a byte for each face.
    pub fn new(alloc: Global, hierarchy: Hierarchy) -> Result<IndexedHierarchy, OutOfMemory>
        ensures { IfOk result (λ i. i ≡ hierarchy) }
    {
        hierarchy.invariant();
        let tables = Tables::of(alloc, &hierarchy)?;
        Ok(IndexedHierarchy { hierarchy, tables })
    }

    /// The hierarchy has the right shape.
    pub fn invariant(&self)
        ensures { HasShape self.now }
    {
        let _ = &self.tables.first_faces;
    }

    /// The hierarchy that was indexed.
    pub fn hierarchy(&self) -> &Hierarchy
        ensures { result.now ≡ self.now }
    {
        &self.hierarchy
    }

    /// The hierarchy, without the tables.
    pub fn into_hierarchy(self) -> Hierarchy
        ensures { result ≡ self }
    {
        self.hierarchy
    }

    /// The first face of record `k`. O(1).
    #[tactic(auto, using(crate::proofs::FirstLaws::first_few))]
    pub fn first_face(&self, k: u32) -> u32
        requires { k < record_count self.now }
        ensures value { result ≡ first_face self.now k }
        ensures few { result ≤ MOST_FACES }
    {
        self.tables.first_faces[k as usize]
    }

    /// The node that record `k` splits. O(1).
    #[tactic(auto, using(crate::proofs::SplitNodeLaws::s_below))]
    pub fn split_node(&self, k: u32) -> NodeId
        requires { k < record_count self.now }
        ensures value { result.0 ≡ s_of self.now k }
        ensures there { result.0 < node_count self.now }
    {
        NodeId(self.tables.split_nodes[k as usize])
    }

    /// The first face after those of record `k`. O(1).
    #[tactic(auto, using(crate::proofs::FirstLaws::next_first, crate::proofs::FirstLaws::after_there, crate::proofs::FirstLaws::after_last))]
    pub fn face_after(&self, k: u32) -> u32
        requires { k < record_count self.now }
        ensures value { result ≡ first_face self.now (k + 1) }
        ensures there { result ≤ face_count self.now }
        ensures few { result ≤ MOST_FACES }
    {
        let records = self.hierarchy.records();
        if k + 1 < records {
            self.first_face(k + 1)
        } else {
            self.hierarchy.faces()
        }
    }

    /// The inner side of a face of record `k`. O(1).
    #[tactic(auto, using(crate::proofs::InnerLaws::inner_few, crate::proofs::InnerLaws::inner_read))]
    pub fn inner(&self, k: u32, face: FaceId) -> Side
        requires face { face.0 < face_count self.now }
        requires own { revealed_by self.now face.0 ≡ Some k }
        ensures value { result.0 ≡ inner_of self.now k face.0 }
        ensures face_is { face_of result.0 ≡ face.0 }
        ensures few { result.0 < MOST_SIDES }
    {
        face.side(u32::from(self.tables.inner_corners[face.0 as usize]))
    }

    // Whether a face of record `k` is its left face.
    #[tactic(auto, unfolding(pm_forest::specs::Faces::is_left))]
    fn is_left(&self, k: u32, face: FaceId) -> bool
        requires { k < record_count self.now }
        ensures { result ≡ is_left self.now k face.0 }
    {
        self.hierarchy.record_at(k).left.is_some() && face.0 == self.first_face(k)
    }

    // The inner side of the other face of record `k`, where it has two faces.
    #[tactic(auto, unfolding(pm_beyond::specs::Walks::mate_of), using(crate::proofs::FirstLaws::both_there, crate::proofs::FirstLaws::left_own, crate::proofs::FirstLaws::second_own))]
    fn mate(&self, k: u32, face: FaceId) -> Option<Side>
        requires record { k < record_count self.now }
        ensures { number_of result ≡ mate_of self.now k face.0 }
    {
        let change = self.hierarchy.record_at(k);
        if change.left.is_none() || change.right.is_none() {
            return None;
        }
        let first = self.first_face(k);
        let other = FaceId(if self.is_left(k, face) {
            first + 1
        } else {
            first
        });
        Some(self.inner(k, other))
    }

    /// What a record tells of a side of one of its faces: the side recorded beyond an outer side,
    /// and the inner side of its other face for an inner side. None for a side of a base face.
    /// O(1).
    #[tactic(auto, unfolding(pm_beyond::specs::Walks::expected))]
    pub fn expected(&self, side: Side) -> Option<Side>
        requires { side.0 < 3 * face_count self.now }
        ensures { number_of result ≡ expected self.now side.0 }
    {
        let face = side.face();
        let k = self.hierarchy.revealed_by(face)?;
        let inner = self.inner(k, face);
        if side == inner {
            return self.mate(k, face);
        }
        let change = self.hierarchy.record_at(k);
        let told = if self.is_left(k, face) {
            change.left
        } else {
            change.right
        };
        if side == inner.next() {
            told?.first
        } else {
            told?.second
        }
    }
}
