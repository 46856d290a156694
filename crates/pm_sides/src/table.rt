//! What stands beyond each side, in a table of four bytes a side. A move changes it beside the
//! recorded neighbours.
ghost use Rattle.std.specs.Prelude.{◌≡◌, ◌*◌, ◌<◌, ℕ, true, length, slice_set, IfSome, Some};
ghost use Rattle.pm_base.specs.declared.limits.TheConstants.{MOST_SIDES};
ghost use Rattle.pm_base.specs.Sides.{NoSideTwice, beside_side};
ghost use Rattle.pm_twins.specs.Table.{IsTableOf};
ghost use Rattle.pm_forest.specs.Forest.{leaf_count, record_count};
ghost use Rattle.pm_forest.specs.Fronts.{every, with, without};
ghost use Rattle.pm_base.specs.Counts.{set_of};
ghost use Rattle.pm_forest.specs.Faces.{face_count, record_of};
ghost use Rattle.pm_beyond.specs.Walks.{leaf_net, Beyond, expected, number_of};
ghost use Rattle.pm_beyond.specs.Valid.{IsValid};
ghost use Rattle.pm_beyond.specs.Moves.{IsClosed, MaySplit};
ghost use Rattle.pm_sides.specs.Stored.{AreStored, put_beside};

use crate::indexed::IndexedHierarchy;
use pm_base::{FaceId, Side, SideMap};
use pm_forest::Hierarchy;
use pm_twins::Twins;
use std::marker::Model;

/// What stands beyond each side of a hierarchy's faces in a front: four bytes a side. Contracts see
/// a list with the number of what is stored beside each side, or none.
#[derive(Drop)]
pub struct SideTable {
    sides: SideMap,
}

impl Model for SideTable {
    ghost use Rattle.std.specs.Prelude.{ℕ, List, Option};

    ghost Value = { List (Option ℕ) };

    ghost view = { λ t. t.sides };
}

impl SideTable {
    /// In the full front the twins stand beyond the sides, so their table is taken over. It takes
    /// no memory. O(1).
    pub fn full(h: &Hierarchy, twins: Twins) -> SideTable
        requires { IsTableOf (leaf_net h.now) (leaf_count h.now) twins }
        ensures { AreStored h.now every result }
    {
        h.invariant();
        SideTable {
            sides: twins.into_sides(),
        }
    }

    /// What is stored beside a side. O(1).
    #[tactic(auto, using(crate::proofs::ReadLaws::number_is))]
    pub fn beyond(&self, side: Side) -> Option<Side>
        requires { side.0 < length self.now }
        ensures { number_of result ≡ beside_side self.now side.0 }
    {
        self.sides.get(side)
    }

    // Stores another side, or none, beside a side.
    #[tactic(auto, using(crate::proofs::ReadLaws::number_is))]
    fn set(&mut self, side: Side, other: Option<Side>)
        requires there { side.0 < length self.old }
        requires small { IfSome other (λ s. s.0 < MOST_SIDES) }
        ensures { self.new ≡ slice_set self.old side.0 (number_of other) }
    {
        self.sides.set(side, other);
    }

    // Stores another side, or none, beside a side, where that is there.
    fn put_beside(&mut self, side: Option<Side>, other: Option<Side>)
        requires there { IfSome side (λ s. s.0 < length self.old) }
        requires small { IfSome other (λ s. s.0 < MOST_SIDES) }
        ensures { self.new ≡ put_beside self.old (number_of side) (number_of other) }
    {
        if let Some(side) = side {
            self.set(side, other);
        }
    }

    /// What stands beyond the sides once record `k` is split: beside each of its faces' sides is
    /// stored what stands beyond it then, and it stands beyond that side. O(1).
    pub fn link_new(&mut self, indexed: &IndexedHierarchy, split: &[bool], k: u32)
        requires record { k < record_count indexed.now }
        requires valid { IsValid indexed.now }
        requires closed { IsClosed indexed.now (set_of split.now) }
        requires may { MaySplit indexed.now (set_of split.now) k }
        requires stored { AreStored indexed.now (set_of split.now) self.old }
        ensures { AreStored indexed.now (with (set_of split.now) k) self.new }
    {
        for side in 3 * indexed.first_face(k)..3 * indexed.face_after(k) {
            if let Some(other) = self.beyond(Side(side)) {
                self.set(other, Some(Side(side)));
            }
        }
    }

    /// What stands beyond the sides once record `k`, which is as told, is collapsed: what stood
    /// beyond the two outer sides of each of its faces. O(1).
    pub fn link_over(&mut self, indexed: &IndexedHierarchy, split: &[bool], k: u32)
        requires record { k < record_count indexed.now }
        requires once { NoSideTwice (leaf_net indexed.now) }
        requires is_split { set_of split.now k ≡ true }
        requires told { (e : ℕ) → e < 3 * face_count indexed.now → record_of indexed.now e ≡ Some k
            → Beyond indexed.now (set_of split.now) e (expected indexed.now e) }
        requires stored { AreStored indexed.now (set_of split.now) self.old }
        ensures { AreStored indexed.now (without (set_of split.now) k) self.new }
    {
        indexed.invariant();
        for face in indexed.first_face(k)..indexed.face_after(k) {
            let side = indexed.inner(k, FaceId(face)).next();
            let first = self.beyond(side);
            let second = self.beyond(side.next());
            self.put_beside(first, second);
            self.put_beside(second, first);
        }
    }
}
