//! Lowering goes from the full front of a hierarchy down to its base front, and looks at each
//! record's neighbours on the way. It keeps nothing of a front but what stands beyond the sides.
ghost use Rattle.std.specs.Prelude.{ℕ, ◌≡◌, ◌-◌, ◌<◌, ◌≤◌, OnOk, OnErr, IfOk, IfErr, replicate};
ghost use Rattle.std.specs.Prelude.{false};
ghost use Rattle.pm_base.specs.Sides.{NoSideTwice};
ghost use Rattle.pm_twins.specs.Table.{IsTableOf};
ghost use Rattle.pm_forest.specs.Forest.{record_count, leaf_count};
ghost use Rattle.pm_forest.specs.Fronts.{no_records};
ghost use Rattle.pm_forest.specs.Rules.{HasShape};
ghost use Rattle.pm_beyond.specs.Walks.{leaf_net};
ghost use Rattle.pm_beyond.specs.Valid.{IsAsTold};
ghost use Rattle.pm_sides.specs.Stored.{AreStored};

use crate::OutOfMemory;
use crate::indexed::IndexedHierarchy;
use crate::table::SideTable;
use pm_forest::Hierarchy;
use pm_twins::Twins;
use std::alloc::Global;
use std::marker::Model;

/// A record that isn't as told: something else stands beyond a side of its faces than it tells.
#[derive(Clone, Copy, Debug, PartialEq, Eq)]
pub struct BadNeighbour(pub u32);

/// A hierarchy that is being lowered: the records below `left` are split, and all others are as
/// told. Contracts see the hierarchy and `left`.
#[derive(Drop)]
pub struct Lowering {
    indexed: IndexedHierarchy,
    split: Vec<bool>,
    table: SideTable,
    left: u32,
}

impl Model for Lowering {
    ghost use Rattle.pm_sides.specs.Lowering.{Lowered, IsLowering};

    ghost Value = { Lowered };

    ghost view = { λ o. record { h = o.indexed; left = o.left } };

    ghost invariant = { λ o. IsLowering o.indexed o.split.items o.table o.left };
}

impl Lowering {
    /// The full front: every record is split. It takes all memory that the lowering will use: nine
    /// bytes for each record and a byte for each face. What stands beyond the sides is kept in the
    /// twins' table, which is taken over.
    pub fn full(alloc: Global, h: Hierarchy, twins: Twins) -> Result<Lowering, OutOfMemory>
        requires { IsTableOf (leaf_net h) (leaf_count h) twins }
        ensures { IfOk result (λ o. o ≡ record { h = h; left = record_count h }) }
    {
        h.invariant();
        let left = h.records();
        let table = SideTable::full(&h, twins);
        let split = vec![in alloc; true; left as usize]?;
        let indexed = IndexedHierarchy::new(alloc, h)?;
        Ok(Lowering {
            indexed,
            split,
            table,
            left,
        })
    }

    /// The hierarchy has the right shape, no directed side stands twice in its leaf mesh, at most
    /// all records are split, and all from `left` on are as told.
    pub fn invariant(&self)
        ensures shape { HasShape self.now.h }
        ensures once { NoSideTwice (leaf_net self.now.h) }
        ensures most { self.now.left ≤ record_count self.now.h }
        ensures rules { (k : ℕ) → self.now.left ≤ k → k < record_count self.now.h
            → IsAsTold self.now.h k }
    {
        let _ = &self.split;
    }

    /// How many records are still split. They are the first ones.
    pub fn left(&self) -> u32
        ensures value { result ≡ self.now.left }
        ensures most { result ≤ record_count self.now.h }
    {
        self.left
    }

    /// Collapses the greatest split record, where that is as told: beyond the sides of its faces
    /// stands what it tells. O(1).
    pub fn lower(&mut self) -> Result<(), BadNeighbour>
        requires { 0 < self.old.left }
        ensures ok { OnOk result (self.new ≡ record { h = self.old.h; left = self.old.left - 1 }) }
        ensures good { OnOk result (IsAsTold self.old.h (self.old.left - 1)) }
        ensures bad { IfErr result (λ b. (b.0 ≡ self.old.left - 1)
            × (IsAsTold self.old.h b.0 → ⊥)) }
        ensures refused { OnErr result (self.new ≡ self.old) }
    {
        let k = self.left - 1;
        if !self.table.tells_all(&self.indexed, &self.split, k) {
            return Err(BadNeighbour(k));
        }
        self.table.link_over(&self.indexed, &self.split, k);
        self.split[k as usize] = false;
        self.left = k;
        Ok(())
    }

    /// The indexed hierarchy, the records' flags and the table of the sides, once no record is
    /// split.
    pub fn into_parts(self) -> (IndexedHierarchy, Vec<bool>, SideTable)
        requires { self.left ≡ 0 }
        ensures h { result.0 ≡ self.h }
        ensures flags { result.1.items ≡ replicate (record_count self.h) false }
        ensures stored { AreStored self.h no_records result.2 }
    {
        (self.indexed, self.split, self.table)
    }

    /// The hierarchy.
    pub fn into_hierarchy(self) -> Hierarchy
        ensures { result ≡ self.h }
    {
        self.indexed.into_hierarchy()
    }
}
