//! Which records are in the target of a view, and which moves lead there, from the last record
//! down: over those that were found, and what a record needs that a move is made of.
ghost use Rattle.std.specs.Prelude.{ℕ, ◌≡◌, ◌+◌, ◌<◌, ◌≤◌, length, true, false};
ghost use Rattle.std.specs.Prelude.{slice_set};
ghost use Rattle.pm_base.specs.Counts.{count, one_if, set_of};
ghost use Rattle.pm_sets.specs.Sets.{IsEmptySet};
ghost use Rattle.pm_forest.specs.Forest.{record_count};
ghost use Rattle.pm_beyond.specs.Moves.{needs};
ghost use Rattle.pm_refine.specs.Aims.{IsServed, HoldsAimed, aim_of, is_moved, is_used, sets_of};
ghost use Rattle.pm_refine.specs.Holding.{Joins};
ghost use Rattle.pm_refine.specs.Finding.{IsStartOfPlan};
ghost use Rattle.pm_refine.specs.Deciding.{AreDecided, IsNext, is_staying, is_tested};
ghost use Rattle.pm_candidates.specs.Needed.{is_needed, remaining, AreNeedsOf};
ghost use Rattle.pm_candidates.specs.Needed.{AreNeedCounts};

use crate::marks::mark_all;
use crate::needs::push_all;
use crate::plan::Plan;
use crate::sight::Sight;
use pm_forest::Hierarchy;
use pm_front::{CountedRecords, Front};
use pm_view::Steps;
use std::sync::ledger::Ledger;

// Whether a split record needs record `k` that won't be collapsed: the split records need it more
// often than those of them that will be.
fn is_still_needed(front: &Front, collapses: &CountedRecords, k: u32) -> bool
    requires record { k < record_count front.now.h }
    requires split { (j : ℕ) → set_of collapses.now.records j ≡ true
        → set_of front.now.flags j ≡ true }
    requires counts { AreNeedCounts front.now.h (set_of collapses.now.records) collapses.now.needs }
    ensures { result ≡ is_needed front.now.h
        (remaining (set_of front.now.flags) (set_of collapses.now.records)) k }
{
    collapses.need_count(k) != front.need_count(k)
}

impl Plan {
    // Whether a record that is to be decided is in the target. Only a split record that nothing
    // needs has to be tested.
    fn stays<L: Ledger>(&self, sight: &Sight, k: u32, steps: &mut Steps<L>) -> bool
        requires measures { IsServed sight.now }
        requires record { k < record_count sight.now.front.now.h }
        requires marks { length self.now.marks.items ≡ record_count sight.now.front.now.h }
        requires split { (j : ℕ) → set_of self.now.collapses.records j ≡ true
            → set_of sight.now.front.now.flags j ≡ true }
        requires counts { AreNeedCounts sight.now.front.now.h (set_of self.now.collapses.records)
            self.now.collapses.needs }
        ensures value { result ≡ is_staying (aim_of sight.now) (sets_of self.now) k }
        ensures cost { let test = is_tested (aim_of sight.now) (sets_of self.now) k in
            steps.new ≤ steps.old + one_if test }
    {
        if !sight.front.is_split(k) {
            return true;
        }
        if self.marks[k as usize] {
            return true;
        }
        if is_still_needed(sight.front, &self.collapses, k) {
            return true;
        }
        let node = sight.front.split_node(k);
        sight.wants(k, node, steps)
    }

    // What a record needs is to be decided too. A record that goes is put in the one set; one that
    // will be split is put in the other, and what it needs is marked.
    fn note(&mut self, h: &Hierarchy, needed: &[Option<u32>], k: u32, is_split: bool)
        requires record { k < record_count h.now }
        requires needed { AreNeedsOf h.now k needed.now }
        requires marks { length self.old.marks.items ≡ record_count h.now }
        requires work { length self.old.work ≡ record_count h.now }
        requires splits { length self.old.splits ≡ record_count h.now }
        requires collapses { length self.old.collapses.records ≡ record_count h.now }
        requires absent { set_of self.old.collapses.records k ≡ false }
        requires counts { AreNeedCounts h.now (set_of self.old.collapses.records)
            self.old.collapses.needs }
        ensures len { length self.new.marks.items ≡ length self.old.marks.items }
        ensures work_len { length self.new.work ≡ length self.old.work }
        ensures work { Joins (set_of self.old.work) (set_of self.new.work) (needs h.now k) }
        ensures counts { AreNeedCounts h.now (set_of self.new.collapses.records)
            self.new.collapses.needs }
        ensures goes { is_split ≡ true → (self.new.marks.items ≡ self.old.marks.items)
            × (self.new.splits ≡ self.old.splits)
            × (self.new.collapses.records ≡ slice_set self.old.collapses.records k true) }
        ensures comes { is_split ≡ false
            → Joins (set_of self.old.marks.items) (set_of self.new.marks.items) (needs h.now k)
            × (self.new.splits ≡ slice_set self.old.splits k true)
            × (self.new.collapses.records ≡ self.old.collapses.records) }
    {
        push_all(&mut self.work, needed);
        if is_split {
            self.collapses.insert(h, needed, k);
        } else {
            self.splits.insert(k);
            mark_all(&mut self.marks, needed);
        }
    }

    // Decides a record, where all greater ones are decided, and says whether a move is made of it.
    fn decide<L: Ledger>(&mut self, sight: &Sight, k: u32, steps: &mut Steps<L>) -> bool
        requires measures { IsServed sight.now }
        requires next { IsNext (aim_of sight.now) k (sets_of self.old) }
        requires counts { AreNeedCounts sight.now.front.now.h (set_of self.old.collapses.records)
            self.old.collapses.needs }
        ensures decided { AreDecided (aim_of sight.now) k (sets_of self.new) }
        ensures counts { AreNeedCounts sight.now.front.now.h (set_of self.new.collapses.records)
            self.new.collapses.needs }
        ensures answer { result ≡ is_moved (aim_of sight.now) k }
        ensures cost { let aim = aim_of sight.now in
            steps.new ≤ steps.old + (one_if (is_used aim k) + one_if (is_moved aim k)) }
    {
        sight.invariant();
        let is_split = sight.front.is_split(k);
        let stays = self.stays(sight, k, steps);
        self.marks[k as usize] = false;
        if stays == is_split {
            return false;
        }
        let needed = sight.front.needed_by(k);
        self.note(sight.front.hierarchy(), &needed, k, is_split);
        true
    }

    /// Puts the records that will be split in the set `splits`, and those that will be collapsed in
    /// the set `collapses`, and answers how many they are. It empties the set `work`.
    pub(crate) fn decide_all<L: Ledger>(&mut self, sight: &Sight, steps: &mut Steps<L>) -> u32
        requires measures { IsServed sight.now }
        requires start { IsStartOfPlan (aim_of sight.now) self.old.work }
        requires marks { length self.old.marks.items ≡ record_count sight.now.front.now.h }
        requires clear { (j : ℕ) → set_of self.old.marks.items j ≡ false }
        requires splits { length self.old.splits ≡ record_count sight.now.front.now.h }
        requires collapses { length self.old.collapses.records
            ≡ record_count sight.now.front.now.h }
        requires no_splits { IsEmptySet self.old.splits }
        requires no_collapses { IsEmptySet self.old.collapses.records }
        requires counts { AreNeedCounts sight.now.front.now.h (set_of self.old.collapses.records)
            self.old.collapses.needs }
        ensures len { length self.new.marks.items ≡ length self.old.marks.items }
        ensures clear { (j : ℕ) → set_of self.new.marks.items j ≡ false }
        ensures work_len { length self.new.work ≡ length self.old.work }
        ensures empty { IsEmptySet self.new.work }
        ensures moves { HoldsAimed (aim_of sight.now) 0 (sets_of self.new) }
        ensures counts { AreNeedCounts sight.now.front.now.h (set_of self.new.collapses.records)
            self.new.collapses.needs }
        ensures answer { let aim = aim_of sight.now in
            result ≡ count (is_moved aim) (record_count aim.h) }
        ensures cost { let aim = aim_of sight.now in
            let n = record_count aim.h in
            steps.new ≤ steps.old + count (is_used aim) n + count (is_moved aim) n }
    {
        sight.invariant();
        let mut moves_found = 0;
        while let Some(k) = self.work.take_last() {
            if self.decide(sight, k, steps) {
                moves_found += 1;
            }
        }
        moves_found
    }
}
