//! A set of records, with how often they need each record.
ghost use Rattle.std.specs.Prelude.{◌≡◌, ◌<◌, ◌≤◌, true, false, length, replicate};
ghost use Rattle.std.specs.Prelude.{slice_index_or, slice_set, IfOk, IfSome, IfNone};
ghost use Rattle.pm_sets.specs.Sets.{IsEmptySet, IsLast};
ghost use Rattle.pm_sets.specs.declared.set.TheConstants.{BOUND_LIMIT};
ghost use Rattle.pm_forest.specs.Forest.{record_count};
ghost use Rattle.pm_base.specs.Counts.{set_of};
ghost use Rattle.pm_candidates.specs.Needed.{AreNeedsOf, AreNeedCounts};

use crate::{Front, OutOfMemory};
use pm_candidates::{NeedCounts, lower_all, raise_all};
use pm_forest::Hierarchy;
use pm_sets::NumberSet;
use std::alloc::Global;
use std::marker::Model;

/// A set of records, with the counts of what they need. The counts are those of the set in the
/// hierarchy that each call is handed; they are all 0 where the set is empty. Contracts see a flag
/// for each record, and the counts.
#[derive(Drop)]
pub struct CountedRecords {
    records: NumberSet,
    needs: NeedCounts,
}

impl Model for CountedRecords {
    ghost use Rattle.pm_front.specs.Counted.{CountedRecords};

    ghost Value = { CountedRecords };

    ghost view = { λ c. record { records = c.records; needs = c.needs } };
}

impl CountedRecords {
    /// No records. The only call that takes memory.
    pub fn new(alloc: Global, records: u32) -> Result<CountedRecords, OutOfMemory>
        requires { records ≤ BOUND_LIMIT }
        ensures records { IfOk result (λ f. f.records ≡ replicate records false) }
        ensures needs { IfOk result (λ f. f.needs ≡ replicate records 0) }
    {
        let set = NumberSet::new(alloc, records)?;
        let needs = NeedCounts::new(alloc, records)?;
        Ok(CountedRecords {
            records: set,
            needs,
        })
    }

    /// How often the records need record `k`: once for each reason. O(1).
    pub fn need_count(&self, k: u32) -> u32
        requires { k < length self.now.needs }
        ensures { result ≡ slice_index_or self.now.needs k 0 }
    {
        self.needs.count(k)
    }

    /// Puts a record in that isn't there, and that needs these. O(1).
    pub fn insert(&mut self, h: &Hierarchy, needed: &[Option<u32>], k: u32)
        requires record { k < record_count h.now }
        requires needed { AreNeedsOf h.now k needed.now }
        requires len { length self.old.records ≡ record_count h.now }
        requires absent { set_of self.old.records k ≡ false }
        requires counts { AreNeedCounts h.now (set_of self.old.records) self.old.needs }
        ensures put { self.new.records ≡ slice_set self.old.records k true }
        ensures counts { AreNeedCounts h.now (set_of self.new.records) self.new.needs }
    {
        h.invariant();
        raise_all(&mut self.needs, needed);
        self.records.insert(k);
    }

    /// The last of the records, which is taken out. They are records of the hierarchy of a front.
    pub fn take_last(&mut self, front: &Front) -> Option<u32>
        requires len { length self.old.records ≡ record_count front.now.h }
        requires counts { AreNeedCounts front.now.h (set_of self.old.records) self.old.needs }
        ensures some { IfSome result (IsLast self.old.records (length self.old.records)) }
        ensures taken { IfSome result (λ k. self.new.records ≡ slice_set self.old.records k false) }
        ensures none { IfNone result (IsEmptySet self.old.records) }
        ensures unchanged { IfNone result (self.new.records ≡ self.old.records) }
        ensures counts { AreNeedCounts front.now.h (set_of self.new.records) self.new.needs }
    {
        let k = self.records.take_last()?;
        lower_all(&mut self.needs, &front.needed_by(k));
        Some(k)
    }
}
