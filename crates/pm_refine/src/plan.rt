//! The sets in which the plan of a view is found.
ghost use Rattle.std.specs.Prelude.{◌≡◌, ◌≤◌, false, replicate, IfOk};
ghost use Rattle.pm_sets.specs.declared.set.TheConstants.{BOUND_LIMIT};

use crate::OutOfMemory;
use pm_front::CountedRecords;
use pm_sets::NumberSet;
use std::alloc::Global;

/// Which moves a view is to make, with the records of which that isn't known yet.
#[derive(Drop)]
pub(crate) struct Plan {
    // Set where a record that will be split needs the record, while it is still to be decided.
    pub(crate) marks: Vec<bool>,
    // The records that are still to be decided.
    pub(crate) work: NumberSet,
    // The records that will be split.
    pub(crate) splits: NumberSet,
    // The records that will be collapsed, with the counts of what they need.
    pub(crate) collapses: CountedRecords,
}

impl Plan {
    /// No records. The only call that takes memory.
    pub(crate) fn new(alloc: Global, records: u32) -> Result<Plan, OutOfMemory>
        requires { records ≤ BOUND_LIMIT }
        ensures marks { IfOk result (λ p. p.marks.items ≡ replicate records false) }
        ensures work { IfOk result (λ p. p.work ≡ replicate records false) }
        ensures splits { IfOk result (λ p. p.splits ≡ replicate records false) }
        ensures collapses { IfOk result (λ p. p.collapses.records ≡ replicate records false) }
        ensures needs { IfOk result (λ p. p.collapses.needs ≡ replicate records 0) }
    {
        let marks = vec![in alloc; false; records as usize]?;
        let work = NumberSet::new(alloc, records)?;
        let splits = NumberSet::new(alloc, records)?;
        let collapses = CountedRecords::new(alloc, records)?;
        Ok(Plan {
            marks,
            work,
            splits,
            collapses,
        })
    }
}
