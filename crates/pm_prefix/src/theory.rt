//! The laws of first records.
ghost use Rattle.pm_prefix.specs.Laws.{
  FirstRecordsHaveShape,
  FirstRecordsShowTheSame,
  LeavesKeepAncestors,
  FirstRecordsAreOfTheWhole,
};

/// States the laws of first records, which hold for every hierarchy of the right shape. It does
/// nothing, and callers cite its clauses.
pub fn first_records_are_sound()
    ensures shape { FirstRecordsHaveShape }
    ensures frames { FirstRecordsShowTheSame }
    ensures ancestors { LeavesKeepAncestors }
    ensures whole { FirstRecordsAreOfTheWhole }
{}
