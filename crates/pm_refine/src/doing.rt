//! The first moves of a plan are made.
ghost use Rattle.std.specs.Prelude.{◌≡◌, ◌-◌, length, take};
ghost use Rattle.pm_sets.specs.Sets.{IsEmptySet};
ghost use Rattle.pm_forest.specs.Forest.{record_count};
ghost use Rattle.pm_base.specs.Counts.{set_of};
ghost use Rattle.pm_beyond.specs.Plans.{moved_by, AreLegal};
ghost use Rattle.pm_front.specs.Corners.{corner_lists_after};
ghost use Rattle.pm_candidates.specs.Needed.{AreNeedCounts};
ghost use Rattle.pm_refine.specs.Doing.{splits_of, collapses_of, moves_of};
ghost use Rattle.pm_refine.specs.Adapting.{adapted_of};

use crate::Adapted;
use pm_front::{CountedRecords, Front};
use pm_sets::NumberSet;

// Splits the first `budget` records of a set, in ascending order, and answers what is left of the
// budget.
fn split_first(front: &mut Front, splits: &mut NumberSet, budget: u32) -> u32
    requires splits { length splits.old ≡ record_count front.old.h }
    requires legal { AreLegal front.old.h (set_of front.old.flags)
        (take budget (splits_of splits.old)) }
    ensures hierarchy { front.new.h ≡ front.old.h }
    ensures len { length splits.new ≡ length splits.old }
    ensures left { result ≡ budget - length (splits_of splits.old) }
    ensures moved { set_of front.new.flags
        ≡ moved_by (set_of front.old.flags) (take budget (splits_of splits.old)) }
    ensures corners { front.new.corners ≡ corner_lists_after front.old.h (set_of front.old.flags)
        (take budget (splits_of splits.old)) front.old.corners }
{
    let mut left = budget;
    while left > 0 {
        let Some(k) = splits.take_first() else {
            return left;
        };
        front.split_legal(k);
        left -= 1;
    }
    left
}

// Collapses the last `budget` records of a set, in descending order.
fn collapse_last(front: &mut Front, collapses: &mut CountedRecords, budget: u32)
    requires collapses { length collapses.old.records ≡ record_count front.old.h }
    requires counts { AreNeedCounts front.old.h (set_of collapses.old.records) collapses.old.needs }
    requires legal { AreLegal front.old.h (set_of front.old.flags)
        (take budget (collapses_of collapses.old.records)) }
    ensures hierarchy { front.new.h ≡ front.old.h }
    ensures len { length collapses.new.records ≡ length collapses.old.records }
    ensures counts { AreNeedCounts front.old.h (set_of collapses.new.records) collapses.new.needs }
    ensures moved { set_of front.new.flags
        ≡ moved_by (set_of front.old.flags) (take budget (collapses_of collapses.old.records)) }
    ensures corners { front.new.corners ≡ corner_lists_after front.old.h (set_of front.old.flags)
        (take budget (collapses_of collapses.old.records)) front.old.corners }
{
    let mut left = budget;
    while left > 0 {
        let Some(k) = collapses.take_last(front) else {
            return;
        };
        front.collapse_legal(k);
        left -= 1;
    }
}

// Takes all numbers out of a set.
fn clear(numbers: &mut NumberSet)
    ensures len { length numbers.new ≡ length numbers.old }
    ensures empty { IsEmptySet numbers.new }
{
    while let Some(_k) = numbers.take_first() {}
}

// Takes all records out of a set with counts.
fn clear_counted(collapses: &mut CountedRecords, front: &Front)
    requires len { length collapses.old.records ≡ record_count front.now.h }
    requires counts { AreNeedCounts front.now.h (set_of collapses.old.records) collapses.old.needs }
    ensures len { length collapses.new.records ≡ length collapses.old.records }
    ensures empty { IsEmptySet collapses.new.records }
    ensures counts { AreNeedCounts front.now.h (set_of collapses.new.records) collapses.new.needs }
{
    while let Some(_k) = collapses.take_last(front) {}
}

/// Makes the first `budget` moves of two sets: the splits of the records of the one, and then the
/// collapses of those of the other. It empties both.
pub(crate) fn advance(
    front: &mut Front,
    splits: &mut NumberSet,
    collapses: &mut CountedRecords,
    budget: u32,
)
    requires splits { length splits.old ≡ record_count front.old.h }
    requires collapses { length collapses.old.records ≡ record_count front.old.h }
    requires legal { AreLegal front.old.h (set_of front.old.flags)
        (moves_of splits.old collapses.old.records) }
    requires counts { AreNeedCounts front.old.h (set_of collapses.old.records) collapses.old.needs }
    ensures hierarchy { front.new.h ≡ front.old.h }
    ensures splits_len { length splits.new ≡ length splits.old }
    ensures collapses_len { length collapses.new.records ≡ length collapses.old.records }
    ensures no_splits { IsEmptySet splits.new }
    ensures no_collapses { IsEmptySet collapses.new.records }
    ensures counts { AreNeedCounts front.old.h (set_of collapses.new.records) collapses.new.needs }
    ensures moved { set_of front.new.flags ≡ moved_by (set_of front.old.flags)
        (take budget (moves_of splits.old collapses.old.records)) }
    ensures corners { front.new.corners ≡ corner_lists_after front.old.h (set_of front.old.flags)
        (take budget (moves_of splits.old collapses.old.records)) front.old.corners }
{
    let left = split_first(front, splits, budget);
    collapse_last(front, collapses, left);
    clear(splits);
    clear_counted(collapses, front);
}

/// What is told of this many moves.
pub(crate) fn adapted(moves: u32, budget: u32) -> Adapted
    ensures { result ≡ adapted_of budget moves }
{
    if moves <= budget {
        Adapted::Settled { moves }
    } else {
        Adapted::Spent {
            moves: budget,
            left: moves - budget,
        }
    }
}
