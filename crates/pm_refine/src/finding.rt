//! Records that aren't split and whose nodes are wanted are found from those that wait for a split,
//! since a wanted node has a wanted parent. Records that may go are among those that no split
//! record needs.
ghost use Rattle.std.specs.Prelude.{◌≡◌, ◌+◌, ◌*◌, ◌<◌, ◌≤◌, length};
ghost use Rattle.pm_base.specs.Counts.{count, set_of};
ghost use Rattle.pm_sets.specs.Sets.{IsEmptySet};
ghost use Rattle.pm_forest.specs.Forest.{record_count, node_count};
ghost use Rattle.pm_forest.specs.Moves.{may_try};
ghost use Rattle.pm_candidates.specs.Needed.{is_unneeded};
ghost use Rattle.pm_refine.specs.Aims.{IsServed, aim_of};
ghost use Rattle.pm_refine.specs.Holding.{Joins, HoldsBelow, leads_to, leads_below};
ghost use Rattle.pm_refine.specs.Finding.{is_due, is_due_now, is_loose, IsStartOfPlan};

use crate::sight::Sight;
use pm_base::NodeId;
use pm_sets::NumberSet;
use pm_view::Steps;
use std::sync::ledger::Ledger;

// Puts each record in the set that waits for a split and whose node is wanted.
fn see_waiting<L: Ledger>(sight: &Sight, splits: &mut NumberSet, steps: &mut Steps<L>)
    requires measures { IsServed sight.now }
    requires splits { length splits.old ≡ record_count sight.now.front.now.h }
    requires no_splits { IsEmptySet splits.old }
    ensures seen { let aim = aim_of sight.now in
        HoldsBelow (record_count aim.h) (is_due_now aim) (record_count aim.h) splits.new }
    ensures cost { let aim = aim_of sight.now in
        steps.new ≤ steps.old + count (may_try aim.h aim.split) (record_count aim.h) }
{
    sight.invariant();
    let mut from = 0;
    while let Some(k) = sight.front.waiting().first_from(from) {
        let node = sight.front.split_node(k);
        if sight.wants(k, node, steps) {
            splits.insert(k);
        }
        from = k + 1;
    }
}

// Puts each record in the set that no split record needs and whose node isn't wanted.
fn see_unneeded<L: Ledger>(sight: &Sight, work: &mut NumberSet, steps: &mut Steps<L>)
    requires measures { IsServed sight.now }
    requires work { length work.old ≡ record_count sight.now.front.now.h }
    requires no_work { IsEmptySet work.old }
    ensures loose { let aim = aim_of sight.now in
        HoldsBelow (record_count aim.h) (is_loose aim) (record_count aim.h) work.new }
    ensures cost { let aim = aim_of sight.now in
        steps.new ≤ steps.old + count (is_unneeded aim.h aim.split) (record_count aim.h) }
{
    sight.invariant();
    let mut from = 0;
    while let Some(k) = sight.front.unneeded().first_from(from) {
        let node = sight.front.split_node(k);
        if !sight.wants(k, node, steps) {
            work.insert(k);
        }
        from = k + 1;
    }
}

// Puts the record that splits a node in the set, if one does and the node is wanted. A leaf is
// passed over without a test.
fn look<L: Ledger>(sight: &Sight, node: NodeId, splits: &mut NumberSet, steps: &mut Steps<L>)
    requires measures { IsServed sight.now }
    requires node { node.0 < node_count sight.now.front.now.h }
    requires splits { length splits.old ≡ record_count sight.now.front.now.h }
    ensures len { length splits.new ≡ length splits.old }
    ensures joined { let aim = aim_of sight.now in
        Joins (set_of splits.old) (set_of splits.new) (leads_to aim.h aim.wanted node.0) }
    ensures cost { steps.new ≤ steps.old + 1 }
{
    let h = sight.front.hierarchy();
    if let Some(k) = h.splitter(node) {
        if sight.wants(k, node, steps) {
            splits.insert(k);
        }
    }
}

// Looks at both children of a record.
fn look_below<L: Ledger>(sight: &Sight, k: u32, splits: &mut NumberSet, steps: &mut Steps<L>)
    requires measures { IsServed sight.now }
    requires record { k < record_count sight.now.front.now.h }
    requires splits { length splits.old ≡ record_count sight.now.front.now.h }
    ensures len { length splits.new ≡ length splits.old }
    ensures joined { let aim = aim_of sight.now in
        Joins (set_of splits.old) (set_of splits.new) (leads_below aim.h aim.wanted k) }
    ensures cost { steps.new ≤ steps.old + 2 }
{
    let h = sight.front.hierarchy();
    let (t, u) = h.children(k);
    look(sight, t, splits, steps);
    look(sight, u, splits, steps);
}

/// Finds the records that aren't split and whose nodes are wanted, and the records that may go, and
/// puts them in the set `work`. It uses the set `splits`. It tests the node of each record that
/// waits for a split and of each that no split record needs once, and each child of what it finds
/// once at most.
pub(crate) fn find<L: Ledger>(
    sight: &Sight,
    splits: &mut NumberSet,
    work: &mut NumberSet,
    steps: &mut Steps<L>,
)
    requires measures { IsServed sight.now }
    requires splits { length splits.old ≡ record_count sight.now.front.now.h }
    requires work { length work.old ≡ record_count sight.now.front.now.h }
    requires no_splits { IsEmptySet splits.old }
    requires no_work { IsEmptySet work.old }
    ensures len { length splits.new ≡ length splits.old }
    ensures empty { IsEmptySet splits.new }
    ensures start { IsStartOfPlan (aim_of sight.now) work.new }
    ensures cost { let aim = aim_of sight.now in
        let n = record_count aim.h in
        steps.new ≤ steps.old + count (may_try aim.h aim.split) n
        + count (is_unneeded aim.h aim.split) n + 2 * count (is_due aim) n }
{
    sight.invariant();
    see_waiting(sight, splits, steps);
    see_unneeded(sight, work, steps);
    let mut from = 0;
    while let Some(k) = splits.first_from(from) {
        splits.remove(k);
        work.insert(k);
        look_below(sight, k, splits, steps);
        from = k + 1;
    }
}
