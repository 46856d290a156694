//! Adapting a front to a view.
ghost use Rattle.std.specs.Prelude.{ℕ, ◌≡◌, ◌+◌, ◌*◌, ◌≤◌, length, take, IfOk};
ghost use Rattle.pm_base.specs.Counts.{count, set_of};
ghost use Rattle.pm_forest.specs.Forest.{record_count};
ghost use Rattle.pm_front.specs.Shown.{active_nodes};
ghost use Rattle.pm_front.specs.Corners.{corner_lists_after};
ghost use Rattle.pm_beyond.specs.Plans.{moved_by, differs};
ghost use Rattle.pm_view.specs.Wanted.{Serves};
ghost use Rattle.pm_refine.specs.Adapting.{view_target, view_plan, adapted_of};
ghost use Rattle.pm_refine.specs.declared.refiner.Adapted.TheVariants as answers;

use crate::OutOfMemory;
use crate::doing::{adapted, advance};
use crate::finding::find;
use crate::plan::Plan;
use crate::sight::Sight;
use pm_deviation::Measures;
use pm_forest::Hierarchy;
use pm_front::Front;
use pm_view::{Steps, View};
use std::alloc::Global;
use std::marker::Model;
use std::sync::ledger::Ledger;

/// What became of a view. `Settled`: the plan was done, in that many moves. `Spent`: the budget
/// was, and that many moves of the plan are left.
#[derive(Clone, Copy, Debug, PartialEq, Eq)]
pub enum Adapted {
    Settled { moves: u32 },
    Spent { moves: u32, left: u32 },
}

/// What adapts the fronts of a hierarchy to views: a flag and a count for each record, and three
/// sets of records. Contracts see the number of records.
#[derive(Drop)]
pub struct Refiner {
    // With no record in it between two views.
    plan: Plan,
}

impl Model for Refiner {
    ghost use Rattle.std.specs.Prelude.{ℕ, length};
    ghost use Rattle.pm_refine.specs.Aims.{sets_of};
    ghost use Rattle.pm_refine.specs.Idle.{IsIdle};

    ghost Value = { ℕ };

    ghost view = { λ r. length r.plan.marks.items };

    ghost invariant = { λ r. IsIdle (sets_of r.plan) r.plan.collapses.needs };
}

impl Refiner {
    /// Takes room for a flag and a count for each record of a hierarchy, and for three sets of its
    /// records.
    pub fn new(alloc: Global, h: &Hierarchy) -> Result<Refiner, OutOfMemory>
        ensures { IfOk result (λ r. r ≡ record_count h.now) }
    {
        let plan = Plan::new(alloc, h.records())?;
        Ok(Refiner { plan })
    }

    /// Does the first `budget` moves of the plan that leads from the front to the target of a view:
    /// the splits in ascending order, then the collapses in descending order. `Spent` comes exactly
    /// where the plan is longer than the budget. It takes no memory, and counts a step for each
    /// test of a node. It walks over the records that wait for a split and those that no split
    /// record needs, and looks at the records of the plan, and at no others but those that they
    /// need or that split their children; each search in a set passes over the blocks of 64 and
    /// of 4,096 records that have none.
    pub fn adapt<L: Ledger>(
        &mut self,
        front: &mut Front,
        measures: &Measures,
        view: &View,
        budget: u32,
        steps: &mut Steps<L>,
    ) -> Adapted
        requires records { self.old ≡ record_count front.old.h }
        requires measures { Serves front.old.h view.now measures.now }
        ensures refiner { self.new ≡ self.old }
        ensures hierarchy { front.new.h ≡ front.old.h }
        ensures moved { set_of front.new.flags
            ≡ moved_by (set_of front.old.flags)
            (take budget (view_plan front.old.h (set_of front.old.flags) view.now)) }
        ensures corners { let S = set_of front.old.flags in front.new.corners
            ≡ corner_lists_after front.old.h S (take budget (view_plan front.old.h S view.now))
            front.old.corners }
        ensures answer { result
            ≡ adapted_of budget (length (view_plan front.old.h (set_of front.old.flags) view.now)) }
        ensures settled { (moves : ℕ) → result ≡ answers.Settled moves
            → (set_of front.new.flags ≡ view_target front.old.h view.now)
            × (moves ≡ count (differs (set_of front.old.flags) (set_of front.new.flags))
            (record_count front.old.h)) }
        ensures cost { let S = set_of front.old.flags in steps.new ≤ steps.old
            + 2 * length (active_nodes front.old.h S) + 4 * length
            (view_plan front.old.h S view.now) }
    {
        let sight = Sight {
            front: &*front,
            measures,
            view,
        };
        sight.invariant();
        find(&sight, &mut self.plan.splits, &mut self.plan.work, steps);
        let moves = self.plan.decide_all(&sight, steps);
        advance(
            front,
            &mut self.plan.splits,
            &mut self.plan.collapses,
            budget,
        );
        front.invariant();
        adapted(moves, budget)
    }
}
