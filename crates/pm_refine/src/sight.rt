//! A front as a view sees it.
ghost use Rattle.std.specs.Prelude.{◌≡◌, ◌+◌, ◌<◌};
ghost use Rattle.pm_forest.specs.Forest.{record_count, s_of};
ghost use Rattle.pm_refine.specs.Aims.{IsFit, IsServed, aim_of};

use pm_base::NodeId;
use pm_deviation::Measures;
use pm_front::Front;
use pm_view::{Steps, View, wants_split};
use std::sync::ledger::Ledger;

/// A front, the view that it is to be adapted to, and the measures of nodes that the view goes by.
#[derive(Clone, Copy)]
pub(crate) struct Sight<'a> {
    pub(crate) front: &'a Front,
    pub(crate) measures: &'a Measures,
    pub(crate) view: &'a View,
}

impl Sight<'_> {
    /// The hierarchy is valid, and the split records are a closed set.
    pub(crate) fn invariant(&self)
        ensures { IsFit (aim_of self.now) }
    {
        self.front.invariant();
    }

    /// Whether the view wants the node that record `k` splits. It counts a step.
    pub(crate) fn wants<L: Ledger>(&self, k: u32, node: NodeId, steps: &mut Steps<L>) -> bool
        requires measures { IsServed self.now }
        requires record { k < record_count self.now.front.now.h }
        requires node { node.0 ≡ s_of self.now.front.now.h k }
        ensures value { let aim = aim_of self.now in result ≡ aim.wanted (s_of aim.h k) }
        ensures cost { steps.new ≡ steps.old + 1 }
    {
        let h = self.front.hierarchy();
        wants_split(h, self.measures, k, node, self.view, steps)
    }
}
