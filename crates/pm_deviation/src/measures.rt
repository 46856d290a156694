//! What views judge nodes by: their bounds, and their deviations where they are asked for.
ghost use Rattle.std.specs.Prelude.{◌≡◌, ◌<◌, ◌^◌, IfOk, true, false, length, slice_index_or};
ghost use Rattle.pm_base.specs.Sides.{NoSideTwice};
ghost use Rattle.pm_beyond.specs.Walks.{leaf_net};
ghost use Rattle.pm_deviation.specs.Deviations.{AreMeasuresOf, has_deviations, deviations_in};
ghost use Rattle.pm_deviation.specs.Deviations.{border_in};

use crate::OutOfMemory;
use crate::deviations::Deviations;
use pm_base::NodeId;
use pm_bounds::Bounds;
use pm_forest::Hierarchy;
use std::alloc::Global;
use std::marker::Model;

/// The bounds of all nodes of a hierarchy and, where they were asked for, their deviations, 8 bytes
/// a node, and whether the leaf mesh has a border. Contracts see the bounds, the list of deviations
/// by node, and that.
#[derive(Drop)]
pub struct Measures {
    bounds: Bounds,
    deviations: Option<Deviations>,
}

impl Model for Measures {
    ghost use Rattle.std.specs.Option.{option_map};
    ghost use Rattle.std.specs.Prelude.{length, IfSome};
    ghost use Rattle.pm_deviation.specs.Deviations.{Measures, AreDeviationLists};

    ghost Value = { Measures };

    ghost view = { λ m. record {
      bounds = m.bounds;
      deviations = option_map (λ ds. record {
        by_node = ds.by_node.items;
        has_border = ds.has_border;
      }) m.deviations;
    } };

    ghost invariant = { λ m. IfSome m.deviations
        (λ ds. AreDeviationLists (length m.bounds.errors) ds.by_node.items) };
}

impl Measures {
    /// The bounds alone.
    pub fn of(alloc: Global, h: &Hierarchy) -> Result<Measures, OutOfMemory>
        ensures are { IfOk result (AreMeasuresOf h.now) }
        ensures none { IfOk result (λ m. has_deviations m ≡ false) }
    {
        let bounds = Bounds::of(alloc, h)?;
        Ok(Measures {
            bounds,
            deviations: None,
        })
    }

    /// The bounds and the deviations, in time and memory linear in nodes and faces. No directed
    /// side may stand twice in the leaf mesh, as in that of a valid hierarchy.
    pub fn with_deviations(alloc: Global, h: &Hierarchy) -> Result<Measures, OutOfMemory>
        requires { NoSideTwice (leaf_net h.now) }
        ensures are { IfOk result (AreMeasuresOf h.now) }
        ensures some { IfOk result (λ m. has_deviations m ≡ true) }
    {
        let bounds = Bounds::of(alloc, h)?;
        let deviations = Deviations::of(alloc, h, &bounds)?;
        Ok(Measures {
            bounds,
            deviations: Some(deviations),
        })
    }

    /// The bounds of the nodes.
    pub fn bounds(&self) -> &Bounds
        ensures { result.now ≡ self.now.bounds }
    {
        &self.bounds
    }

    /// Whether deviations are there.
    pub fn has_deviations(&self) -> bool
        ensures { result ≡ has_deviations self.now }
    {
        self.deviations.is_some()
    }

    /// The node's deviation, which is at most its error.
    pub fn deviation(&self, node: NodeId) -> u64
        requires there { has_deviations self.now ≡ true }
        requires node { node.0 < length self.now.bounds.errors }
        ensures value { result ≡ slice_index_or (deviations_in self.now.deviations) node.0 0 }
        ensures small { result < 2 ^ 38 }
    {
        match &self.deviations {
            Some(deviations) => deviations.by_node[node.0 as usize],
            None => 0,
        }
    }

    /// Whether the leaf mesh has a side without a twin, so that its faces are seen from both sides.
    pub fn has_border(&self) -> bool
        requires { has_deviations self.now ≡ true }
        ensures { result ≡ border_in self.now.deviations }
    {
        match &self.deviations {
            Some(deviations) => deviations.has_border,
            None => false,
        }
    }
}
