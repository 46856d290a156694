//! Finding the first face that a ray meets.
ghost use Rattle.std.specs.Prelude.{◌≡◌, ◌≤◌, ◌<◌, ◌+◌, ◌*◌, ◌==◌, ◌⊎◌, ℕ, IfOk, IfSome, IfNone};
ghost use Rattle.std.specs.Prelude.{length, slice_index_or, None, Some};
ghost use Rattle.pm_base.specs.Counts.{count};
ghost use Rattle.pm_base.specs.Sides.{face_of};
ghost use Rattle.pm_forest.specs.Forest.{node_count, leaf_count, interval_of};
ghost use Rattle.pm_forest.specs.Faces.{face_count, from_leaf};
ghost use Rattle.pm_bounds.specs.Bounds.{AreBoundsOf};
ghost use Rattle.pm_pick.specs.Lists.{AreListsOf};
ghost use Rattle.pm_pick.specs.Balls.{is_met};
ghost use Rattle.pm_pick.specs.Picks.{HitsFace, MissesFace, IsPick, IsFound, Beats, pick_of};
ghost use Rattle.pm_pick.specs.Walks.{IsWalked, most_tests, leaf_next, node_next};

use crate::balls::ball_met;
use crate::hits::face_hit;
use crate::lists::{list_corner, nothing};
use crate::nearest::nearer;
use crate::walk::{after, first};
use crate::{Hit, OutOfMemory, Ray};
use pm_base::{NodeId, Side};
use pm_bounds::Bounds;
use pm_forest::Hierarchy;
use pm_view::Steps;
use std::alloc::Global;
use std::marker::Model;
use std::sync::ledger::Ledger;

/// What finds the first face that a ray hits: the faces at each leaf of a hierarchy. No front is
/// asked, so a pick is the same at each.
#[derive(Drop)]
pub struct Picker {
    last: Vec<Option<u32>>,
    before: Vec<Option<u32>>,
}

impl Model for Picker {
    ghost use Rattle.pm_pick.specs.Lists.{CornerLists};

    ghost Value = { CornerLists };

    ghost view = { λ p. record { last = p.last.items; before = p.before.items } };
}

impl Picker {
    /// Lists the faces at each leaf of a hierarchy. Time and memory are linear in leaves and faces.
    pub fn new(alloc: Global, h: &Hierarchy) -> Result<Picker, OutOfMemory>
        ensures { IfOk result (λ p. AreListsOf h.now p) }
    {
        let mut last = nothing(alloc, h.leaves() as usize)?;
        let mut before = nothing(alloc, 3 * h.faces() as usize)?;
        for e in 0..3 * h.faces() {
            list_corner(h, &mut last, &mut before, e);
        }
        Ok(Picker { last, before })
    }

    // The greatest corner at a leaf.
    fn last_at(&self, leaf: u32) -> Option<u32>
        requires { leaf < length self.now.last }
        ensures { result ≡ slice_index_or self.now.last leaf None }
    {
        self.last[leaf as usize]
    }

    // The greatest lesser corner at the leaf of a corner.
    fn before(&self, e: u32) -> Option<u32>
        requires { e < length self.now.before }
        ensures { result ≡ slice_index_or self.now.before e None }
    {
        self.before[e as usize]
    }

    // Tests the faces at a leaf, one for each of their corners there.
    fn test_corners<L: Ledger>(
        &self,
        h: &Hierarchy,
        leaf: u32,
        ray: &Ray,
        best: Option<Hit>,
        steps: &mut Steps<L>,
    ) -> Option<Hit>
        requires lists { AreListsOf h.now self.now }
        requires leaf { leaf < leaf_count h.now }
        requires found { IfSome best (IsFound h.now ray.now) }
        ensures found { IfSome result (IsFound h.now ray.now) }
        ensures kept { (f s q : ℕ) → 0 < q → Beats best f s q → Beats result f s q }
        ensures here { (e s q : ℕ) → e < 3 * face_count h.now → from_leaf h.now e ≡ leaf
            → HitsFace h.now ray.now (face_of e) s q → Beats result (face_of e) s q }
        ensures cost { steps.new ≡ steps.old + count (λ e. from_leaf h.now e == leaf)
            (3 * face_count h.now) }
    {
        let mut best = best;
        let mut at = self.last_at(leaf);
        while let Some(e) = at {
            best = nearer(best, face_hit(h, Side(e).face(), ray, steps));
            at = self.before(e);
        }
        best
    }

    // Tests a node to which the walk came, and the faces at its leaf where it has but one, and
    // answers the node that is next.
    fn visit<L: Ledger>(
        &self,
        h: &Hierarchy,
        bounds: &Bounds,
        node: NodeId,
        ray: &Ray,
        best: &mut Option<Hit>,
        steps: &mut Steps<L>,
    ) -> Option<NodeId>
        requires lists { AreListsOf h.now self.now }
        requires bounds { AreBoundsOf h.now bounds.now }
        requires node { node.0 < node_count h.now }
        requires found { IfSome best.old (IsFound h.now ray.now) }
        ensures ahead { ((interval_of h.now node.0).from < leaf_next h.now result)
            ⊎ (((interval_of h.now node.0).from ≡ leaf_next h.now result)
            × (node.0 < node_next result)) }
        ensures walked { (base : ℕ) → IsWalked h.now ray.now (Some node) best.old base steps.old
            → IsWalked h.now ray.now result best.new base steps.new }
    {
        h.invariant();
        if !ball_met(h, bounds, node, ray, steps) {
            return after(h, node);
        }
        if let Some(k) = h.splitter(node) {
            return Some(h.children(k).0);
        }
        let (leaf, _) = h.interval(node);
        *best = self.test_corners(h, leaf, ray, *best, steps);
        after(h, node)
    }

    // The pick: a hit before all hits.
    fn first_met<L: Ledger>(
        &self,
        h: &Hierarchy,
        bounds: &Bounds,
        ray: &Ray,
        steps: &mut Steps<L>,
    ) -> Option<Hit>
        requires lists { AreListsOf h.now self.now }
        requires bounds { AreBoundsOf h.now bounds.now }
        ensures some { IfSome result (IsPick h.now ray.now) }
        ensures none { IfNone result ((f : ℕ) → f < face_count h.now → MissesFace h.now ray.now f) }
        ensures cost { steps.new ≤ steps.old + most_tests h.now (is_met h.now ray.now) }
    {
        h.invariant();
        let mut best = None;
        let mut at = first(h);
        while let Some(node) = at {
            at = self.visit(h, bounds, node, ray, &mut best, steps);
        }
        best
    }

    /// The hit with the least fraction, and of those the face with the least number; none exactly
    /// where the ray hits no face. Picker and bounds are those of the hierarchy. It takes no
    /// memory.
    ///
    /// It skips what is under nodes whose balls the ray doesn't meet: it counts a step for each
    /// root and for both children of each node that is met with all nodes above it, and one for
    /// each face corner at the leaves whose nodes are so met.
    pub fn pick<L: Ledger>(
        &self,
        h: &Hierarchy,
        bounds: &Bounds,
        ray: &Ray,
        steps: &mut Steps<L>,
    ) -> Option<Hit>
        requires lists { AreListsOf h.now self.now }
        requires bounds { AreBoundsOf h.now bounds.now }
        ensures some { IfSome result (IsPick h.now ray.now) }
        ensures none { IfNone result ((f : ℕ) → f < face_count h.now → MissesFace h.now ray.now f) }
        ensures value { result ≡ pick_of h.now ray.now }
        ensures cost { steps.new ≤ steps.old + most_tests h.now (is_met h.now ray.now) }
    {
        self.first_met(h, bounds, ray, steps)
    }
}
