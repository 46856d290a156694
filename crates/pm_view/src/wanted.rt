//! Whether a view wants a node refined.
ghost use Rattle.std.specs.Prelude.{◌≡◌, ℕ, ◌+◌, ◌<◌, ◌^◌, ◌⊎◌, true, false};
ghost use Rattle.pm_forest.specs.Forest.{Hierarchy, node_count, record_count, s_of, Makes};
ghost use Rattle.pm_bounds.specs.Bounds.{IsBallOf};
ghost use Rattle.pm_deviation.specs.Deviations.{AreMeasuresOf, has_deviations};
ghost use Rattle.pm_view.specs.Wanted.{Serves, bounded, size_of, sees_both, is_wanted};
ghost use Rattle.pm_view.specs.Laws.{IsBehind, IsTurnedAway, IsOneSided, IsTiny};

use crate::{Measure, Steps, View};
use pm_base::NodeId;
use pm_bounds::Ball;
use pm_deviation::Measures;
use pm_forest::Hierarchy;
use std::sync::ledger::Ledger;

// The number of a node by which the view judges it.
fn size_of(h: &Hierarchy, measures: &Measures, node: NodeId, ball: &Ball, view: &View) -> u64
    requires measures { Serves h.now view.now measures.now }
    requires node { node.0 < node_count h.now }
    requires ball { IsBallOf h.now node.0 ball.now }
    requires small_error { ball.now.error < 2 ^ 38 }
    ensures value { result ≡ size_of view.now.measure (bounded h.now node.0) }
    ensures small { result < 2 ^ 38 }
{
    match view.measure() {
        Measure::Error => ball.error,
        Measure::Deviation => measures.deviation(node),
    }
}

// Whether the view sees both sides of faces.
fn sees_both(measures: &Measures, view: &View) -> bool
    requires { view.now.measure ≡ Measure.Deviation → has_deviations measures.now ≡ true }
    ensures { (h : Hierarchy) → AreMeasuresOf h measures.now → (v : ℕ)
        → result ≡ sees_both view.now.measure (bounded h v) }
{
    match view.measure() {
        Measure::Error => false,
        Measure::Deviation => measures.has_border(),
    }
}

// The three tests of a node, which has this ball, as one step. The box of its normals is read last
// and only where it is asked for: most nodes are too small, and the box lies apart from the ball.
#[tactic(auto, unfolding(crate::specs::Wanted::is_large), using(crate::proofs::Passing::asked_in_turn))]
fn passes<L: Ledger>(
    h: &Hierarchy,
    measures: &Measures,
    node: NodeId,
    ball: &Ball,
    view: &View,
    steps: &mut Steps<L>,
) -> bool
    requires measures { Serves h.now view.now measures.now }
    requires node { node.0 < node_count h.now }
    requires ball { IsBallOf h.now node.0 ball.now }
    requires small_error { ball.now.error < 2 ^ 38 }
    requires small_radius { ball.now.radius < 2 ^ 38 }
    ensures value { result ≡ is_wanted h.now view.now node.0 }
    ensures cost { steps.new ≡ steps.old + 1 }
{
    steps.tick();
    let size = size_of(h, measures, node, ball, view);
    let is_large = view.looks_large(ball.place, size, ball.radius);
    let sees_both = sees_both(measures, view);
    (is_large || view.outline_looks_large(ball.place, size, ball.radius))
        && !view.is_behind(ball.place, ball.radius)
        && (is_large && sees_both
            || view.may_show(
                ball.place,
                ball.radius,
                measures.bounds().normals(node),
                sees_both,
                is_large,
            ))
}

/// Whether the view wants the node refined: no plane of the view has the node's whole ball behind
/// it, a face under the node may be turned to the eye, and the node's error, or its deviation where
/// the view judges by that, looks larger than the tolerance, or than the tolerance for outlines
/// where a face under the node may be turned away too. Where the view judges by deviations and the
/// mesh has a border, both sides of faces are seen, and they may be turned either way. It counts
/// one step, and takes no memory.
pub fn wants<L: Ledger>(
    h: &Hierarchy,
    measures: &Measures,
    node: NodeId,
    view: &View,
    steps: &mut Steps<L>,
) -> bool
    requires measures { Serves h.now view.now measures.now }
    requires node { node.0 < node_count h.now }
    ensures value { result ≡ is_wanted h.now view.now node.0 }
    ensures cost { steps.new ≡ steps.old + 1 }
    ensures parent { result ≡ true → (k : ℕ) → k < record_count h.now → Makes h.now k node.0
        → is_wanted h.now view.now (s_of h.now k) ≡ true }
    ensures reason { result ≡ false → IsBehind h.now view.now node.0
        ⊎ ((IsTurnedAway h.now view.now node.0 × IsOneSided h.now view.now)
        ⊎ IsTiny h.now view.now node.0) }
{
    h.invariant();
    passes(
        h,
        measures,
        node,
        &measures.bounds().ball(node),
        view,
        steps,
    )
}

/// Whether the view wants a node refined that record `k` splits: as `wants` says, but the ball is
/// found by the record. The balls of records lie in their order, so that a walk over records reads
/// neighbours. It counts one step, and takes no memory.
pub fn wants_split<L: Ledger>(
    h: &Hierarchy,
    measures: &Measures,
    k: u32,
    node: NodeId,
    view: &View,
    steps: &mut Steps<L>,
) -> bool
    requires measures { Serves h.now view.now measures.now }
    requires record { k < record_count h.now }
    requires node { node.0 ≡ s_of h.now k }
    ensures value { result ≡ is_wanted h.now view.now (s_of h.now k) }
    ensures cost { steps.new ≡ steps.old + 1 }
{
    h.invariant();
    passes(
        h,
        measures,
        node,
        &measures.bounds().split_ball(k),
        view,
        steps,
    )
}
