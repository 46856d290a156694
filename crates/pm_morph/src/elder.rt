//! The elder of a node: the node of the marked front above it.
ghost use Rattle.std.specs.Prelude.{◌≡◌, ◌<◌, true, length};
ghost use Rattle.pm_forest.specs.Forest.{node_count, leaf_count, record_count, interval_of};
ghost use Rattle.pm_forest.specs.Fronts.{is_active, IsFront, ancestor_of};
ghost use Rattle.pm_base.specs.Counts.{set_of};
ghost use Rattle.pm_forest.proofs.Climbing.{IsAbove};
ghost use Rattle.pm_morph.specs.Elders.{IsPart, elder_of};
ghost use Rattle.pm_morph.specs.Marks.{AreMarksOf};

use pm_base::NodeId;
use pm_forest::Hierarchy;
use pm_front::Front;

// The climb from a node to the ancestor of the first leaf below it.
#[tactic(auto, using(pm_forest::proofs::ViewLaws::climb_goes_down, pm_forest::proofs::ViewLaws::climb_ends, pm_sides::proofs::SplitNodeLaws::s_is))]
fn climb(h: &Hierarchy, marks: &[bool], from: NodeId) -> NodeId
    requires marks { length marks.now ≡ record_count h.now }
    requires front { IsFront h.now (set_of marks.now) }
    requires leaf { (interval_of h.now from.0).from < leaf_count h.now }
    requires above { IsAbove h.now (set_of marks.now) (interval_of h.now from.0).from from.0 }
    ensures value { result.0
        ≡ ancestor_of h.now (set_of marks.now) (interval_of h.now from.0).from }
    ensures there { result.0 < node_count h.now }
{
    h.invariant();
    let mut node = from;
    while let Some(k) = h.maker(node) {
        if marks[k as usize] {
            break;
        }
        node = NodeId(h.record_at(k).s);
    }
    node
}

/// The elder of an active node: the climb goes up to the first node that a marked record made, or
/// to a root.
#[tactic(auto, unfolding(crate::specs::Elders::elder_of))]
pub(crate) fn elder(front: &Front, marks: &[bool], node: NodeId) -> NodeId
    requires marks { AreMarksOf front.now.h marks.now }
    requires part { IsPart front.now.h (set_of marks.now) (set_of front.now.flags) }
    requires there { node.0 < node_count front.now.h }
    requires active { is_active front.now.h (set_of front.now.flags) node.0 ≡ true }
    ensures value { result.0 ≡ elder_of front.now.h (set_of marks.now) node.0 }
    ensures there { result.0 < node_count front.now.h }
{
    front.invariant();
    climb(front.hierarchy(), marks, node)
}
