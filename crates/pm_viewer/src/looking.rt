//! The node that shows a leaf.
ghost use Rattle.std.specs.Prelude.{◌≡◌, ◌+◌, ◌<◌, IfSome};
ghost use Rattle.pm_base.specs.Counts.{set_of};
ghost use Rattle.pm_forest.specs.Forest.{node_count, leaf_count, record_count, interval_of};
ghost use Rattle.pm_forest.specs.Forest.{maker_of};
ghost use Rattle.pm_forest.specs.Fronts.{IsFront, ancestor_of};
ghost use Rattle.pm_forest.proofs.Climbing.{IsAbove};

use pm_base::NodeId;
use pm_front::Front;

// The node of a leaf.
fn leaf_node(front: &Front, leaf: u32) -> NodeId
    requires { leaf < leaf_count front.now.h }
    ensures alone { interval_of front.now.h result.0 ≡ record { from = leaf; until = leaf + 1 } }
    ensures there { result.0 < node_count front.now.h }
{
    front.hierarchy().leaf_node(leaf)
}

// The record that made a node; none exactly for a root.
fn maker(front: &Front, node: NodeId) -> Option<u32>
    requires { node.0 < node_count front.now.h }
    ensures value { result ≡ maker_of front.now.h node.0 }
    ensures below { IfSome result (λ k. k < record_count front.now.h) }
{
    front.hierarchy().maker(node)
}

// The climb from a node above a leaf, and not past its ancestor, to that.
#[tactic(auto, using(pm_forest::proofs::ViewLaws::climb_goes_down, pm_forest::proofs::ViewLaws::climb_ends))]
fn climb(front: &Front, leaf: u32, from: NodeId) -> NodeId
    requires leaf { leaf < leaf_count front.now.h }
    requires front { IsFront front.now.h (set_of front.now.flags) }
    requires above { IsAbove front.now.h (set_of front.now.flags) leaf from.0 }
    ensures { result.0 ≡ ancestor_of front.now.h (set_of front.now.flags) leaf }
{
    front.invariant();
    let mut node = from;
    while let Some(k) = maker(front, node) {
        if front.is_split(k) {
            break;
        }
        node = front.split_node(k);
    }
    node
}

/// The ancestor of a leaf: the one active node that has it below it. The climb goes from the leaf's
/// node up to the first node that a split record made, or to a root.
pub(crate) fn ancestor(front: &Front, leaf: u32) -> u32
    requires { leaf < leaf_count front.now.h }
    ensures { result ≡ ancestor_of front.now.h (set_of front.now.flags) leaf }
{
    front.invariant();
    let from = leaf_node(front, leaf);
    climb(front, leaf, from).0
}
