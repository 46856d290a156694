//! What a leaf has: the number of its vertex of the input.
ghost use Rattle.std.specs.Prelude.{◌≡◌, ◌-◌, ◌<◌, ◌≤◌, length};
ghost use Rattle.pm_forest.specs.Forest.{leaf_count, node_count};
ghost use Rattle.pm_forest.specs.Meshes.{input_of_node, leaf_input};
ghost use Rattle.pm_paint.specs.Means.{AreAtMost, value_of};

use crate::sums::MOST_VALUE;
use pm_base::NodeId;
use pm_forest::Hierarchy;

/// The number of a node among the input's vertices, from 1; 0 for a node of more than one leaf.
pub(crate) fn node_input(h: &Hierarchy, node: NodeId) -> u32
    requires { node.0 < node_count h.now }
    ensures { result ≡ input_of_node h.now node.0 }
{
    let roots = h.roots();
    if node.0 < roots {
        return h.root_at(node.0).input;
    }
    let split = h.record_at((node.0 - roots) / 2);
    if (node.0 - roots) % 2 == 0 {
        split.t.input
    } else {
        split.u.input
    }
}

// The vertex of a leaf, from 0.
#[tactic(auto, using(pm_forest::proofs::InputLaws::some_input, pm_forest::proofs::MeshLaws::vertex_below))]
fn leaf_vertex(h: &Hierarchy, leaf: u32) -> u32
    requires { leaf < leaf_count h.now }
    ensures value { result ≡ leaf_input h.now leaf - 1 }
    ensures below { result < leaf_count h.now }
{
    h.invariant();
    node_input(h, h.leaf_node(leaf)) - 1
}

/// What a leaf has.
pub(crate) fn leaf_value(h: &Hierarchy, values: &[u64], leaf: u32) -> u64
    requires leaf { leaf < leaf_count h.now }
    requires len { length values.now ≡ leaf_count h.now }
    requires small { AreAtMost MOST_VALUE values.now }
    ensures value { result ≡ value_of h.now values.now leaf }
    ensures small { result ≤ MOST_VALUE }
{
    values[leaf_vertex(h, leaf) as usize]
}
