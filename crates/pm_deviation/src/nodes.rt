//! The nodes of a record.
ghost use Rattle.std.specs.Prelude.{◌≡◌, ◌<◌};
ghost use Rattle.pm_forest.specs.Forest.{node_count, record_count, s_of, t_of, u_of};

use pm_base::NodeId;
use pm_forest::Hierarchy;

/// The node that a record splits, and its two children.
#[derive(Clone, Copy)]
pub struct Nodes {
    pub s: NodeId,
    pub t: NodeId,
    pub u: NodeId,
}

/// The nodes of record `k`.
pub(crate) fn nodes_of(h: &Hierarchy, k: u32) -> Nodes
    requires { k < record_count h.now }
    ensures s { result.s.0 ≡ s_of h.now k }
    ensures t { result.t.0 ≡ t_of h.now k }
    ensures u { result.u.0 ≡ u_of h.now k }
    ensures s_node { s_of h.now k < node_count h.now }
    ensures t_node { t_of h.now k < node_count h.now }
    ensures u_node { u_of h.now k < node_count h.now }
{
    h.invariant();
    let (t, u) = h.children(k);
    Nodes {
        s: NodeId(h.record_at(k).s),
        t,
        u,
    }
}
