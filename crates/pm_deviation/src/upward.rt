//! What the numbers that are found from the leaves up have in common.
ghost use Rattle.std.specs.Prelude.{◌≡◌, ℕ, ◌+◌, ◌<◌, ◌≤◌, ◌^◌, max, replicate, length, IfOk};
ghost use Rattle.std.specs.Prelude.{slice_index_or};

use crate::OutOfMemory;
use crate::nodes::Nodes;
use std::alloc::Global;

/// The greater, over the two children of a node, of the child's number and its step.
pub(crate) fn over_steps(table: &[u64], nodes: Nodes, t_step: u64, u_step: u64) -> u64
    requires t { nodes.t.0 < length table.now }
    requires u { nodes.u.0 < length table.now }
    requires t_small { slice_index_or table.now nodes.t.0 0 ≤ 2 ^ 38 }
    requires u_small { slice_index_or table.now nodes.u.0 0 ≤ 2 ^ 38 }
    requires t_short { t_step ≤ 113509 }
    requires u_short { u_step ≤ 113509 }
    ensures value { result
        ≡ max (slice_index_or table.now nodes.t.0 0 + t_step)
        (slice_index_or table.now nodes.u.0 0 + u_step) }
{
    let by_t = table[nodes.t.0 as usize] + t_step;
    let by_u = table[nodes.u.0 as usize] + u_step;
    by_t.max(by_u)
}

/// As many zeros as there are nodes. The length is a parameter, so that no proof unfolds the list.
pub(crate) fn zeros(alloc: Global, nodes: usize) -> Result<Vec<u64>, OutOfMemory>
    ensures { IfOk result (λ table. table.items ≡ replicate nodes 0) }
{
    vec![in alloc; 0; nodes]
}
