//! The line deviations of all nodes: the records are gone through from the last to the first.
ghost use Rattle.std.specs.Prelude.{◌≡◌, ℕ, ◌<◌, ◌≤◌, ◌+◌, ◌^◌, replicate, length, IfOk};
ghost use Rattle.std.specs.Prelude.{slice_index_or};
ghost use Rattle.pm_forest.specs.Forest.{node_count, record_count};
ghost use Rattle.pm_deviation.specs.Lines.{line_spread_of};
ghost use Rattle.pm_deviation.specs.Deviations.{over_steps, line_step};
ghost use Rattle.pm_deviation.specs.Tables.{AreSpaceSpreads};
ghost use Rattle.pm_deviation.specs.Tables.{AreLineDeviations};

use crate::OutOfMemory;
use crate::nodes::nodes_of;
use crate::space_spreads::SpaceSpreads;
use crate::steps::line_step;
use crate::upward::{over_steps, zeros};
use pm_forest::Hierarchy;
use std::alloc::Global;

// The number of the node that a record splits, by those of its children.
fn from_children(h: &Hierarchy, spreads: &SpaceSpreads, table: &[u64], k: u32) -> u64
    requires record { k < record_count h.now }
    requires spreads { AreSpaceSpreads h.now (line_spread_of h.now) spreads.now.x.items
        spreads.now.y.items spreads.now.z.items }
    requires len { length table.now ≡ node_count h.now }
    requires small { (v : ℕ) → v < node_count h.now → slice_index_or table.now v 0 ≤ 2 ^ 38 }
    ensures value { result
        ≡ over_steps h.now (line_step h.now) (λ v. slice_index_or table.now v 0) k }
    ensures small { (m : ℕ)
        → ((v : ℕ) → v < node_count h.now → slice_index_or table.now v 0 ≤ m)
        → result ≤ m + 113509 }
{
    let nodes = nodes_of(h, k);
    let t_step = line_step(h, spreads, nodes.s, nodes.t);
    let u_step = line_step(h, spreads, nodes.s, nodes.u);
    over_steps(table, nodes, t_step, u_step)
}

// Gives all nodes their line deviations. Those that no record splits have none.
fn grow(h: &Hierarchy, spreads: &SpaceSpreads, table: &mut Vec<u64>)
    requires spreads { AreSpaceSpreads h.now (line_spread_of h.now) spreads.now.x.items
        spreads.now.y.items spreads.now.z.items }
    requires zeros { table.old.items ≡ replicate (node_count h.now) 0 }
    ensures { AreLineDeviations h.now table.new.items }
{
    h.invariant();
    for k in (0..h.records()).rev() {
        let node = nodes_of(h, k).s.0 as usize;
        let number = from_children(h, spreads, table, k);
        table[node] = number;
    }
}

/// How far the place of each node may be from the lines of the border sides under it: 8 bytes a
/// node.
pub(crate) fn line_deviations(
    alloc: Global,
    h: &Hierarchy,
    spreads: &SpaceSpreads,
) -> Result<Vec<u64>, OutOfMemory>
    requires { AreSpaceSpreads h.now (line_spread_of h.now) spreads.now.x.items
        spreads.now.y.items spreads.now.z.items }
    ensures { IfOk result (λ table. AreLineDeviations h.now table.items) }
{
    let mut table = zeros(alloc, h.nodes() as usize)?;
    grow(h, spreads, &mut table);
    Ok(table)
}
