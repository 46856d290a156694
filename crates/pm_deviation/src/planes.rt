//! The plane deviations of all nodes: the records are gone through from the last to the first.
ghost use Rattle.std.specs.Prelude.{◌≡◌, ℕ, ◌<◌, ◌≤◌, ◌+◌, ◌^◌, max, replicate, length, IfOk};
ghost use Rattle.std.specs.Prelude.{slice_index_or};
ghost use Rattle.pm_forest.specs.Forest.{node_count, record_count};
ghost use Rattle.pm_forest.specs.Faces.{face_count};
ghost use Rattle.pm_deviation.specs.Normals.{spread_of};
ghost use Rattle.pm_deviation.specs.Farthest.{AreFarthestPlanes};
ghost use Rattle.pm_deviation.specs.Deviations.{over_planes};
ghost use Rattle.pm_deviation.specs.Tables.{AreHeadings, AreSpaceSpreads};
ghost use Rattle.pm_deviation.specs.Tables.{AreOfFaces, ArePlaneDeviations};

use crate::OutOfMemory;
use crate::farthest::{farthest_planes, has_few_leaves};
use crate::heading::Heading;
use crate::nodes::{Nodes, nodes_of};
use crate::space_spreads::SpaceSpreads;
use crate::steps::plane_step;
use crate::upward::{over_steps, zeros};
use pm_forest::Hierarchy;
use std::alloc::Global;

// The greatest of the numbers of a node's children and another number.
fn greatest(table: &[u64], nodes: Nodes, other: u32) -> u64
    requires t { nodes.t.0 < length table.now }
    requires u { nodes.u.0 < length table.now }
    ensures { result
        ≡ max (max (slice_index_or table.now nodes.t.0 0) (slice_index_or table.now nodes.u.0 0))
        other }
{
    let by_children = table[nodes.t.0 as usize].max(table[nodes.u.0 as usize]);
    by_children.max(u64::from(other))
}

// The number of the node that a record splits, by those of its children.
fn from_children(
    h: &Hierarchy,
    spreads: &SpaceSpreads,
    farthest: &[u32],
    table: &[u64],
    k: u32,
) -> u64
    requires record { k < record_count h.now }
    requires spreads { AreSpaceSpreads h.now (spread_of h.now) spreads.now.x.items
        spreads.now.y.items spreads.now.z.items }
    requires farthest { AreFarthestPlanes h.now farthest.now }
    requires len { length table.now ≡ node_count h.now }
    requires small { (v : ℕ) → v < node_count h.now → slice_index_or table.now v 0 ≤ 2 ^ 38 }
    ensures value { result ≡ over_planes h.now (λ v. slice_index_or table.now v 0) k }
    ensures small { (m : ℕ)
        → ((v : ℕ) → v < node_count h.now → slice_index_or table.now v 0 ≤ m)
        → result ≤ m + 113509 }
{
    let nodes = nodes_of(h, k);
    if has_few_leaves(h, nodes.s) {
        return greatest(table, nodes, farthest[nodes.s.0 as usize]);
    }
    let t_step = plane_step(h, spreads, nodes.s, nodes.t);
    let u_step = plane_step(h, spreads, nodes.s, nodes.u);
    over_steps(table, nodes, t_step, u_step)
}

// Gives all nodes their plane deviations. Those that no record splits have none.
fn grow(h: &Hierarchy, spreads: &SpaceSpreads, farthest: &[u32], table: &mut Vec<u64>)
    requires spreads { AreSpaceSpreads h.now (spread_of h.now) spreads.now.x.items
        spreads.now.y.items spreads.now.z.items }
    requires farthest { AreFarthestPlanes h.now farthest.now }
    requires zeros { table.old.items ≡ replicate (node_count h.now) 0 }
    ensures { ArePlaneDeviations h.now table.new.items }
{
    h.invariant();
    for k in (0..h.records()).rev() {
        let node = nodes_of(h, k).s.0 as usize;
        let number = from_children(h, spreads, farthest, table, k);
        table[node] = number;
    }
}

/// How far the place of each node may be from the planes of the faces under it: 8 bytes a node,
/// and 20 more while they are found.
pub(crate) fn plane_deviations(
    alloc: Global,
    h: &Hierarchy,
    headings: &[Heading],
    spreads: &SpaceSpreads,
) -> Result<Vec<u64>, OutOfMemory>
    requires are { AreHeadings h.now headings.now }
    requires spreads { AreSpaceSpreads h.now (spread_of h.now) spreads.now.x.items
        spreads.now.y.items spreads.now.z.items }
    requires faces { AreOfFaces h.now (face_count h.now) headings.now }
    ensures { IfOk result (λ table. ArePlaneDeviations h.now table.items) }
{
    let farthest = farthest_planes(alloc, h, headings)?;
    let mut table = zeros(alloc, h.nodes() as usize)?;
    grow(h, spreads, &farthest, &mut table);
    Ok(table)
}
