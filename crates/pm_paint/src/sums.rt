//! The sums of all nodes. The leaves under a node stand in a row, so that its sum is the difference
//! of two totals.
ghost use Rattle.std.specs.Prelude.{◌≡◌, ◌+◌, ◌≤◌, [], IfOk, length, map};
ghost use Rattle.std.specs.List.{range_with_len};
ghost use Rattle.pm_forest.specs.Forest.{leaf_count, node_count};
ghost use Rattle.pm_paint.specs.Means.{AreAtMost, total_before, sum_under};

use crate::OutOfMemory;
use crate::leaves::leaf_value;
use pm_base::{Items, NodeId};
use pm_forest::Hierarchy;
use std::alloc::Global;

/// The most that a number may be, 2^43: the sum of all leaves stays below 2^64 then.
pub const MOST_VALUE: u64 = 8_796_093_022_208;

// An empty list that has room for `most` items.
pub(crate) fn list_with_room<T: Copy>(alloc: Global, most: usize) -> Result<Items<T>, OutOfMemory>
    ensures items { IfOk result (λ list. list.items ≡ []) }
    ensures room { IfOk result (λ list. most ≤ list.spare) }
{
    let mut list = Items::new(alloc);
    list.reserve(most)?;
    Ok(list)
}

// The sum of what the leaves before each leaf have, and of all.
fn totals_of(alloc: Global, h: &Hierarchy, values: &[u64]) -> Result<Items<u64>, OutOfMemory>
    requires len { length values.now ≡ leaf_count h.now }
    requires small { AreAtMost MOST_VALUE values.now }
    ensures { IfOk result (λ totals. totals.items
        ≡ map (total_before h.now values.now) (range_with_len 0 (leaf_count h.now + 1))) }
{
    let mut totals = list_with_room(alloc, h.leaves() as usize + 1)?;
    let mut total: u64 = 0;
    totals.push_within_room(total);
    for leaf in 0..h.leaves() {
        total += leaf_value(h, values, leaf);
        totals.push_within_room(total);
    }
    Ok(totals)
}

/// The sum of each node, by number, of what the vertices of the input have: `values` has a number
/// for each, in their order. It takes time and memory linear in the nodes.
pub fn sums_of(alloc: Global, h: &Hierarchy, values: &[u64]) -> Result<Items<u64>, OutOfMemory>
    requires len { length values.now ≡ leaf_count h.now }
    requires small { AreAtMost MOST_VALUE values.now }
    ensures { IfOk result (λ sums. sums.items
        ≡ map (sum_under h.now values.now) (range_with_len 0 (node_count h.now))) }
{
    h.invariant();
    let totals = totals_of(alloc, h, values)?;
    let mut sums = list_with_room(alloc, h.nodes() as usize)?;
    for node in 0..h.nodes() {
        let (from, until) = h.interval(NodeId(node));
        sums.push_within_room(*totals.get(until as usize) - *totals.get(from as usize));
    }
    Ok(sums)
}
