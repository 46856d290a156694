//! The means of all nodes.
ghost use Rattle.std.specs.Prelude.{◌≡◌, ◌*◌, ◌≤◌, ◌<◌, IfOk, length, map};
ghost use Rattle.std.specs.List.{range_with_len};
ghost use Rattle.pm_forest.specs.Forest.{leaf_count, node_count};
ghost use Rattle.pm_paint.specs.Means.{AreAtMost, count_under, rounded, mean_of};

use crate::OutOfMemory;
use crate::sums::{list_with_room, sums_of};
use pm_base::{Items, NodeId};
use pm_forest::Hierarchy;
use std::alloc::Global;

// The whole number nearest to a mean, halves up.
fn rounded(sum: u64, count: u32) -> u16
    requires some { 0 < count }
    requires most { sum ≤ 65535 * count }
    ensures { result ≡ rounded sum count }
{
    let count = count as u64;
    ((2 * sum + count) / (2 * count)) as u16
}

// The mean of a node, by the sum over the leaves under it.
fn node_mean(h: &Hierarchy, node: NodeId, sum: u64) -> u16
    requires node { node.0 < node_count h.now }
    requires most { sum ≤ 65535 * count_under h.now node.0 }
    ensures { result ≡ rounded sum (count_under h.now node.0) }
{
    h.invariant();
    let (from, until) = h.interval(node);
    rounded(sum, until - from)
}

/// The means of all nodes, by what each vertex has, which is at most 65,535.
pub(crate) fn means_of_numbers(
    alloc: Global,
    h: &Hierarchy,
    values: &[u64],
) -> Result<Items<u16>, OutOfMemory>
    requires len { length values.now ≡ leaf_count h.now }
    requires small { AreAtMost 65535 values.now }
    ensures { IfOk result (λ means. means.items
        ≡ map (mean_of h.now values.now) (range_with_len 0 (node_count h.now))) }
{
    h.invariant();
    let sums = sums_of(alloc, h, values)?;
    let mut means = list_with_room(alloc, h.nodes() as usize)?;
    for node in 0..h.nodes() {
        means.push_within_room(node_mean(h, NodeId(node), *sums.get(node as usize)));
    }
    Ok(means)
}

// The same numbers, of 64 bits.
fn widened(alloc: Global, values: &[u16]) -> Result<Items<u64>, OutOfMemory>
    ensures items { IfOk result (λ numbers. numbers.items ≡ values.now) }
    ensures small { IfOk result (λ numbers. AreAtMost 65535 numbers.items) }
{
    let mut numbers = list_with_room(alloc, values.len())?;
    for i in 0..values.len() {
        numbers.push_within_room(u64::from(values[i]));
    }
    Ok(numbers)
}

/// The rounded mean of each node, by number, of what the vertices of the input have: `values` has a
/// number for each, in their order. It takes time and memory linear in the nodes.
pub fn means_of(alloc: Global, h: &Hierarchy, values: &[u16]) -> Result<Items<u16>, OutOfMemory>
    requires { length values.now ≡ leaf_count h.now }
    ensures { IfOk result (λ means. means.items
        ≡ map (mean_of h.now values.now) (range_with_len 0 (node_count h.now))) }
{
    let numbers = widened(alloc, values)?;
    means_of_numbers(alloc, h, numbers.as_slice())
}
