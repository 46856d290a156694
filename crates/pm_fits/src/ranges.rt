//! The least and the greatest number of the leaves under each node. The records are gone through
//! from the last to the first, so that a node's children have their range before it.
ghost use Rattle.std.specs.Prelude.{◌≡◌, ◌<◌, IfOk, length, slice_set};
ghost use Rattle.pm_forest.specs.Forest.{leaf_count, node_count, record_count, s_of, t_of, u_of};
ghost use Rattle.pm_fits.specs.Fits.{brought_within};
ghost use Rattle.pm_fits.specs.Ranges.{joined, range_at, AreFirst, AreRanges};

use crate::OutOfMemory;
use pm_base::NodeId;
use pm_forest::Hierarchy;
use std::alloc::Global;

/// Numbers from the least to the greatest.
#[derive(Clone, Copy)]
pub(crate) struct Range {
    pub least: i32,
    pub greatest: i32,
}

impl Range {
    // The least range that has this one and another in it.
    fn joined(&self, other: &Range) -> Range
        ensures { result ≡ joined self.now other.now }
    {
        Range {
            least: self.least.min(other.least),
            greatest: self.greatest.max(other.greatest),
        }
    }

    /// The number of the range that is nearest to `n`.
    pub(crate) fn brought_within(&self, n: i128) -> i32
        ensures { result ≡ brought_within self.now n }
    {
        i128::from(self.least).max(i128::from(self.greatest).min(n)) as i32
    }
}

// For each node the number of its first leaf.
fn first_ranges(alloc: Global, h: &Hierarchy, numbers: &[i32]) -> Result<Vec<Range>, OutOfMemory>
    requires { length numbers.now ≡ leaf_count h.now }
    ensures { IfOk result (λ ranges. AreFirst h.now numbers.now (node_count h.now) ranges.items) }
{
    h.invariant();
    let mut ranges = Vec::with_capacity(alloc, h.nodes() as usize)?;
    for node in 0..h.nodes() {
        let (from, _) = h.interval(NodeId(node));
        let number = numbers[from as usize];
        ranges.push(Range {
            least: number,
            greatest: number,
        })?;
    }
    Ok(ranges)
}

// The node that a record splits, and its two children.
fn nodes_of(h: &Hierarchy, k: u32) -> (NodeId, NodeId, NodeId)
    requires { k < record_count h.now }
    ensures s { result.0.0 ≡ s_of h.now k }
    ensures t { result.1.0 ≡ t_of h.now k }
    ensures u { result.2.0 ≡ u_of h.now k }
    ensures s_node { s_of h.now k < node_count h.now }
    ensures t_node { t_of h.now k < node_count h.now }
    ensures u_node { u_of h.now k < node_count h.now }
{
    h.invariant();
    let (t, u) = h.children(k);
    (NodeId(h.record_at(k).s), t, u)
}

// Gives the node that a record splits the least range that has its children's in it.
fn join_children(h: &Hierarchy, ranges: &mut Vec<Range>, k: u32)
    requires record { k < record_count h.now }
    requires len { length ranges.old.items ≡ node_count h.now }
    ensures { let old = ranges.old.items in
        ranges.new.items
        ≡ slice_set old (s_of h.now k)
        (joined (range_at old (t_of h.now k)) (range_at old (u_of h.now k))) }
{
    let (s, t, u) = nodes_of(h, k);
    let range = ranges[t.0 as usize].joined(&ranges[u.0 as usize]);
    ranges[s.0 as usize] = range;
}

/// The ranges of all nodes, where `numbers` has what each leaf has.
pub(crate) fn ranges(
    alloc: Global,
    h: &Hierarchy,
    numbers: &[i32],
) -> Result<Vec<Range>, OutOfMemory>
    requires { length numbers.now ≡ leaf_count h.now }
    ensures { IfOk result (λ ranges. AreRanges h.now numbers.now ranges.items) }
{
    h.invariant();
    let mut ranges = first_ranges(alloc, h, numbers)?;
    for k in (0..h.records()).rev() {
        join_children(h, &mut ranges, k);
    }
    Ok(ranges)
}
