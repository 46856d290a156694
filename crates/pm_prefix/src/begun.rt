//! How many active nodes begin before each leaf, where the first records are split.
ghost use Rattle.std.specs.Prelude.{◌≡◌, ℕ, ◌+◌, ◌<◌, ◌≤◌, false, IfOk, length, slice_index_or};
ghost use Rattle.pm_base.specs.Counts.{count, set_of};
ghost use Rattle.pm_base.specs.declared.limits.TheConstants.{MOST_VERTICES};
ghost use Rattle.pm_forest.specs.Forest.{record_count, leaf_count};
ghost use Rattle.pm_forest.specs.Shaping.{HasBegun};
ghost use Rattle.pm_prefix.specs.Prefix.{begins, begun_before};

use crate::OutOfMemory;
use crate::readers::{interval, roots};
use pm_forest::Growing;
use std::alloc::Global;

// A table of zeros, and flags that aren't set. The length is a parameter, so that no proof unfolds
// the list.
fn zeros(alloc: Global, n: usize) -> Result<Vec<u32>, OutOfMemory>
    ensures len { IfOk result (λ table. length table.items ≡ n) }
    ensures zero { IfOk result (λ table. slice_index_or table.items 0 0 ≡ 0) }
{
    vec![in alloc; 0u32; n]
}

fn unset(alloc: Global, n: usize) -> Result<Vec<bool>, OutOfMemory>
    ensures len { IfOk result (λ flags. length flags.items ≡ n) }
    ensures each { IfOk result (λ flags. (k : ℕ) → set_of flags.items k ≡ false) }
{
    vec![in alloc; false; n]
}

// The leaves with which the nodes of the first records begin, as flags.
fn first_leaves(alloc: Global, forest: &Growing, n: u32) -> Result<Vec<bool>, OutOfMemory>
    requires begun { HasBegun forest.now.counts forest.now.h }
    requires few { n ≤ record_count forest.now.h }
    ensures len { IfOk result (λ flags. length flags.items ≡ leaf_count forest.now.h) }
    ensures few { IfOk result (λ flags. length flags.items ≤ MOST_VERTICES) }
    ensures each { IfOk result (λ flags. (x : ℕ) → x < leaf_count forest.now.h
        → set_of flags.items x ≡ begins forest.now.h n x) }
{
    let mut flags = unset(alloc, forest.leaves() as usize)?;
    for node in 0..roots(forest) + 2 * n {
        let (from, _) = interval(forest, node);
        flags[from as usize] = true;
    }
    Ok(flags)
}

// How many flags before each are set, and of all.
fn set_before(alloc: Global, flags: &[bool]) -> Result<Vec<u32>, OutOfMemory>
    requires { length flags.now ≤ MOST_VERTICES }
    ensures len { IfOk result (λ table. length table.items ≡ length flags.now + 1) }
    ensures each { IfOk result (λ table. (x : ℕ) → x ≤ length flags.now
        → slice_index_or table.items x 0 ≡ count (set_of flags.now) x) }
{
    let mut table = zeros(alloc, flags.len() + 1)?;
    let mut set = 0;
    for x in 0..flags.len() {
        set += u32::from(flags[x]);
        table[x + 1] = set;
    }
    Ok(table)
}

/// How many active nodes begin before each leaf, and before the end. It takes time and memory
/// linear in the leaves.
pub(crate) fn begun_before(alloc: Global, forest: &Growing, n: u32) -> Result<Vec<u32>, OutOfMemory>
    requires begun { HasBegun forest.now.counts forest.now.h }
    requires few { n ≤ record_count forest.now.h }
    ensures len { IfOk result (λ table. length table.items ≡ leaf_count forest.now.h + 1) }
    ensures few { IfOk result (λ _. leaf_count forest.now.h ≤ MOST_VERTICES) }
    ensures each { IfOk result (λ table. (x : ℕ) → x ≤ leaf_count forest.now.h
        → slice_index_or table.items x 0 ≡ begun_before forest.now.h n x) }
{
    let flags = first_leaves(alloc, forest, n)?;
    set_before(alloc, &flags)
}
