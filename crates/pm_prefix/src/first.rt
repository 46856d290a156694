//! The first records.
ghost use Rattle.std.specs.Prelude.{◌≡◌, ◌≤◌, IfOk};
ghost use Rattle.pm_forest.specs.Forest.{record_count};
ghost use Rattle.pm_forest.specs.Shaping.{HasBegun};
ghost use Rattle.pm_prefix.specs.Prefix.{first_records};

use crate::OutOfMemory;
use crate::begun::begun_before;
use crate::units::Prefix;
use pm_forest::{Growing, Hierarchy};
use std::alloc::Global;

/// The hierarchy of the first `n` records. Its leaves are the nodes that are active once these are
/// split, numbered among the input's vertices in the order of leaves; nodes and faces keep their
/// numbers. It takes time and memory linear in the leaves.
pub fn first_records(alloc: Global, forest: &Growing, n: u32) -> Result<Hierarchy, OutOfMemory>
    requires begun { HasBegun forest.now.counts forest.now.h }
    requires few { n ≤ record_count forest.now.h }
    ensures { IfOk result (λ p. p ≡ first_records forest.now.h n) }
{
    let begun = begun_before(alloc, forest, n)?;
    let prefix = Prefix { forest, n, begun };
    prefix.hierarchy(alloc)
}
