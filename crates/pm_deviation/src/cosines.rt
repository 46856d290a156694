//! How steeply the headings under each node stand to the axis that they go along most alike.
ghost use Rattle.std.specs.Prelude.{◌≡◌, ℕ, ◌<◌, ◌≤◌, true, Option, None, max, IfOk, IfSome};
ghost use Rattle.std.specs.Prelude.{replicate, length, slice_index_or, unsigned_abs};
ghost use Rattle.pm_forest.specs.Forest.{node_count};
ghost use Rattle.pm_deviation.specs.declared.axes.Axis.{Axis};
ghost use Rattle.pm_deviation.specs.declared.spread.Spread.{Spread};
ghost use Rattle.pm_deviation.specs.Normals.{above_zero, length_of, least_cosine, cosine_by};
ghost use Rattle.pm_deviation.specs.Normals.{greatest_cosine};
ghost use Rattle.pm_deviation.specs.Tables.{IsSum, is_axis, AreHeadings, HaveSpreads, AreOfNodes};
ghost use Rattle.pm_deviation.specs.Tables.{AreSpaceSpreads};

use crate::OutOfMemory;
use crate::axes::{AXES, Axis, axis_at};
use crate::axis_spreads::axis_spreads;
use crate::heading::Heading;
use crate::space_spreads::SpaceSpreads;
use crate::spread::Spread;
use pm_forest::Hierarchy;
use std::alloc::Global;

// The length of an axis in 16,384ths, rounded up: that of the root of 1, 2 or 3.
fn length(axis: Axis) -> u32
    requires { is_axis axis ≡ true }
    ensures value { result ≡ length_of axis }
    ensures some { 0 < result }
{
    match axis.x.unsigned_abs() + axis.y.unsigned_abs() + axis.z.unsigned_abs() {
        1 => 16_384,
        2 => 23_171,
        _ => 28_378,
    }
}

// A number, and 0 for one below 0.
fn above_zero(n: i32) -> u32
    requires { unsigned_abs n ≤ 49152 }
    ensures value { result ≡ above_zero n }
    ensures small { result ≤ 49152 }
{
    if n < 0 { 0 } else { n as u32 }
}

// The least cosine of an axis, or of its opposite, with normals that have this along it.
fn least_cosine(axis: Axis, spread: Spread) -> u32
    requires axis { is_axis axis ≡ true }
    requires small { IsSum spread }
    ensures { result ≡ least_cosine axis spread }
{
    let side = above_zero(spread.low).max(above_zero(-spread.high));
    16_384 * side / length(axis)
}

// The same where there may be no normals.
fn cosine_by(axis: Axis, spread: Option<Spread>) -> u32
    requires axis { is_axis axis ≡ true }
    requires small { IfSome spread IsSum }
    ensures { result ≡ cosine_by axis spread }
{
    match spread {
        Some(spread) => least_cosine(axis, spread),
        None => 16_384,
    }
}

// Lets the cosine of each node be at least the one along an axis.
fn raise(h: &Hierarchy, cosines: &mut Vec<u32>, spreads: &[Option<Spread>], axis: Axis)
    requires axis { is_axis axis ≡ true }
    requires nodes { length spreads.now ≡ node_count h.now }
    requires small { (v : ℕ) → v < node_count h.now
        → IfSome (slice_index_or spreads.now v None) IsSum }
    requires len { length cosines.old.items ≡ node_count h.now }
    ensures len { length cosines.new.items ≡ node_count h.now }
    ensures raised { (v : ℕ) → v < node_count h.now → slice_index_or cosines.new.items v 0
        ≡ max (slice_index_or cosines.old.items v 0)
        (cosine_by axis (slice_index_or spreads.now v None)) }
{
    for v in 0..h.nodes() {
        let at = v as usize;
        cosines[at] = cosines[at].max(cosine_by(axis, spreads[at]));
    }
}

// As many zeros as there are nodes. The length is a parameter, so that no proof unfolds the list.
fn zeros(alloc: Global, nodes: usize) -> Result<Vec<u32>, OutOfMemory>
    ensures { IfOk result (λ table. table.items ≡ replicate nodes 0) }
{
    vec![in alloc; 0; nodes]
}

/// For each node the least cosine, in 16,384ths, of the axis that the headings under it go along
/// most alike with them: 4 bytes a node, and 12 more while an axis is gone through. The spreads
/// along the axes of space, which are the first three, are there already.
pub(crate) fn cosines(
    alloc: Global,
    h: &Hierarchy,
    headings: &[Heading],
    space: &SpaceSpreads,
) -> Result<Vec<u32>, OutOfMemory>
    requires are { AreHeadings h.now headings.now }
    requires space { (spread : Axis → ℕ → Option Spread) → HaveSpreads h.now spread headings.now
        → AreSpaceSpreads h.now spread space.now.x.items space.now.y.items space.now.z.items }
    ensures { IfOk result (λ table. (spread : Axis → ℕ → Option Spread)
        → HaveSpreads h.now spread headings.now
        → AreOfNodes h.now 0 (λ v. greatest_cosine (λ u. spread u v)) table.items) }
{
    let mut cosines = zeros(alloc, h.nodes() as usize)?;
    raise(h, &mut cosines, &space.x, axis_at(0));
    raise(h, &mut cosines, &space.y, axis_at(1));
    raise(h, &mut cosines, &space.z, axis_at(2));
    for i in 3..AXES.len() {
        let axis = axis_at(i);
        let spreads = axis_spreads(alloc, h, headings, axis)?;
        raise(h, &mut cosines, &spreads, axis);
    }
    Ok(cosines)
}
