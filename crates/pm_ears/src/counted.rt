//! How many corners lie in each triangle of three corners in a row, kept while corners go.
ghost use Rattle.std.specs.Prelude.{◌≡◌, ◌≢◌, ℕ, ◌+◌, ◌-◌, ◌<◌, ◌≤◌, length, slice_index_or, IfOk};
ghost use Rattle.pm_ears.specs.declared.cut.TheConstants.{MOST_EAR_CORNERS};
ghost use Rattle.pm_ears.specs.Areas.{inside_of, triangle_at as triangle_at_of};
ghost use Rattle.pm_ears.specs.Ears.{without};
ghost use Rattle.pm_ears.specs.Counted.{AreCounted, count_with};

use crate::OutOfMemory;
use crate::spots::{Spot, count_inside, lies_in, triangle_at};
use std::alloc::Global;

// The counts of all such triangles.
pub(crate) fn counts(alloc: Global, left: &[Spot]) -> Result<Vec<u32>, OutOfMemory>
    requires { length left.now ≤ MOST_EAR_CORNERS }
    ensures { IfOk result (λ inside. AreCounted left.now (length left.now - 2) inside.items) }
{
    let mut inside = Vec::new(alloc);
    for i in 0..left.len().saturating_sub(2) {
        inside.push(count_inside(triangle_at(left, i), left))?;
    }
    Ok(inside)
}

// The count of triangle i after triangle `at` came off. That triangle and the one before it are
// other ones now, and are counted anew; in each other the corner that went counts no more.
fn count_after(left: &[Spot], gone: Spot, at: usize, i: usize, before: u32) -> u32
    requires few { length left.now ≤ MOST_EAR_CORNERS }
    requires i { i + 2 < length left.now }
    requires at { at < length left.now }
    requires same { i + 1 ≢ at → i ≢ at → before ≡ count_with left.now gone i }
    ensures { result ≡ inside_of (triangle_at_of left.now i) left.now }
{
    let triangle = triangle_at(left, i);
    if i == at || i + 1 == at {
        count_inside(triangle, left)
    } else {
        before - u32::from(lies_in(triangle, gone))
    }
}

// Counts anew after a corner went.
fn recount(left: &[Spot], gone: Spot, at: usize, inside: &mut Vec<u32>)
    requires few { length left.now ≤ MOST_EAR_CORNERS }
    requires long { length inside.old.items + 2 ≡ length left.now }
    requires at { at < length left.now }
    requires same { (i : ℕ) → i + 2 < length left.now → i + 1 ≢ at → i ≢ at
        → slice_index_or inside.old.items i 0 ≡ count_with left.now gone i }
    ensures { AreCounted left.now (length left.now - 2) inside.new.items }
{
    for i in 0..inside.len() {
        inside[i] = count_after(left, gone, at, i, inside[i]);
    }
}

// Takes triangle `at` off, whose second corner goes.
pub(crate) fn take_off(left: &mut Vec<Spot>, inside: &mut Vec<u32>, at: usize)
    requires few { length left.old.items ≤ MOST_EAR_CORNERS }
    requires at { at + 2 < length left.old.items }
    requires counted { AreCounted left.old.items (length left.old.items - 2) inside.old.items }
    ensures left { left.new.items ≡ without left.old.items at }
    ensures counted { AreCounted left.new.items (length left.new.items - 2) inside.new.items }
{
    let gone = left.remove(at + 1);
    inside.remove(at);
    if left.len() > 2 {
        recount(left, gone, at, inside);
    }
}
