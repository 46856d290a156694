//! Ears of a polygon, taken off one after the other. The first and the last corner stay to the end:
//! a polygon of four corners or more that doesn't cross itself has two ears that aren't beside each
//! other (G. H. Meisters, Polygons have ears, 1975), so that one of them is at another corner.
ghost use Rattle.std.specs.Prelude.{◌≡◌, ◌+◌, ◌-◌, ◌<◌, ◌≤◌, length, map, IfOk};
ghost use Rattle.std.specs.Option.{option_map};
ghost use Rattle.pm_ears.specs.declared.cut.TheConstants.{MOST_EAR_CORNERS};
ghost use Rattle.pm_ears.specs.Cutting.{named as named_of, few_ears as few_ears_of};
ghost use Rattle.pm_ears.specs.Ears.{is_ear as is_ear_of, is_flat as is_flat_of, first_from};
ghost use Rattle.pm_ears.specs.Ears.{next_ear as next_ear_of, ears as ears_of};
ghost use Rattle.pm_ears.specs.Counted.{AreCounted};

use crate::OutOfMemory;
use crate::counted::{counts, take_off};
use crate::cut::MOST_EAR_CORNERS;
use crate::fan::named;
use crate::spots::{Spot, triangle_at, twice_area};
use pm_base::Triples;
use std::alloc::Global;

// Whether triangle i is an ear.
fn is_ear(left: &[Spot], inside: &[u32], i: usize) -> bool
    requires in_range { i + 2 < length left.now }
    requires counted { AreCounted left.now (length left.now - 2) inside.now }
    ensures { result ≡ is_ear_of left.now i }
{
    twice_area(triangle_at(left, i)) > 0 && inside[i] == 0
}

// The first ear.
fn first_ear(left: &[Spot], inside: &[u32]) -> Option<usize>
    requires counted { AreCounted left.now (length left.now - 2) inside.now }
    ensures { result ≡ first_from (is_ear_of left.now) 0 (length left.now - 2) }
{
    for i in 0..left.len().saturating_sub(2) {
        if is_ear(left, inside, i) {
            return Some(i);
        }
    }
    None
}

// Whether triangle i has no area.
fn is_flat(left: &[Spot], i: usize) -> bool
    requires in_range { i + 2 < length left.now }
    ensures { result ≡ is_flat_of left.now i }
{
    twice_area(triangle_at(left, i)) == 0
}

// The first triangle without an area.
fn first_flat(left: &[Spot]) -> Option<usize>
    ensures { result ≡ first_from (is_flat_of left.now) 0 (length left.now - 2) }
{
    for i in 0..left.len().saturating_sub(2) {
        if is_flat(left, i) {
            return Some(i);
        }
    }
    None
}

// The triangle that comes off next.
#[tactic(auto, unfolding(crate::specs::Ears::next_ear))]
fn next_ear(left: &[Spot], inside: &[u32]) -> Option<usize>
    requires counted { AreCounted left.now (length left.now - 2) inside.now }
    ensures { result ≡ next_ear_of left.now }
{
    match first_ear(left, inside) {
        Some(at) => Some(at),
        None => first_flat(left),
    }
}

// The triangles that come off until two corners are left; none, if they end before.
fn ears(alloc: Global, spots: &[Spot]) -> Result<Option<Triples>, OutOfMemory>
    requires few { length spots.now ≤ MOST_EAR_CORNERS }
    ensures { IfOk result (λ cut. option_map (λ t. t.items) cut
        ≡ option_map (map named_of) (ears_of (length spots.now - 2) spots.now)) }
{
    let mut left = Vec::with_capacity(alloc, spots.len())?;
    left.extend_from_slice(spots)?;
    let mut inside = counts(alloc, &left)?;
    let mut triangles = Triples::new(alloc);
    for _taken in 2..spots.len() {
        let Some(at) = next_ear(&left, &inside) else {
            return Ok(None);
        };
        triangles.push(named(triangle_at(&left, at)))?;
        take_off(&mut left, &mut inside, at);
    }
    Ok(Some(triangles))
}

// The same, but none of more corners than ears are looked for in.
pub(crate) fn few_ears(alloc: Global, spots: &[Spot]) -> Result<Option<Triples>, OutOfMemory>
    ensures { IfOk result (λ cut. option_map (λ t. t.items) cut
        ≡ option_map (map named_of) (few_ears_of spots.now)) }
{
    if spots.len() > MOST_EAR_CORNERS {
        return Ok(None);
    }
    ears(alloc, spots)
}
