//! The fan of a polygon from its first corner.
ghost use Rattle.std.specs.Prelude.{◌≡◌, ◌+◌, ◌<◌, length, map, IfOk};
ghost use Rattle.std.specs.List.{list_any};
ghost use Rattle.pm_ears.specs.Counted.{fan_triangle as fan_triangle_of};
ghost use Rattle.pm_ears.specs.Fans.{fan as fan_of};
ghost use Rattle.pm_ears.specs.Cutting.{is_turned_over as is_turned_over_of};
ghost use Rattle.pm_ears.specs.Cutting.{named as named_of};

use crate::OutOfMemory;
use crate::spots::{Spot, Triangle, twice_area};
use pm_base::{Corners, Triples};
use std::alloc::Global;

// A triangle as positions of corners.
pub(crate) fn named(t: Triangle) -> Corners
    ensures { result ≡ named_of t }
{
    Corners {
        a: t.a.position,
        b: t.b.position,
        c: t.c.position,
    }
}

// The triangle of the first corner, corner i and the next.
fn fan_triangle(spots: &[Spot], i: usize) -> Triangle
    requires { i + 1 < length spots.now }
    ensures { result ≡ fan_triangle_of spots.now i }
{
    Triangle {
        a: spots[0],
        b: spots[i],
        c: spots[i + 1],
    }
}

// The triangles of the first corner and each two that follow one another after it.
pub(crate) fn fan(alloc: Global, spots: &[Spot]) -> Result<Triples, OutOfMemory>
    ensures { IfOk result (λ fan. fan.items ≡ map named_of (fan_of spots.now)) }
{
    let mut fan = Triples::new(alloc);
    for i in 1..spots.len().saturating_sub(1) {
        fan.push(named(fan_triangle(spots, i)))?;
    }
    Ok(fan)
}

// Whether a triangle of the fan is turned over.
fn is_turned_over(spots: &[Spot], i: usize) -> bool
    requires { i + 1 < length spots.now }
    ensures { result ≡ is_turned_over_of (fan_triangle_of spots.now i) }
{
    twice_area(fan_triangle(spots, i)) < 0
}

// Whether one of them is.
pub(crate) fn overlaps(spots: &[Spot]) -> bool
    ensures { result ≡ list_any is_turned_over_of (fan_of spots.now) }
{
    for i in 1..spots.len().saturating_sub(1) {
        if is_turned_over(spots, i) {
            return true;
        }
    }
    false
}
