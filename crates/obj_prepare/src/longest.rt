//! The longest axis of a box, and the vertices at its ends.
ghost use Rattle.std.specs.Prelude.{◌≡◌, ◌≤◌, length, IfOk};
ghost use Rattle.pm_base.specs.declared.limits.TheConstants.{MOST_VERTICES};
ghost use Rattle.obj_prepare.specs.Longest.{coordinate_on, is_at, first_at as first_at_of};
ghost use Rattle.obj_prepare.specs.Longest.{longest_by, longest_of};
ghost use Rattle.obj_prepare.specs.Longest.{longest_axis as longest_axis_of};
ghost use Rattle.obj_prepare.specs.Named.{IsWithinMesh};

use crate::extents::{PointBox, extent, way};
use crate::named::named;
use crate::{ExactPoint, OutOfMemory};
use pm_base::Corners;
use std::alloc::Global;

/// An axis of space.
#[derive(Clone, Copy, Debug, PartialEq, Eq)]
pub enum Axis {
    X,
    Y,
    Z,
}

/// The longest axis of a box, and the first vertices at its lower and its upper end.
#[derive(Clone, Copy, Debug, PartialEq, Eq)]
pub struct LongestAxis {
    pub axis: Axis,
    pub low: u32,
    pub high: u32,
}

fn coordinate_on(axis: Axis, p: &ExactPoint) -> i128
    ensures { result ≡ coordinate_on axis p.now }
{
    match axis {
        Axis::X => p.x(),
        Axis::Y => p.y(),
        Axis::Z => p.z(),
    }
}

// Of three axes of which the longest is so long, and x and y so, the first that is as long.
#[tactic(auto, unfolding(crate::specs::Longest::longest_by))]
fn longest_by(x: u128, y: u128, most: u128) -> Axis
    ensures { result ≡ longest_by x y most }
{
    if x == most {
        Axis::X
    } else if y == most {
        Axis::Y
    } else {
        Axis::Z
    }
}

// The first axis that is as long as the longest.
#[tactic(auto, unfolding(crate::specs::Longest::longest_of))]
fn longest_of(b: &PointBox) -> Axis
    ensures { result ≡ longest_of b.now }
{
    let x = way(b.low.x(), b.high.x());
    let y = way(b.low.y(), b.high.y());
    longest_by(x, y, extent(b))
}

// Whether a point whose flag is set has this coordinate on an axis.
fn is_at(axis: Axis, n: i128, named: bool, p: &ExactPoint) -> bool
    ensures { result ≡ is_at axis n named p.now }
{
    named && coordinate_on(axis, p) == n
}

// The first vertex whose flag is set with this coordinate on an axis, or how many there are.
#[tactic(auto, using(crate::proofs::LongestLaws::first_here, crate::proofs::LongestLaws::first_past, crate::proofs::LongestLaws::first_none))]
fn first_at(axis: Axis, n: i128, named: &[bool], points: &[ExactPoint]) -> u32
    requires flags { length named.now ≡ length points.now }
    requires few { length points.now ≤ MOST_VERTICES }
    ensures { result ≡ first_at_of axis n named.now points.now }
{
    for at in 0..points.len() {
        if is_at(axis, n, named[at], &points[at]) {
            return at as u32;
        }
    }
    points.len() as u32
}

/// The longest axis of the box of the points that triangles name, and the first of these points at
/// each of its ends. O(V + F) for V points and F triangles.
#[tactic(auto, unfolding(crate::specs::Longest::longest_axis))]
pub fn longest_axis(
    alloc: Global,
    b: &PointBox,
    points: &[ExactPoint],
    faces: &[Corners],
) -> Result<LongestAxis, OutOfMemory>
    requires { IsWithinMesh (length points.now) faces.now }
    ensures { IfOk result (λ l. l ≡ longest_axis_of b.now points.now faces.now) }
{
    let named = named(alloc, points.len(), faces)?;
    let axis = longest_of(b);
    let low = first_at(axis, coordinate_on(axis, &b.low), &named, points);
    let high = first_at(axis, coordinate_on(axis, &b.high), &named, points);
    Ok(LongestAxis { axis, low, high })
}
