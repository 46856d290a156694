//! The plane of two axes on which a polygon is cut: the one that shows its largest area.
ghost use Rattle.std.specs.Prelude.{◌≡◌, ◌+◌, ◌<◌, ◌≤◌, ◌^◌, ◌+ℤ◌, length, slice_index_or};
ghost use Rattle.std.specs.Prelude.{unsigned_abs, IfOk};
ghost use Rattle.pm_base.specs.declared.limits.TheConstants.{MOST_FACES};
ghost use Rattle.pm_ears.specs.Areas.{nowhere, cross_of, along};
ghost use Rattle.pm_ears.specs.Planes.{across as across_of, spot_of, spots_on, newell};
ghost use Rattle.pm_ears.specs.Planes.{facing as facing_of, largest_of, plane_by, plane_of};

use crate::OutOfMemory;
use crate::seen::first_seen;
use crate::spots::{Spot, cross};
use pm_base::Point;
use std::alloc::Global;

/// An axis of space.
#[derive(Clone, Copy, Debug, PartialEq, Eq)]
pub enum Axis {
    X,
    Y,
    Z,
}

/// The plane of the two axes beside `across`, as it is seen against that axis, or mirrored.
#[derive(Clone, Copy, Debug, PartialEq, Eq)]
pub struct Plane {
    pub across: Axis,
    pub mirrored: bool,
}

// A coordinate in 16 bits.
fn narrow(x: i32) -> i16
    requires { unsigned_abs x ≤ 32767 }
    ensures { result ≡ x }
{
    x as i16
}

// Where the point of the corner at a position is seen along an axis.
fn across(axis: Axis, position: u32, point: Point) -> Spot
    ensures { result ≡ across_of axis position point }
{
    match axis {
        Axis::X => Spot {
            position,
            x: narrow(point.y()),
            y: narrow(point.z()),
        },
        Axis::Y => Spot {
            position,
            x: narrow(point.z()),
            y: narrow(point.x()),
        },
        Axis::Z => Spot {
            position,
            x: narrow(point.x()),
            y: narrow(point.y()),
        },
    }
}

// Where it stands on a plane.
#[tactic(auto, unfolding(crate::specs::Planes::spot_of))]
pub(crate) fn spot_at(plane: Plane, position: u32, point: Point) -> Spot
    ensures { result ≡ spot_of plane position point }
{
    let seen = across(plane.across, position, point);
    if plane.mirrored {
        Spot {
            position,
            x: seen.y,
            y: seen.x,
        }
    } else {
        seen
    }
}

// Twice the signed area of the triangle of the middle and two corners.
fn cross_at(plane: Plane, points: &[Point], p: usize, q: usize) -> i64
    requires few { length points.now ≤ MOST_FACES + 2 }
    requires p { p < length points.now }
    requires q { q < length points.now }
    ensures value { result ≡ cross_of (slice_index_or (spots_on plane 0 points.now) p nowhere)
        (slice_index_or (spots_on plane 0 points.now) q nowhere) }
    ensures small { unsigned_abs result ≤ 2 ^ 31 }
{
    cross(
        spot_at(plane, p as u32, points[p]),
        spot_at(plane, q as u32, points[q]),
    )
}

// Where the corners stand on a plane.
pub(crate) fn spots(alloc: Global, plane: Plane, points: &[Point]) -> Result<Vec<Spot>, OutOfMemory>
    requires { length points.now ≤ MOST_FACES + 2 }
    ensures { IfOk result (λ spots. spots.items ≡ spots_on plane 0 points.now) }
{
    let mut spots = Vec::with_capacity(alloc, points.len())?;
    for i in 0..points.len() {
        spots.push(spot_at(plane, i as u32, points[i]))?;
    }
    Ok(spots)
}

// The sum of areas and one more.
fn add(sum: i64, area: i64) -> i64
    requires sum { unsigned_abs sum ≤ 2 ^ 52 }
    requires area { unsigned_abs area ≤ 2 ^ 31 }
    ensures value { result ≡ sum +ℤ area }
    ensures small { unsigned_abs result ≤ unsigned_abs sum + 2 ^ 31 }
{
    sum + area
}

// Twice the signed area of what a path over all corners sees from the middle.
fn area_along(plane: Plane, points: &[Point]) -> i64
    requires { length points.now ≤ MOST_FACES + 2 }
    ensures value { result ≡ along (spots_on plane 0 points.now) }
    ensures small { unsigned_abs result ≤ 2 ^ 52 }
{
    let mut sum = 0;
    for i in 0..points.len().saturating_sub(1) {
        sum = add(sum, cross_at(plane, points, i, i + 1));
    }
    sum
}

// Twice the signed area of a polygon as it is seen along an axis.
fn area_within(across: Axis, points: &[Point]) -> i64
    requires { length points.now ≤ MOST_FACES + 2 }
    ensures { result ≡ newell across points.now }
{
    let plane = Plane {
        across,
        mirrored: false,
    };
    if points.is_empty() {
        return 0;
    }
    let last = points.len() - 1;
    add(area_along(plane, points), cross_at(plane, points, last, 0))
}

// The plane across an axis on which this area isn't below 0.
fn facing(across: Axis, area: i64) -> Plane
    ensures { result ≡ facing_of across area }
{
    Plane {
        across,
        mirrored: area < 0,
    }
}

// The plane of the greatest of three areas, the first of equal ones.
#[tactic(auto, unfolding(crate::specs::Planes::largest_of))]
fn largest(x: i64, y: i64, z: i64) -> Plane
    ensures { result ≡ largest_of x y z }
{
    if x.unsigned_abs() >= y.unsigned_abs() && x.unsigned_abs() >= z.unsigned_abs() {
        facing(Axis::X, x)
    } else if y.unsigned_abs() >= z.unsigned_abs() {
        facing(Axis::Y, y)
    } else {
        facing(Axis::Z, z)
    }
}

// The plane of a polygon's three areas, and where all are 0 the first that shows a triangle.
#[tactic(auto, unfolding(crate::specs::Planes::plane_by))]
fn plane_by_areas(x: i64, y: i64, z: i64, points: &[Point]) -> Plane
    requires { length points.now ≤ MOST_FACES + 2 }
    ensures { result ≡ plane_by x y z points.now }
{
    if x == 0 && y == 0 && z == 0 {
        return Plane {
            across: first_seen(points),
            mirrored: false,
        };
    }
    largest(x, y, z)
}

// The plane on which a polygon is cut.
pub(crate) fn cutting_plane(points: &[Point]) -> Plane
    requires { length points.now ≤ MOST_FACES + 2 }
    ensures { result ≡ plane_of points.now }
{
    let x = area_within(Axis::X, points);
    let y = area_within(Axis::Y, points);
    let z = area_within(Axis::Z, points);
    plane_by_areas(x, y, z, points)
}
