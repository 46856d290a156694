//! The box of points, and their places on the grid.
ghost use Rattle.std.specs.Prelude.{◌≡◌, ◌≤◌, ◌<◌, ◌*◌, ◌^◌, ℤ, ◌+ℤ◌, ◌-ℤ◌, ◌≤ℤ◌, unsigned_abs};
ghost use Rattle.pm_base.specs.declared.limits.TheConstants.{GREATEST_COORDINATE};
ghost use Rattle.obj_prepare.specs.Boxes.{along, off_middle, box_of_points, extent, scaled};
ghost use Rattle.obj_prepare.specs.Boxes.{IsInBox};

use crate::exact::ExactPoint;
use crate::scale::along;
use pm_base::Point;

/// The box of points: their least and their greatest coordinate on each axis.
#[derive(Clone, Copy, Debug, PartialEq, Eq)]
pub struct PointBox {
    pub low: ExactPoint,
    pub high: ExactPoint,
}

/// The box of a point and more.
pub fn box_of(first: &ExactPoint, rest: &[ExactPoint]) -> PointBox
    ensures { result ≡ box_of_points first.now rest.now }
{
    let mut low = *first;
    let mut high = *first;
    for p in rest {
        low = low.lower(p);
        high = high.upper(p);
    }
    PointBox { low, high }
}

/// The way from one end of an axis to the other.
pub(crate) fn way(low: i128, high: i128) -> u128
    requires low { unsigned_abs low ≤ 10 ^ 32 }
    requires high { unsigned_abs high ≤ 10 ^ 32 }
    ensures value { result ≡ unsigned_abs (high -ℤ low) }
    ensures most { result ≤ 2 * 10 ^ 32 }
{
    (high - low).unsigned_abs()
}

/// How long the longest axis of a box is, in units.
#[tactic(auto, unfolding(crate::specs::Boxes::extent))]
pub fn extent(b: &PointBox) -> u128
    ensures value { result ≡ extent b.now }
    ensures most { result ≤ 2 * 10 ^ 32 }
    ensures x { unsigned_abs (b.now.high.x -ℤ b.now.low.x) ≤ result }
    ensures y { unsigned_abs (b.now.high.y -ℤ b.now.low.y) ≤ result }
    ensures z { unsigned_abs (b.now.high.z -ℤ b.now.low.z) ≤ result }
{
    let x = way(b.low.x(), b.high.x());
    let y = way(b.low.y(), b.high.y());
    let z = way(b.low.z(), b.high.z());
    x.max(y).max(z)
}

// Twice a coordinate.
fn twice(n: i128) -> i128
    requires { unsigned_abs n ≤ 10 ^ 32 }
    ensures value { result ≡ n +ℤ n }
    ensures most { unsigned_abs result ≤ 2 * 10 ^ 32 }
{
    n + n
}

// The sum of the ends of an axis.
fn ends(low: i128, high: i128) -> i128
    requires low { unsigned_abs low ≤ 10 ^ 32 }
    requires high { unsigned_abs high ≤ 10 ^ 32 }
    ensures value { result ≡ low +ℤ high }
    ensures most { unsigned_abs result ≤ 2 * 10 ^ 32 }
{
    low + high
}

// The difference of two such numbers.
fn minus(m: i128, n: i128) -> i128
    requires m { unsigned_abs m ≤ 2 * 10 ^ 32 }
    requires n { unsigned_abs n ≤ 2 * 10 ^ 32 }
    ensures { result ≡ m -ℤ n }
{
    m - n
}

// Twice the way of a coordinate from the middle of an axis.
fn off_middle(n: i128, low: i128, high: i128) -> i128
    requires n { unsigned_abs n ≤ 10 ^ 32 }
    requires low { unsigned_abs low ≤ 10 ^ 32 }
    requires high { unsigned_abs high ≤ 10 ^ 32 }
    ensures { result ≡ off_middle n low high }
{
    minus(twice(n), ends(low, high))
}

// The place of a coordinate along an axis that is no longer than the extent.
#[tactic(auto, using(crate::proofs::BoxLaws::off_within))]
fn place_along(size: u32, extent: u128, n: i128, low: i128, high: i128) -> i32
    requires size { size ≤ GREATEST_COORDINATE }
    requires positive { 0 < extent }
    requires extent { extent ≤ 2 * 10 ^ 32 }
    requires n { unsigned_abs n ≤ 10 ^ 32 }
    requires low { unsigned_abs low ≤ 10 ^ 32 }
    requires high { unsigned_abs high ≤ 10 ^ 32 }
    requires above { low ≤ℤ n }
    requires below { n ≤ℤ high }
    requires long { unsigned_abs (high -ℤ low) ≤ extent }
    ensures value { result ≡ along size extent (off_middle n low high) }
    ensures within { unsigned_abs result ≤ GREATEST_COORDINATE }
{
    along(size, extent, off_middle(n, low, high))
}

// The place of a point along each axis of a box that is no longer than the extent.
fn place_x(size: u32, extent: u128, b: &PointBox, p: &ExactPoint) -> i32
    requires size { size ≤ GREATEST_COORDINATE }
    requires positive { 0 < extent }
    requires extent { extent ≤ 2 * 10 ^ 32 }
    requires inside { IsInBox b.now p.now }
    requires long { unsigned_abs (b.now.high.x -ℤ b.now.low.x) ≤ extent }
    ensures value { result ≡ along size extent (off_middle p.now.x b.now.low.x b.now.high.x) }
    ensures within { unsigned_abs result ≤ GREATEST_COORDINATE }
{
    place_along(size, extent, p.x(), b.low.x(), b.high.x())
}

fn place_y(size: u32, extent: u128, b: &PointBox, p: &ExactPoint) -> i32
    requires size { size ≤ GREATEST_COORDINATE }
    requires positive { 0 < extent }
    requires extent { extent ≤ 2 * 10 ^ 32 }
    requires inside { IsInBox b.now p.now }
    requires long { unsigned_abs (b.now.high.y -ℤ b.now.low.y) ≤ extent }
    ensures value { result ≡ along size extent (off_middle p.now.y b.now.low.y b.now.high.y) }
    ensures within { unsigned_abs result ≤ GREATEST_COORDINATE }
{
    place_along(size, extent, p.y(), b.low.y(), b.high.y())
}

fn place_z(size: u32, extent: u128, b: &PointBox, p: &ExactPoint) -> i32
    requires size { size ≤ GREATEST_COORDINATE }
    requires positive { 0 < extent }
    requires extent { extent ≤ 2 * 10 ^ 32 }
    requires inside { IsInBox b.now p.now }
    requires long { unsigned_abs (b.now.high.z -ℤ b.now.low.z) ≤ extent }
    ensures value { result ≡ along size extent (off_middle p.now.z b.now.low.z b.now.high.z) }
    ensures within { unsigned_abs result ≤ GREATEST_COORDINATE }
{
    place_along(size, extent, p.z(), b.low.z(), b.high.z())
}

/// The point of the grid with these coordinates.
pub(crate) fn point(x: i32, y: i32, z: i32) -> Point
    requires x { unsigned_abs x ≤ GREATEST_COORDINATE }
    requires y { unsigned_abs y ≤ GREATEST_COORDINATE }
    requires z { unsigned_abs z ≤ GREATEST_COORDINATE }
    ensures { result ≡ record { x = x; y = y; z = z } }
{
    let Some(point) = Point::new(x, y, z) else {
        unreachable!()
    };
    point
}

/// The place of a point of a box, with the longest axis scaled to go from -size to size: the
/// nearest on the grid, halves away from 0.
#[tactic(auto, unfolding(crate::specs::Boxes::scaled))]
pub fn scaled(size: u32, b: &PointBox, p: &ExactPoint) -> Point
    requires size { size ≤ GREATEST_COORDINATE }
    requires within { IsInBox b.now p.now }
    ensures { result ≡ scaled size b.now p.now }
{
    let e = extent(b);
    if e == 0 {
        return point(0, 0, 0);
    }
    let x = place_x(size, e, b, p);
    let y = place_y(size, e, b, p);
    let z = place_z(size, e, b, p);
    point(x, y, z)
}
