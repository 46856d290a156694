//! Places on a grid 4,096 times as fine.
ghost use Rattle.std.specs.Prelude.{◌≡◌, ◌*◌, ◌^◌, ◌<◌, ◌≤◌, ◌+ℤ◌, ◌-ℤ◌, true, unsigned_abs, IfOk};
ghost use Rattle.pm_base.specs.declared.limits.TheConstants.{GREATEST_COORDINATE};
ghost use Rattle.obj_prepare.specs.Boxes.{along, off_middle, scaled};
ghost use Rattle.obj_prepare.specs.Numbers.{nearest};
ghost use Rattle.obj_fit.specs.Fine.{is_between, is_in_box, fine_place, fine_places};

use obj_prepare::{ExactPoint, PointBox, extent, nearest};
use std::alloc::{AllocError, Global};
use std::marker::Model;

// How many of its steps are one of the grid's.
const FINER: u128 = 4096;

/// A place on the fine grid. Each coordinate is at most 2^27 away from 0, which the type keeps.
#[derive(Clone, Copy, Debug, PartialEq, Eq)]
pub struct FinePoint {
    x: i32,
    y: i32,
    z: i32,
}

impl Model for FinePoint {
    ghost use Rattle.pm_base.specs.Place.{Place};
    ghost use Rattle.obj_fit.specs.Fine.{IsFine};

    ghost Value = { Place };

    ghost view = { λ p. record { x = p.x; y = p.y; z = p.z } };

    ghost invariant = { λ p. IsFine (record { x = p.x; y = p.y; z = p.z }) };

    ghost inverse = { λ p. record { x = p.x; y = p.y; z = p.z } };
}

impl FinePoint {
    pub(crate) fn x(&self) -> i32
        ensures value { result ≡ self.now.x }
        ensures small { unsigned_abs result ≤ 2 ^ 27 }
    {
        self.x
    }

    pub(crate) fn y(&self) -> i32
        ensures value { result ≡ self.now.y }
        ensures small { unsigned_abs result ≤ 2 ^ 27 }
    {
        self.y
    }

    pub(crate) fn z(&self) -> i32
        ensures value { result ≡ self.now.z }
        ensures small { unsigned_abs result ≤ 2 ^ 27 }
    {
        self.z
    }
}

// The whole number nearest to 4,096 quotients, halves up. The product with 4,096 may pass 128 bits,
// so the quotient and what is over are taken apart.
#[tactic(auto, using(crate::proofs::FineLaws::fine_nearest, crate::proofs::FineLaws::few_quotients, crate::proofs::FineLaws::rest_within))]
fn fine_nearest(n: u128, d: u128) -> u128
    requires positive { 0 < d }
    requires least { d ≤ 2 * 10 ^ 32 }
    requires few { n ≤ GREATEST_COORDINATE * d }
    ensures value { result ≡ nearest (4096 * n) d }
    ensures few { result ≤ 2 ^ 27 }
{
    FINER * (n / d) + nearest(FINER * (n % d), d)
}

// A size times twice a way from the middle of a box.
#[tactic(auto, using(crate::proofs::FineLaws::stretched_most))]
fn stretched(size: u32, way: u128, extent: u128) -> u128
    requires size { size ≤ GREATEST_COORDINATE }
    requires extent { extent ≤ 2 * 10 ^ 32 }
    requires way { way ≤ extent }
    ensures value { result ≡ size * way }
    ensures few { result ≤ GREATEST_COORDINATE * extent }
{
    u128::from(size) * way
}

// A way from the middle along one axis of the fine grid.
fn fine_way(size: u32, extent: u128, way: u128) -> u128
    requires size { size ≤ GREATEST_COORDINATE }
    requires positive { 0 < extent }
    requires extent { extent ≤ 2 * 10 ^ 32 }
    requires within { way ≤ extent }
    ensures value { result ≡ nearest (4096 * size * way) extent }
    ensures few { result ≤ 2 ^ 27 }
{
    fine_nearest(stretched(size, way, extent), extent)
}

// The place of a coordinate along one axis of the fine grid: `off` is twice its way from the
// middle.
#[tactic(auto, unfolding(obj_prepare::specs::Boxes::along))]
fn fine_along(size: u32, extent: u128, off: i128) -> i32
    requires size { size ≤ GREATEST_COORDINATE }
    requires positive { 0 < extent }
    requires extent { extent ≤ 2 * 10 ^ 32 }
    requires within { unsigned_abs off ≤ extent }
    ensures value { result ≡ along (4096 * size) extent off }
    ensures within { unsigned_abs result ≤ 2 ^ 27 }
{
    let n = fine_way(size, extent, off.unsigned_abs()) as i32;
    if off < 0 { -n } else { n }
}

// Twice a coordinate.
fn twice(n: i128) -> i128
    requires { unsigned_abs n ≤ 10 ^ 32 }
    ensures value { result ≡ n +ℤ n }
    ensures most { unsigned_abs result ≤ 2 * 10 ^ 32 }
{
    n + n
}

// The sum of the ends of an axis.
fn ends(low: i128, high: i128) -> i128
    requires low { unsigned_abs low ≤ 10 ^ 32 }
    requires high { unsigned_abs high ≤ 10 ^ 32 }
    ensures value { result ≡ low +ℤ high }
    ensures most { unsigned_abs result ≤ 2 * 10 ^ 32 }
{
    low + high
}

// The difference of two such numbers.
fn minus(m: i128, n: i128) -> i128
    requires m { unsigned_abs m ≤ 2 * 10 ^ 32 }
    requires n { unsigned_abs n ≤ 2 * 10 ^ 32 }
    ensures { result ≡ m -ℤ n }
{
    m - n
}

// Twice the way of a coordinate from the middle of an axis.
fn off_middle(n: i128, low: i128, high: i128) -> i128
    requires n { unsigned_abs n ≤ 10 ^ 32 }
    requires low { unsigned_abs low ≤ 10 ^ 32 }
    requires high { unsigned_abs high ≤ 10 ^ 32 }
    ensures { result ≡ off_middle n low high }
{
    minus(twice(n), ends(low, high))
}

fn is_between(low: i128, n: i128, high: i128) -> bool
    ensures { result ≡ is_between low n high }
{
    low <= n && n <= high
}

// Whether a point is in a box along each axis.
fn is_within_x(b: &PointBox, p: &ExactPoint) -> bool
    ensures { result ≡ is_between b.now.low.x p.now.x b.now.high.x }
{
    is_between(b.low.x(), p.x(), b.high.x())
}

fn is_within_y(b: &PointBox, p: &ExactPoint) -> bool
    ensures { result ≡ is_between b.now.low.y p.now.y b.now.high.y }
{
    is_between(b.low.y(), p.y(), b.high.y())
}

fn is_within_z(b: &PointBox, p: &ExactPoint) -> bool
    ensures { result ≡ is_between b.now.low.z p.now.z b.now.high.z }
{
    is_between(b.low.z(), p.z(), b.high.z())
}

fn is_in_box(b: &PointBox, p: &ExactPoint) -> bool
    ensures { result ≡ is_in_box b.now p.now }
{
    is_within_x(b, p) && is_within_y(b, p) && is_within_z(b, p)
}

// The place of a coordinate of the box along an axis that is no longer than the extent.
#[tactic(auto, using(crate::proofs::FineLaws::between_within))]
fn place_along(size: u32, extent: u128, low: i128, n: i128, high: i128) -> i32
    requires size { size ≤ GREATEST_COORDINATE }
    requires positive { 0 < extent }
    requires extent { extent ≤ 2 * 10 ^ 32 }
    requires n { unsigned_abs n ≤ 10 ^ 32 }
    requires low { unsigned_abs low ≤ 10 ^ 32 }
    requires high { unsigned_abs high ≤ 10 ^ 32 }
    requires between { is_between low n high ≡ true }
    requires long { unsigned_abs (high -ℤ low) ≤ extent }
    ensures value { result ≡ along (4096 * size) extent (off_middle n low high) }
    ensures within { unsigned_abs result ≤ 2 ^ 27 }
{
    fine_along(size, extent, off_middle(n, low, high))
}

// The place of a point along each axis.
#[tactic(auto, using(crate::proofs::FineLaws::between_x))]
fn place_x(size: u32, extent: u128, b: &PointBox, p: &ExactPoint) -> i32
    requires size { size ≤ GREATEST_COORDINATE }
    requires positive { 0 < extent }
    requires extent { extent ≤ 2 * 10 ^ 32 }
    requires inside { is_in_box b.now p.now ≡ true }
    requires long { unsigned_abs (b.now.high.x -ℤ b.now.low.x) ≤ extent }
    ensures value { result ≡ along (4096 * size) extent
        (off_middle p.now.x b.now.low.x b.now.high.x) }
    ensures within { unsigned_abs result ≤ 2 ^ 27 }
{
    place_along(size, extent, b.low.x(), p.x(), b.high.x())
}

#[tactic(auto, using(crate::proofs::FineLaws::between_y))]
fn place_y(size: u32, extent: u128, b: &PointBox, p: &ExactPoint) -> i32
    requires size { size ≤ GREATEST_COORDINATE }
    requires positive { 0 < extent }
    requires extent { extent ≤ 2 * 10 ^ 32 }
    requires inside { is_in_box b.now p.now ≡ true }
    requires long { unsigned_abs (b.now.high.y -ℤ b.now.low.y) ≤ extent }
    ensures value { result ≡ along (4096 * size) extent
        (off_middle p.now.y b.now.low.y b.now.high.y) }
    ensures within { unsigned_abs result ≤ 2 ^ 27 }
{
    place_along(size, extent, b.low.y(), p.y(), b.high.y())
}

#[tactic(auto, using(crate::proofs::FineLaws::between_z))]
fn place_z(size: u32, extent: u128, b: &PointBox, p: &ExactPoint) -> i32
    requires size { size ≤ GREATEST_COORDINATE }
    requires positive { 0 < extent }
    requires extent { extent ≤ 2 * 10 ^ 32 }
    requires inside { is_in_box b.now p.now ≡ true }
    requires long { unsigned_abs (b.now.high.z -ℤ b.now.low.z) ≤ extent }
    ensures value { result ≡ along (4096 * size) extent
        (off_middle p.now.z b.now.low.z b.now.high.z) }
    ensures within { unsigned_abs result ≤ 2 ^ 27 }
{
    place_along(size, extent, b.low.z(), p.z(), b.high.z())
}

// The fine place with these coordinates.
fn fine_point(x: i32, y: i32, z: i32) -> FinePoint
    requires x { unsigned_abs x ≤ 2 ^ 27 }
    requires y { unsigned_abs y ≤ 2 ^ 27 }
    requires z { unsigned_abs z ≤ 2 ^ 27 }
    ensures { result ≡ record { x = x; y = y; z = z } }
{
    FinePoint { x, y, z }
}

// The place of a point of the box on the fine grid.
#[tactic(auto, unfolding(obj_prepare::specs::Boxes::scaled))]
fn scaled_finely(size: u32, b: &PointBox, p: &ExactPoint) -> FinePoint
    requires size { size ≤ GREATEST_COORDINATE }
    requires inside { is_in_box b.now p.now ≡ true }
    ensures { result ≡ scaled (4096 * size) b.now p.now }
{
    let e = extent(b);
    if e == 0 {
        return fine_point(0, 0, 0);
    }
    let x = place_x(size, e, b, p);
    let y = place_y(size, e, b, p);
    let z = place_z(size, e, b, p);
    fine_point(x, y, z)
}

// The place of a point of the box on the fine grid, and 0 for others.
#[tactic(auto, unfolding(crate::specs::Fine::fine_place))]
fn fine_place(size: u32, b: &PointBox, p: &ExactPoint) -> FinePoint
    requires { size ≤ GREATEST_COORDINATE }
    ensures { result ≡ fine_place size b.now p.now }
{
    if is_in_box(b, p) {
        scaled_finely(size, b, p)
    } else {
        fine_point(0, 0, 0)
    }
}

/// The place of each point of the box on a grid that is 4,096 times as fine, and 0 for others.
pub(crate) fn fine_places(
    alloc: Global,
    size: u32,
    b: &PointBox,
    points: &[ExactPoint],
) -> Result<Vec<FinePoint>, AllocError>
    requires { size ≤ GREATEST_COORDINATE }
    ensures { IfOk result (λ fine. fine.items ≡ fine_places size b.now points.now) }
{
    let mut fine = Vec::new(alloc);
    for p in points {
        fine.push(fine_place(size, b, p))?;
    }
    Ok(fine)
}
