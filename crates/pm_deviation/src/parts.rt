//! Directions in parts of their own lengths.
ghost use Rattle.std.specs.Prelude.{◌≡◌, ℕ, ◌<◌, ◌≤◌, ◌+◌, ◌*◌, ◌^◌, IfSome, unsigned_abs};
ghost use Rattle.pm_base.specs.Geometry.{IsNormal, square_of, norm2_of};
ghost use Rattle.pm_base.specs.Rounded.{root_up};
ghost use Rattle.pm_deviation.specs.Normals.{root_down, share, part_of, unit_box};
ghost use Rattle.pm_deviation.specs.Tables.{IsPart, IsUnitBox};

use crate::roots::{root_down, root_up};
use crate::spread::Spread;
use crate::unit_box::UnitBox;

// The square of a number of a normal.
fn square(v: i64) -> u128
    requires { unsigned_abs v ≤ 8589410312 }
    ensures value { result ≡ square_of (unsigned_abs v) }
    ensures small { result ≤ 8589410312 * 8589410312 }
{
    let size = u128::from(v.unsigned_abs());
    size * size
}

// The squared length of a normal.
fn norm2(x: i64, y: i64, z: i64) -> u128
    requires { IsNormal (record { x = x; y = y; z = z }) }
    ensures value { result ≡ norm2_of (record { x = x; y = y; z = z }) }
    ensures small { result < 2 ^ 68 }
{
    square(x) + square(y) + square(z)
}

// How many 16,384ths a number is of a length between two whole numbers.
fn share(n: u64, short: u64, long: u64) -> Spread
    requires part { n ≤ short }
    requires some { 0 < short }
    requires order { short ≤ long }
    requires small { long ≤ 2 ^ 34 }
    ensures value { result ≡ share n short long }
    ensures small { IsPart result }
{
    let parts = 16_384 * n;
    Spread {
        low: (parts / long) as i32,
        high: parts.div_ceil(short) as i32,
    }
}

// The same of a signed number.
fn part(k: i64, short: u64, long: u64) -> Spread
    requires part { unsigned_abs k ≤ short }
    requires some { 0 < short }
    requires order { short ≤ long }
    requires small { long ≤ 2 ^ 34 }
    ensures value { (square : ℕ) → short ≡ root_down square → long ≡ root_up square
        → result ≡ part_of k square }
    ensures small { IsPart result }
{
    let size = share(k.unsigned_abs(), short, long);
    if k < 0 { size.mirrored() } else { size }
}

/// A normal, or another direction, in parts of its own length; none where it has no length.
pub(crate) fn unit_box(x: i64, y: i64, z: i64) -> Option<UnitBox>
    requires { IsNormal (record { x = x; y = y; z = z }) }
    ensures value { result ≡ unit_box (record { x = x; y = y; z = z }) }
    ensures small { IfSome result IsUnitBox }
{
    let square = norm2(x, y, z);
    if square == 0 {
        return None;
    }
    let short = root_down(square);
    let long = root_up(square, short);
    Some(UnitBox {
        x: part(x, short, long),
        y: part(y, short, long),
        z: part(z, short, long),
    })
}
