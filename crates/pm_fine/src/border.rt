//! Normals of the planes that stand on a border: without them nothing holds a border where it is.
ghost use Rattle.std.specs.Prelude.{ℕ, ◌≡◌, ◌<◌, ◌≤◌, ◌+◌, ◌-◌, ◌*◌, ◌^◌, pos, ◌-ℤ◌, ◌*ℤ◌};
ghost use Rattle.std.specs.Prelude.{unsigned_abs};
ghost use Rattle.pm_base.specs.declared.limits.TheConstants.{GREATEST_COORDINATE};
ghost use Rattle.pm_base.specs.Geometry.{IsNormal, square_of};
ghost use Rattle.pm_fine.specs.Rounded.{near, root};
ghost use Rattle.pm_fine.specs.Normals.{IsWithin, border_normal_of};

use crate::FineNormal;
use crate::area::norm2;
use crate::rounding::{near_wide, root};
use pm_base::{Normal, Point};

// How far x is above y.
fn above(x: i32, y: i32) -> i64
    requires x_small { unsigned_abs x ≤ GREATEST_COORDINATE }
    requires y_small { unsigned_abs y ≤ GREATEST_COORDINATE }
    ensures value { result ≡ x -ℤ y }
    ensures small { unsigned_abs result ≤ 65534 }
{
    i64::from(x) - i64::from(y)
}

// A number of the way along a side times one of a normal.
fn product(a: i64, b: i64) -> i64
    requires a_small { unsigned_abs a ≤ 65534 }
    requires b_small { unsigned_abs b ≤ 8589410312 }
    ensures value { result ≡ a *ℤ b }
    ensures small { unsigned_abs result ≤ 2 ^ 49 }
{
    a * b
}

// The difference of two such products.
fn minus(a: i64, b: i64) -> i64
    requires a_small { unsigned_abs a ≤ 2 ^ 49 }
    requires b_small { unsigned_abs b ≤ 2 ^ 49 }
    ensures value { result ≡ a -ℤ b }
    ensures small { unsigned_abs result ≤ 2 ^ 50 }
{
    a - b
}

// The determinant of two numbers of the way and two of the normal.
fn minor(a: i64, b: i64, c: i64, d: i64) -> i64
    requires a_small { unsigned_abs a ≤ 65534 }
    requires b_small { unsigned_abs b ≤ 65534 }
    requires c_small { unsigned_abs c ≤ 8589410312 }
    requires d_small { unsigned_abs d ≤ 8589410312 }
    ensures value { result ≡ a *ℤ d -ℤ b *ℤ c }
    ensures small { unsigned_abs result ≤ 2 ^ 50 }
    ensures square { (q : ℕ) → square_of (unsigned_abs c) + square_of (unsigned_abs d) ≤ q
        → square_of (unsigned_abs result) ≤ 8589410312 * q }
{
    minus(product(a, d), product(b, c))
}

// 2^12 times a length, whose square is given, rounded down.
fn fine_length(square: u128) -> u64
    requires some { 0 < square }
    requires small { square ≤ 3 * 2 ^ 66 }
    ensures value { result ≡ root (square * 2 ^ 24) }
    ensures some { 4096 ≤ result }
    ensures small { result < 2 ^ 46 }
    ensures reaches { (m : ℕ) → square_of m ≤ 8589410312 * square
        → m * 2883584 ≤ 67108863 * (2 * result) }
{
    root(square * 16_777_216)
}

// A number of a product brought to its length.
fn part(m: i64, length: u64) -> i32
    requires m_small { unsigned_abs m ≤ 2 ^ 50 }
    requires some { 0 < length }
    requires small { length < 2 ^ 46 }
    requires reaches { unsigned_abs m * 2883584 ≤ 67108863 * (2 * length) }
    ensures value { result ≡ near (pos 2883584 *ℤ m) (2 * length) }
    ensures small { unsigned_abs result ≤ 2 ^ 26 - 1 }
{
    near_wide(2_883_584 * i128::from(m), 2 * length) as i32
}

/// The normal of the plane along the side from a to b that stands square to a face with normal n
/// (as `cross` gives it), brought to 352 times the side's length. Without a face's area there is no
/// plane.
pub fn border_normal(a: Point, b: Point, n: Normal) -> FineNormal
    requires { IsNormal (record { x = n.x; y = n.y; z = n.z }) }
    ensures value { result ≡ border_normal_of a b (record { x = n.x; y = n.y; z = n.z }) }
    ensures small { IsWithin (2 ^ 26 - 1) result }
{
    let square = norm2(n);
    if square == 0 {
        return FineNormal::zero();
    }
    let x = above(b.x(), a.x());
    let y = above(b.y(), a.y());
    let z = above(b.z(), a.z());
    let length = fine_length(square);
    FineNormal::new(
        part(minor(y, z, n.y, n.z), length),
        part(minor(z, x, n.z, n.x), length),
        part(minor(x, y, n.x, n.y), length),
    )
}
