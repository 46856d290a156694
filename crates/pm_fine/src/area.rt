//! Normals of faces by area: as long as the root of what a normal by `cross` is, so that a plane's
//! squared value at a point is the squared distance times the face's area.
ghost use Rattle.std.specs.Prelude.{ℕ, ◌≡◌, ◌<◌, ◌≤◌, ◌-◌, ◌*◌, ◌^◌, pos, ◌*ℤ◌, unsigned_abs};
ghost use Rattle.pm_base.specs.Geometry.{IsNormal, square_of, norm2_of};
ghost use Rattle.pm_fine.specs.Rounded.{near, root};
ghost use Rattle.pm_fine.specs.Normals.{IsWithin, area_normal_of};

use crate::FineNormal;
use crate::rounding::{inverse_of, near, root};
use pm_base::Normal;

// The square of a number of a normal.
fn square(a: i64) -> u128
    requires { unsigned_abs a ≤ 8589410312 }
    ensures value { result ≡ square_of (unsigned_abs a) }
    ensures small { result ≤ 2 ^ 66 }
{
    let size = u128::from(a.unsigned_abs());
    size * size
}

// The squared length of a normal.
pub(crate) fn norm2(n: Normal) -> u128
    requires { IsNormal (record { x = n.x; y = n.y; z = n.z }) }
    ensures value { result ≡ norm2_of (record { x = n.x; y = n.y; z = n.z }) }
    ensures small { result ≤ 3 * 2 ^ 66 }
{
    square(n.x) + square(n.y) + square(n.z)
}

// 2^12 times the root of a length, whose square is given, rounded down.
fn root_length(square: u128) -> u64
    requires some { 0 < square }
    requires small { square ≤ 3 * 2 ^ 66 }
    ensures value { result ≡ root (root (square * 2 ^ 48)) }
    ensures some { 4096 ≤ result }
    ensures small { result ≤ 2 ^ 29 - 2 ^ 25 }
    ensures reaches { (m : ℕ) → square_of m ≤ square → m * 2 ^ 18 ≤ 8388607 * result }
{
    let once = root(square * 281_474_976_710_656);
    root(u128::from(once))
}

// A number of a normal brought to its length, by about the inverse of the root.
fn part(a: i64, root: u64, inverse: u64) -> i32
    requires a_small { unsigned_abs a ≤ 8589410312 }
    requires some { 0 < root }
    requires small { root ≤ 2 ^ 29 }
    requires reaches { unsigned_abs a * 2 ^ 18 ≤ 8388607 * root }
    ensures value { result ≡ near (pos (2 ^ 18) *ℤ a) root }
    ensures small { unsigned_abs result < 2 ^ 23 }
{
    near(262_144 * a, root, inverse) as i32
}

/// The normal of a face, given by `cross`, brought to 64 times the root of its length.
pub fn area_normal(n: Normal) -> FineNormal
    requires { IsNormal (record { x = n.x; y = n.y; z = n.z }) }
    ensures value { result ≡ area_normal_of (record { x = n.x; y = n.y; z = n.z }) }
    ensures small { IsWithin (2 ^ 23 - 1) result }
{
    let square = norm2(n);
    if square == 0 {
        return FineNormal::zero();
    }
    let root = root_length(square);
    let inverse = inverse_of(root);
    FineNormal::new(
        part(n.x, root, inverse),
        part(n.y, root, inverse),
        part(n.z, root, inverse),
    )
}
