//! Normals of faces, which are exact.
ghost use Rattle.std.specs.Prelude.{◌≡◌, ◌+ℤ◌, ◌-ℤ◌, ◌*ℤ◌, ◌≤◌, ◌^◌, unsigned_abs};
ghost use Rattle.pm_base.specs.declared.limits.TheConstants.{GREATEST_COORDINATE};
ghost use Rattle.pm_base.specs.Place.{IsPlace};
ghost use Rattle.pm_base.specs.Geometry.{IsNormal, cross_of, dot_of};

use crate::Point;

/// The normal of a face, which is not made unit: its length is twice the face's area.
#[derive(Clone, Copy, Debug, PartialEq, Eq)]
pub struct Normal {
    pub x: i64,
    pub y: i64,
    pub z: i64,
}

// How far x is above y.
fn above(x: i32, y: i32) -> i64
    requires x_small { unsigned_abs x ≤ GREATEST_COORDINATE }
    requires y_small { unsigned_abs y ≤ GREATEST_COORDINATE }
    ensures value { result ≡ x -ℤ y }
    ensures small { unsigned_abs result ≤ 65534 }
{
    i64::from(x) - i64::from(y)
}

// The product of two differences of coordinates.
fn product(a: i64, b: i64) -> i64
    requires a_small { unsigned_abs a ≤ 65534 }
    requires b_small { unsigned_abs b ≤ 65534 }
    ensures value { result ≡ a *ℤ b }
    ensures small { unsigned_abs result ≤ 2 ^ 32 }
{
    a * b
}

// The difference of two such products.
fn minus(a: i64, b: i64) -> i64
    requires a_small { unsigned_abs a ≤ 2 ^ 32 }
    requires b_small { unsigned_abs b ≤ 2 ^ 32 }
    ensures { result ≡ a -ℤ b }
{
    a - b
}

// The determinant of two rows.
fn minor(a: i64, b: i64, c: i64, d: i64) -> i64
    requires a_small { unsigned_abs a ≤ 65534 }
    requires b_small { unsigned_abs b ≤ 65534 }
    requires c_small { unsigned_abs c ≤ 65534 }
    requires d_small { unsigned_abs d ≤ 65534 }
    ensures { result ≡ a *ℤ d -ℤ b *ℤ c }
{
    minus(product(a, d), product(b, c))
}

/// The normal `(b - a) x (c - a)` of the face with corners a, b and c.
pub fn cross(a: Point, b: Point, c: Point) -> Normal
    ensures x { result.x ≡ (cross_of a b c).x }
    ensures y { result.y ≡ (cross_of a b c).y }
    ensures z { result.z ≡ (cross_of a b c).z }
    ensures small { IsNormal (cross_of a b c) }
    ensures in_range { IsPlace a × IsPlace b × IsPlace c }
{
    let bx = above(b.x(), a.x());
    let by = above(b.y(), a.y());
    let bz = above(b.z(), a.z());
    let cx = above(c.x(), a.x());
    let cy = above(c.y(), a.y());
    let cz = above(c.z(), a.z());
    Normal {
        x: minor(by, bz, cy, cz),
        y: minor(bz, bx, cz, cx),
        z: minor(bx, by, cx, cy),
    }
}

// The product of two numbers of normals.
fn wide(a: i64, b: i64) -> i128
    requires a_small { unsigned_abs a ≤ 8589410312 }
    requires b_small { unsigned_abs b ≤ 8589410312 }
    ensures value { result ≡ a *ℤ b }
    ensures small { unsigned_abs result ≤ 2 ^ 66 }
{
    i128::from(a) * i128::from(b)
}

fn add_three(a: i128, b: i128, c: i128) -> i128
    requires a_small { unsigned_abs a ≤ 2 ^ 66 }
    requires b_small { unsigned_abs b ≤ 2 ^ 66 }
    requires c_small { unsigned_abs c ≤ 2 ^ 66 }
    ensures { result ≡ a +ℤ b +ℤ c }
{
    a + b + c
}

/// The product `m . n` of two normals that `cross` can give.
pub fn dot(m: Normal, n: Normal) -> i128
    requires m_small { IsNormal (record { x = m.x; y = m.y; z = m.z }) }
    requires n_small { IsNormal (record { x = n.x; y = n.y; z = n.z }) }
    ensures { result ≡ dot_of (record { x = m.x; y = m.y; z = m.z })
        (record { x = n.x; y = n.y; z = n.z }) }
{
    add_three(wide(m.x, n.x), wide(m.y, n.y), wide(m.z, n.z))
}
