//! The numbers of a face's plane, and the products of two of them.
ghost use Rattle.std.specs.Prelude.{◌≡◌, ◌≤◌, ◌^◌, pos, ◌+ℤ◌, ◌*ℤ◌, neg_ℤ, unsigned_abs};
ghost use Rattle.pm_base.specs.declared.limits.TheConstants.{GREATEST_COORDINATE};
ghost use Rattle.pm_base.specs.Geometry.{IsNormal};

use pm_base::{Normal, Point};

// A number of a normal times a coordinate.
fn component(a: i64, x: i32) -> i64
    requires a_small { unsigned_abs a ≤ 8589410312 }
    requires x_small { unsigned_abs x ≤ GREATEST_COORDINATE }
    ensures value { result ≡ a *ℤ x }
    ensures small { unsigned_abs result ≤ 2 ^ 48 }
{
    a * i64::from(x)
}

fn minus_three(a: i64, b: i64, c: i64) -> i64
    requires a_small { unsigned_abs a ≤ 2 ^ 48 }
    requires b_small { unsigned_abs b ≤ 2 ^ 48 }
    requires c_small { unsigned_abs c ≤ 2 ^ 48 }
    ensures value { result ≡ neg_ℤ (a +ℤ b +ℤ c) }
    ensures small { unsigned_abs result ≤ 2 ^ 50 }
{
    -(a + b + c)
}

// The last number of the plane with the normal n through p, with which the plane's value at p is 0.
pub(crate) fn offset(n: Normal, p: Point) -> i64
    requires { IsNormal (record { x = n.x; y = n.y; z = n.z }) }
    ensures value { result ≡ neg_ℤ (n.x *ℤ p.x +ℤ n.y *ℤ p.y +ℤ n.z *ℤ p.z) }
    ensures small { unsigned_abs result ≤ 2 ^ 50 }
{
    minus_three(
        component(n.x, p.x()),
        component(n.y, p.y()),
        component(n.z, p.z()),
    )
}

// The product of two numbers of a plane.
pub(crate) fn pair(a: i64, b: i64) -> i128
    requires a_small { unsigned_abs a ≤ 2 ^ 50 }
    requires b_small { unsigned_abs b ≤ 2 ^ 50 }
    ensures { result ≡ a *ℤ b }
{
    i128::from(a) * i128::from(b)
}

// Twice that product, for the terms that a square has twice.
pub(crate) fn double(a: i64, b: i64) -> i128
    requires a_small { unsigned_abs a ≤ 2 ^ 50 }
    requires b_small { unsigned_abs b ≤ 2 ^ 50 }
    ensures { result ≡ pos 2 *ℤ (a *ℤ b) }
{
    2 * pair(a, b)
}
