//! Coordinates less a rounded quotient. A product of a number of a sum of normals and a volume fits
//! in 128 bits: a vertex has at most 2^20 faces.
ghost use Rattle.std.specs.Prelude.{◌≡◌, true, false, ◌<◌, ◌≤◌, ◌*◌, ◌^◌, ◌-ℤ◌, ◌*ℤ◌};
ghost use Rattle.std.specs.Prelude.{unsigned_abs, IfSome, IfNone, OnSome};
ghost use Rattle.pm_base.specs.declared.limits.TheConstants.{GREATEST_COORDINATE};
ghost use Rattle.pm_base.specs.Place.{is_place, is_coordinate};
ghost use Rattle.pm_fine.specs.Rounded.{near};

use pm_base::{GREATEST_COORDINATE, Point};

// A number of a sum of normals times a volume.
fn product(a: i128, b: i128) -> i128
    requires a_small { unsigned_abs a ≤ 2 ^ 54 }
    requires b_small { unsigned_abs b ≤ 3 * 2 ^ 70 }
    ensures value { result ≡ a *ℤ b }
    ensures small { unsigned_abs result ≤ 3 * 2 ^ 124 }
{
    a * b
}

// The whole number nearest to a / b.
fn near(a: i128, b: u128) -> i128
    requires a_small { unsigned_abs a ≤ 3 * 2 ^ 124 }
    requires b_small { b ≤ 3 * 2 ^ 108 }
    requires some { 0 < b }
    ensures value { result ≡ near a b }
    ensures small { unsigned_abs result ≤ 3 * 2 ^ 124 }
{
    let b = b as i128;
    (2 * a + b).div_euclid(2 * b)
}

// A coordinate less a number.
fn less(c: i32, by: i128) -> i128
    requires c_small { unsigned_abs c ≤ GREATEST_COORDINATE }
    requires by_small { unsigned_abs by ≤ 3 * 2 ^ 124 }
    ensures { result ≡ c -ℤ by }
{
    i128::from(c) - by
}

/// A coordinate less a number of a sum of normals times a volume, by a divisor, rounded.
pub(crate) fn moved(c: i32, n: i128, volume: i128, divisor: u128) -> i128
    requires c_small { unsigned_abs c ≤ GREATEST_COORDINATE }
    requires n_small { unsigned_abs n ≤ 2 ^ 54 }
    requires volume_small { unsigned_abs volume ≤ 3 * 2 ^ 70 }
    requires divisor_small { divisor ≤ 3 * 2 ^ 108 }
    requires some { 0 < divisor }
    ensures { result ≡ c -ℤ near (n *ℤ volume) divisor }
{
    less(c, near(product(n, volume), divisor))
}

fn is_coordinate(n: i128) -> bool
    ensures { result ≡ is_coordinate n }
{
    n.unsigned_abs() <= u128::from(GREATEST_COORDINATE)
}

// A coordinate in fewer bits.
fn narrow(n: i128) -> i32
    requires { unsigned_abs n ≤ GREATEST_COORDINATE }
    ensures { result ≡ n }
{
    n as i32
}

/// The point with these coordinates; none exactly where one of them is out of range.
pub(crate) fn point(x: i128, y: i128, z: i128) -> Option<Point>
    ensures some { IfSome result (λ p. p ≡ record { x = x; y = y; z = z }) }
    ensures in_range { OnSome result (is_place (record { x = x; y = y; z = z }) ≡ true) }
    ensures none { IfNone result (is_place (record { x = x; y = y; z = z }) ≡ false) }
{
    if is_coordinate(x) && is_coordinate(y) && is_coordinate(z) {
        Point::new(narrow(x), narrow(y), narrow(z))
    } else {
        None
    }
}
