//! The least product on an axis for a small ball: 64 bits hold it, and nearly all balls are small.
ghost use Rattle.std.specs.Prelude.{◌≡◌, ◌≤◌, ◌^◌, pos, ◌+ℤ◌, ◌-ℤ◌, ◌*ℤ◌, unsigned_abs};
ghost use Rattle.pm_base.specs.declared.limits.TheConstants.{GREATEST_COORDINATE};
ghost use Rattle.pm_view.specs.declared.limits.TheConstants.{GREATEST_EYE_COORDINATE};
ghost use Rattle.pm_view.specs.declared.small_ball.TheConstants.{SMALL_RADIUS};
ghost use Rattle.pm_view.specs.Wanted.{least_product};

use crate::facing::{lower_end, upper_end};

/// The greatest radius of a small ball.
pub const SMALL_RADIUS: u64 = 16_777_216;

// Clauses cite the limit by its name, so its value is said here.
const _: () = prove!(SMALL_RADIUS == 16_777_216);

// The product of an end of the normal box and an end of the point box less the eye.
fn product(a: i64, b: i64) -> i64
    requires a_small { unsigned_abs a ≤ 2 ^ 34 }
    requires b_small { unsigned_abs b ≤ 2 ^ 26 }
    ensures value { result ≡ a *ℤ b }
    ensures small { unsigned_abs result ≤ 2 ^ 60 }
{
    a * b
}

// The least product of an end of the interval from a to b and one of that from c to d.
fn least(a: i64, b: i64, c: i64, d: i64) -> i64
    requires a_small { unsigned_abs a ≤ 2 ^ 34 }
    requires b_small { unsigned_abs b ≤ 2 ^ 34 }
    requires c_small { unsigned_abs c ≤ 2 ^ 26 }
    requires d_small { unsigned_abs d ≤ 2 ^ 26 }
    ensures value { result ≡ least_product a b c d }
    ensures small { unsigned_abs result ≤ 2 ^ 60 }
{
    product(a, c)
        .min(product(a, d))
        .min(product(b, c).min(product(b, d)))
}

/// The least product on one axis.
pub fn least_in_small_ball(low: i64, high: i64, at: i32, radius: u64, eye: i32) -> i64
    requires low_small { unsigned_abs low ≤ 2 ^ 34 }
    requires high_small { unsigned_abs high ≤ 2 ^ 34 }
    requires at_small { unsigned_abs at ≤ GREATEST_COORDINATE }
    requires radius_small { radius ≤ SMALL_RADIUS }
    requires eye_small { unsigned_abs eye ≤ GREATEST_EYE_COORDINATE }
    ensures value { result ≡ least_product low high (at -ℤ pos radius -ℤ eye)
        (at +ℤ pos radius -ℤ eye) }
    ensures small { unsigned_abs result ≤ 2 ^ 60 }
{
    least(
        low,
        high,
        lower_end(at, radius, eye),
        upper_end(at, radius, eye),
    )
}

/// A sum of three such products.
pub fn add_three_small(a: i64, b: i64, c: i64) -> i64
    requires a_small { unsigned_abs a ≤ 2 ^ 60 }
    requires b_small { unsigned_abs b ≤ 2 ^ 60 }
    requires c_small { unsigned_abs c ≤ 2 ^ 60 }
    ensures { result ≡ a +ℤ b +ℤ c }
{
    a + b + c
}
