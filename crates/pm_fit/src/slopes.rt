//! What a slope adds to a mean at a place.
ghost use Rattle.std.specs.Prelude.{◌≡◌, true, ◌≤◌, ◌<◌, ◌+◌, ◌*◌, ◌^◌, pos, ◌+ℤ◌, ◌*ℤ◌};
ghost use Rattle.std.specs.Prelude.{unsigned_abs};
ghost use Rattle.std.specs.Int.{int_shr};
ghost use Rattle.pm_fine.specs.Within.{IsVectorWithin};
ghost use Rattle.pm_fit.specs.Fit.{AreMoments, IsSpot, away_of, rise_of, is_gentle};

use crate::{Moments, Spot};
use pm_fine::{Vector, digits_above, near_wide, short};

// A coordinate as often as there are places.
fn as_often(count: u32, at: u32) -> u64
    requires few { count ≤ 2 ^ 20 }
    requires at { at ≤ 65534 }
    ensures value { result ≡ count * at }
    ensures most { result ≤ 65534 * count }
{
    u64::from(count) * u64::from(at)
}

// How far a coordinate is from the middle, in 16ths.
fn away(count: u32, sum: u64, at: u32) -> i128
    requires some { 0 < count }
    requires few { count ≤ 2 ^ 20 }
    requires sum { sum ≤ 65534 * count }
    requires at { at ≤ 65534 }
    ensures value { result ≡ away_of count sum at }
    ensures small { unsigned_abs result ≤ 2 ^ 20 }
{
    let there = 16 * as_often(count, at);
    let middle = 16 * sum;
    near_wide(i128::from(there) - i128::from(middle), u64::from(count))
}

fn times(a: i128, b: i128) -> i128
    requires a_small { unsigned_abs a ≤ 2 ^ 47 }
    requires b_small { unsigned_abs b ≤ 2 ^ 20 }
    ensures value { result ≡ a *ℤ b }
    ensures small { unsigned_abs result ≤ 2 ^ 67 }
{
    a * b
}

// What one axis adds: a number of the slope without its last digits, as far as the place is away.
fn along(n: i128, digits: u32, divisor: u64, away: i128) -> i128
    requires digits { digits < 128 }
    requires kept { divisor < 2 ^ 36 }
    requires gentle { unsigned_abs n ≤ 1024 * (divisor + 1) * 2 ^ digits }
    requires away { unsigned_abs away ≤ 2 ^ 20 }
    ensures value { result ≡ int_shr n digits *ℤ away }
    ensures small { unsigned_abs result ≤ 2 ^ 67 }
{
    times(short(n, digits), away)
}

fn add_three(a: i128, b: i128, c: i128) -> i128
    requires a_small { unsigned_abs a ≤ 2 ^ 67 }
    requires b_small { unsigned_abs b ≤ 2 ^ 67 }
    requires c_small { unsigned_abs c ≤ 2 ^ 67 }
    ensures value { result ≡ a +ℤ b +ℤ c }
    ensures small { unsigned_abs result ≤ 2 ^ 69 }
{
    a + b + c
}

/// What the slope n / det adds to the mean at a place.
pub(crate) fn rise(m: &Moments, place: &Spot, n: &Vector, det: i128) -> i128
    requires moments { AreMoments m.now }
    requires place { IsSpot place.now }
    requires some { 0 < unsigned_abs det }
    requires gentle { IsVectorWithin (1024 * unsigned_abs det) n.now }
    ensures value { result ≡ rise_of m.now place.now n.now det }
    ensures small { unsigned_abs result ≤ 2 ^ 69 }
{
    let size = det.unsigned_abs();
    let digits = digits_above(36, size);
    let divisor = (size >> digits) as u64;
    let by_x = along(n.x, digits, divisor, away(m.count, m.places.x, place.x));
    let by_y = along(n.y, digits, divisor, away(m.count, m.places.y, place.y));
    let by_z = along(n.z, digits, divisor, away(m.count, m.places.z, place.z));
    near_wide(add_three(by_x, by_y, by_z), 16 * divisor)
}

/// Whether no number of the slope n / det is above 1,024.
pub(crate) fn is_gentle(n: &Vector, det: i128) -> bool
    requires { unsigned_abs det < 2 ^ 102 }
    ensures value { result ≡ is_gentle n.now det }
    ensures some { result ≡ true → 0 < unsigned_abs det }
    ensures bounds { result ≡ true → IsVectorWithin (1024 * unsigned_abs det) n.now }
{
    0 < det && n.is_within(1024 * det.unsigned_abs())
}
