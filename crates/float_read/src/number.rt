//! Coordinates that are bits.
ghost use Rattle.std.specs.Prelude.{◌≡◌, ◌≤◌, ◌^◌, IfOk, unsigned_abs};
ghost use Rattle.obj_read.specs.Coordinates.{with_sign};
ghost use Rattle.float_read.specs.Floats.{IsFormat, float_coordinate, binary32, binary64};
ghost use Rattle.float_read.specs.Floats.{whole_coordinate};

use crate::fault::FloatFault;
use crate::format::Format;
use crate::units::units;

const SINGLE: Format = Format {
    exponent_bits: 8,
    fraction_bits: 23,
};

const DOUBLE: Format = Format {
    exponent_bits: 11,
    fraction_bits: 52,
};

// The greatest absolute value of a coordinate.
const GREATEST_WHOLE: u64 = 100_000_000_000_000;

// The units in 1.
const UNITS: i128 = 1_000_000_000_000_000_000;

fn with_sign(negative: bool, n: u128) -> i128
    requires { n ≤ 10 ^ 32 }
    ensures value { result ≡ with_sign negative n }
    ensures range { unsigned_abs result ≤ 10 ^ 32 }
{
    let n = n as i128;
    if negative { -n } else { n }
}

#[tactic(auto, unfolding(crate::specs::Floats::float_coordinate, crate::specs::Floats::units_of_bits))]
fn coordinate(format: Format, bits: u64) -> Result<i128, FloatFault>
    requires { IsFormat format }
    ensures value { result ≡ float_coordinate format bits }
    ensures range { IfOk result (λ x. unsigned_abs x ≤ 10 ^ 32) }
{
    let exponent = format.exponent(bits);
    if exponent == format.greatest_exponent() {
        return Err(FloatFault::NotFinite);
    }
    match units(format.significand(bits), exponent.max(1), format.scale()) {
        Some(n) => Ok(with_sign(format.is_negative(bits), n)),
        None => Err(FloatFault::TooLarge),
    }
}

/// The coordinate that the bits of a binary32 are, in units of 10^-18: the nearest whole number,
/// halves away from 0. Constant time.
pub fn single_coordinate(bits: u32) -> Result<i128, FloatFault>
    ensures value { result ≡ float_coordinate binary32 bits }
    ensures range { IfOk result (λ x. unsigned_abs x ≤ 10 ^ 32) }
{
    coordinate(SINGLE, u64::from(bits))
}

/// The coordinate that the bits of a binary64 are, likewise.
pub fn double_coordinate(bits: u64) -> Result<i128, FloatFault>
    ensures value { result ≡ float_coordinate binary64 bits }
    ensures range { IfOk result (λ x. unsigned_abs x ≤ 10 ^ 32) }
{
    coordinate(DOUBLE, bits)
}

/// The coordinate that a whole number is, in units of 10^-18.
#[tactic(auto, unfolding(crate::specs::Floats::whole_coordinate))]
pub fn whole_coordinate(n: i64) -> Result<i128, FloatFault>
    ensures value { result ≡ whole_coordinate n }
    ensures range { IfOk result (λ x. unsigned_abs x ≤ 10 ^ 32) }
{
    if n.unsigned_abs() > GREATEST_WHOLE {
        return Err(FloatFault::TooLarge);
    }
    Ok(i128::from(n) * UNITS)
}
