//! A coordinate in a field of a line: a sign where there is one, digits, a point with decimals
//! where there is one, and an exponent where there is one.
ghost use Rattle.std.specs.Prelude.{◌≡◌, ◌≤◌, ◌^◌, ◌+◌, min, true, length, unsigned_abs};
ghost use Rattle.std.specs.Prelude.{IfOk, IfErr, Ok, Err};
ghost use Rattle.pm_io.specs.Digits.{are_digits};
ghost use Rattle.obj_read.specs.Coordinates.{with_sign};
ghost use Rattle.obj_prepare.specs.Numbers.{mantissa, exponent_part, exponent_text, is_exponent};
ghost use Rattle.obj_prepare.specs.Numbers.{is_decimal, exponent, units_of_text};
ghost use Rattle.obj_prepare.specs.Numbers.{decimal_coordinate, is_whole_in_units};
ghost use Rattle.obj_prepare.specs.Numbers.{is_exact_field};

use crate::digits::{GREATEST, are_zeros_after, rounded};
use obj_lines::until;
use obj_read::{ObjFault, decimals, is_negative, whole_part, without_sign};
use pm_io::{are_digits, value_up_to};

// The greatest exponent, either way.
const GREATEST_EXPONENT: u64 = 999;

// The digits of a unit after the point.
const UNIT_DIGITS: usize = 18;

/// A coordinate in units of 10^-18, and whether it is exactly what its field spells.
#[derive(Clone, Copy, Debug, PartialEq, Eq)]
pub struct Coordinate {
    pub units: i128,
    pub exact: bool,
}

#[tactic(auto, unfolding(crate::specs::Numbers::mantissa))]
fn mantissa(number: &[u8]) -> &[u8]
    ensures value { result.now ≡ mantissa number.now }
    ensures within { length result.now ≤ length number.now }
{
    until(b'e', until(b'E', number))
}

#[tactic(auto, unfolding(crate::specs::Numbers::exponent_part))]
fn exponent_part(number: &[u8]) -> &[u8]
    ensures { result.now ≡ exponent_part number.now }
{
    &number[mantissa(number).len()..]
}

#[tactic(auto, unfolding(crate::specs::Numbers::exponent_text))]
fn exponent_text(number: &[u8]) -> &[u8]
    ensures { result.now ≡ exponent_text number.now }
{
    match exponent_part(number) {
        [_, rest @ ..] => rest,
        none => none,
    }
}

#[tactic(auto, unfolding(obj_read::specs::Coordinates::is_number, crate::specs::Numbers::is_decimal, crate::specs::Numbers::is_exponent))]
fn is_decimal(number: &[u8]) -> bool
    ensures { result ≡ is_decimal number.now }
{
    let front = whole_part(mantissa(number));
    let back = decimals(mantissa(number));
    let exponent = without_sign(exponent_text(number));
    are_digits(front)
        && are_digits(back)
        && (!front.is_empty() || !back.is_empty())
        && are_digits(exponent)
        && (exponent_part(number).is_empty() || !exponent.is_empty())
}

// The exponent without its sign, or a number past the greatest one.
#[tactic(auto, unfolding(crate::specs::Numbers::is_decimal, crate::specs::Numbers::is_exponent, crate::specs::Numbers::exponent))]
fn exponent(number: &[u8]) -> u64
    requires { is_decimal number.now ≡ true }
    ensures { result ≡ min (exponent number.now) 1000 }
{
    value_up_to(without_sign(exponent_text(number)), GREATEST_EXPONENT + 1)
}

// The number in units, or any number past the greatest coordinate where that is past it. Only
// digits down to the one after the last unit are looked at.
fn units(number: &[u8], power: usize) -> u128
    requires number { is_decimal number.now ≡ true }
    requires power { power ≡ exponent number.now }
    requires small { power ≤ 999 }
    ensures { min result (10 ^ 32 + 1) ≡ min (units_of_text number.now) (10 ^ 32 + 1) }
{
    let front = whole_part(mantissa(number));
    let back = decimals(mantissa(number));
    let count = front.len() + UNIT_DIGITS;
    if !is_negative(exponent_text(number)) {
        rounded(front, back, count + power)
    } else if power <= count {
        rounded(front, back, count - power)
    } else {
        0
    }
}

// Whether the number is a whole number of units: all digits after the last unit are 0.
fn ends_in_zeros(number: &[u8], power: usize) -> bool
    requires number { is_decimal number.now ≡ true }
    requires power { power ≡ exponent number.now }
    requires small { power ≤ 999 }
    ensures { result ≡ is_whole_in_units number.now }
{
    let front = whole_part(mantissa(number));
    let back = decimals(mantissa(number));
    let count = front.len() + UNIT_DIGITS;
    if is_negative(exponent_text(number)) {
        are_zeros_after(front, back, count.saturating_sub(power))
    } else {
        are_zeros_after(front, back, count + power)
    }
}

// Whether the number is a whole number of units. One of a few bytes without an exponent is.
#[tactic(auto, using(crate::proofs::ExactLaws::few_are_whole))]
fn is_whole(number: &[u8], power: usize) -> bool
    requires number { is_decimal number.now ≡ true }
    requires power { power ≡ exponent number.now }
    requires small { power ≤ 999 }
    ensures { result ≡ is_whole_in_units number.now }
{
    if power == 0 && number.len() <= UNIT_DIGITS {
        return true;
    }
    ends_in_zeros(number, power)
}

fn with_sign(negative: bool, n: u128) -> i128
    requires { n ≤ 10 ^ 32 }
    ensures value { result ≡ with_sign negative n }
    ensures range { unsigned_abs result ≤ 10 ^ 32 }
{
    let n = n as i128;
    if negative { -n } else { n }
}

/// The coordinate that a field spells, in units of 10^-18, or the field's first fault: the nearest
/// whole number, halves away from 0, and whether that is exactly what the field spells. It is out
/// of range where its exponent is above 999 either way, or it is above 10^32 units. There may be
/// any number of digits; the time is linear in the bytes.
#[tactic(auto, unfolding(crate::specs::Numbers::decimal_coordinate, crate::specs::Numbers::is_exact_field))]
pub fn exact_coordinate(field: &[u8]) -> Result<Coordinate, ObjFault>
    ensures value { IfOk result (λ c. decimal_coordinate field.now ≡ Ok c.units) }
    ensures exact { IfOk result (λ c. c.exact ≡ is_exact_field field.now) }
    ensures fault { IfErr result (λ e. decimal_coordinate field.now ≡ Err e) }
    ensures range { IfOk result (λ c. unsigned_abs c.units ≤ 10 ^ 32) }
{
    let number = without_sign(field);
    if !is_decimal(number) {
        return Err(ObjFault::BadNumber);
    }
    let power = exponent(number);
    if power > GREATEST_EXPONENT {
        return Err(ObjFault::OutOfRange);
    }
    let n = units(number, power as usize);
    if n > GREATEST {
        return Err(ObjFault::OutOfRange);
    }
    Ok(Coordinate {
        units: with_sign(is_negative(field), n),
        exact: is_whole(number, power as usize),
    })
}

/// The coordinate that a field spells, as of `exact_coordinate`, exact or not.
pub fn decimal_coordinate(field: &[u8]) -> Result<i128, ObjFault>
    ensures value { result ≡ decimal_coordinate field.now }
    ensures range { IfOk result (λ x. unsigned_abs x ≤ 10 ^ 32) }
{
    match exact_coordinate(field) {
        Ok(coordinate) => Ok(coordinate.units),
        Err(fault) => Err(fault),
    }
}
