//! A coordinate in a field of a line: a sign where there is one, digits, and a point with decimals
//! where there is one.
ghost use Rattle.std.specs.Prelude.{◌≡◌, ◌≤◌, ◌<◌, ◌^◌, min, true, false, drop, IfOk, IfSome};
ghost use Rattle.std.specs.Prelude.{IfNone, OnSome};
ghost use Rattle.pm_base.specs.Place.{is_coordinate};
ghost use Rattle.pm_io.specs.Digits.{are_digits, value};
ghost use Rattle.obj_read.specs.Coordinates.{is_negative, without_sign, whole_part, decimals};
ghost use Rattle.obj_read.specs.Coordinates.{is_number, are_zeros, with_sign, padded, magnitude};
ghost use Rattle.obj_read.specs.Coordinates.{coordinate};

use crate::fault::ObjFault;
use crate::leading::{is_end, leading_number};
use obj_lines::until;
use pm_base::GREATEST_COORDINATE;
use pm_io::{are_digits, value_up_to};

// The greatest absolute value of a coordinate.
const GREATEST: u64 = GREATEST_COORDINATE as u64;

/// Whether a minus sign stands at the front.
pub fn is_negative(field: &[u8]) -> bool
    ensures { result ≡ is_negative field.now }
{
    match field {
        [b, ..] => *b == b'-',
        _ => false,
    }
}

/// What stands after a sign at the front, or all where none is.
#[tactic(auto, unfolding(crate::specs::Coordinates::without_sign))]
pub fn without_sign(field: &[u8]) -> &[u8]
    ensures { result.now ≡ without_sign field.now }
{
    match field {
        [b'+' | b'-', rest @ ..] => rest,
        _ => field,
    }
}

/// What stands before the point of a number without its sign, or all where none is.
#[tactic(auto, unfolding(crate::specs::Coordinates::whole_part))]
pub fn whole_part(number: &[u8]) -> &[u8]
    ensures { result.now ≡ whole_part number.now }
{
    until(b'.', number)
}

/// What stands after the point of a number, or nothing where none is.
#[tactic(auto, unfolding(crate::specs::Coordinates::decimals))]
pub fn decimals(number: &[u8]) -> &[u8]
    ensures { result.now ≡ decimals number.now }
{
    let n = until(b'.', number).len();
    if n < number.len() {
        &number[n + 1..]
    } else {
        &number[n..]
    }
}

// What stands after the first byte.
fn after_point(rest: &[u8]) -> &[u8]
    ensures { result.now ≡ drop 1 rest.now }
{
    match rest {
        [_, decimals @ ..] => decimals,
        _ => rest,
    }
}

// What stands before the point of a number without its sign, or a number past the greatest
// coordinate where that is less, and its decimals.
#[tactic(auto, using(crate::proofs::PartsLaws::whole_leading, crate::proofs::PartsLaws::decimals_after, crate::proofs::PartsLaws::other_bytes, crate::proofs::PartsLaws::number_formed, crate::proofs::PartsLaws::number_empty, crate::proofs::PartsLaws::number_other))]
fn number_parts(number: &[u8]) -> Option<(u64, &[u8])>
    ensures none { IfNone result (is_number number.now ≡ false) }
    ensures some { OnSome result (is_number number.now ≡ true) }
    ensures whole { IfSome result (λ p. p.0 ≡ min (value 0 (whole_part number.now)) 32768) }
    ensures decimals { IfSome result (λ p. p.1.now ≡ decimals number.now) }
    ensures digits { IfSome result (λ p. are_digits p.1.now ≡ true) }
{
    let (whole, rest) = leading_number(number, GREATEST + 1);
    let decimals = after_point(rest);
    if !is_end(b'.', rest) || !are_digits(decimals) {
        return None;
    }
    if number.len() - rest.len() + decimals.len() == 0 {
        return None;
    }
    Some((whole, decimals))
}

fn are_zeros(digits: &[u8]) -> bool
    ensures { result ≡ are_zeros digits.now }
{
    digits.iter().all(|b| *b == b'0')
}

fn with_sign(negative: bool, n: u64) -> i32
    requires { n ≤ GREATEST_COORDINATE }
    ensures value { result ≡ with_sign negative n }
    ensures range { is_coordinate result ≡ true }
{
    let n = n as i32;
    if negative { -n } else { n }
}

// 10 to the power of the number of digits.
fn scale(digits: u32) -> u64
    requires { digits ≤ 4 }
    ensures value { result ≡ 10 ^ digits }
    ensures most { result ≤ 10000 }
{
    match digits {
        0 => 1,
        1 => 10,
        2 => 100,
        3 => 1_000,
        _ => 10_000,
    }
}

// The number that the first decimals make, exactly so many: zeros stand after them where fewer are
// there.
#[tactic(auto, using(crate::proofs::DecimalLaws::digits_take))]
fn decimals_value(digits: u32, decimals: &[u8]) -> u64
    requires few { digits ≤ 4 }
    requires digits { are_digits decimals.now ≡ true }
    ensures value { result ≡ value 0 (padded digits decimals.now) }
    ensures most { result ≤ 99990000 }
{
    let first = &decimals[..decimals.len().min(digits as usize)];
    value_up_to(first, 9_999) * scale(digits - first.len() as u32)
}

// The decimals after the first so many.
fn past(digits: u32, decimals: &[u8]) -> &[u8]
    ensures { result.now ≡ drop digits decimals.now }
{
    &decimals[decimals.len().min(digits as usize)..]
}

/// The coordinate that a field spells, in units of 10 to the power -digits, or the field's first
/// fault. There may be any number of digits.
#[tactic(auto, using(crate::proofs::DecimalLaws::magnitude_cut), unfolding(crate::specs::Coordinates::coordinate, crate::specs::Coordinates::magnitude))]
pub fn coordinate(digits: u32, field: &[u8]) -> Result<i32, ObjFault>
    requires { digits ≤ 4 }
    ensures value { result ≡ coordinate digits field.now }
    ensures range { IfOk result (λ x. is_coordinate x ≡ true) }
{
    let Some((whole, decimals)) = number_parts(without_sign(field)) else {
        return Err(ObjFault::BadNumber);
    };
    if !are_zeros(past(digits, decimals)) {
        return Err(ObjFault::NotWhole);
    }
    let n = scale(digits) * whole + decimals_value(digits, decimals);
    if n > GREATEST {
        return Err(ObjFault::OutOfRange);
    }
    Ok(with_sign(is_negative(field), n))
}
