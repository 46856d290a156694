//! The numbers that fields of a text are.
ghost use Rattle.std.specs.Prelude.{◌≡◌, ◌≤◌, ◌<◌, ◌^◌, unsigned_abs, IfSome};
ghost use Rattle.pm_io.specs.Digits.{unsigned_of};
ghost use Rattle.pm_view.specs.Fields.{negative, signed_of};

use pm_io::{are_digits, value_up_to};

// The unsigned number that a field is, where it is at most `most`.
#[tactic(auto, unfolding(pm_io::specs::Digits::unsigned_of))]
fn read_magnitude(field: &[u8], most: u64) -> Option<u64>
    requires { most < 2 ^ 60 }
    ensures value { result ≡ unsigned_of most field.now }
    ensures small { IfSome result (λ n. n ≤ most) }
{
    if !are_digits(field) || field.is_empty() || field.len() > 1 && field[0] == b'0' {
        return None;
    }
    let value = value_up_to(field, most + 1);
    if value > most {
        return None;
    }
    Some(value)
}

// A number below 0, by what follows its sign.
fn negated(n: u64) -> Option<i64>
    requires { n < 2 ^ 60 }
    ensures value { result ≡ negative n }
    ensures small { IfSome result (λ z. unsigned_abs z ≤ n) }
{
    if n == 0 { None } else { Some(-(n as i64)) }
}

/// The signed number that a field is, where it is at most `most` away from 0.
#[tactic(auto, unfolding(crate::specs::Fields::signed_of))]
pub fn read_signed(field: &[u8], most: u64) -> Option<i64>
    requires { most < 2 ^ 60 }
    ensures value { result ≡ signed_of most field.now }
    ensures small { IfSome result (λ z. unsigned_abs z ≤ most) }
{
    match field {
        [] => None,
        [b'-', digits @ ..] => negated(read_magnitude(digits, most)?),
        _ => Some(read_magnitude(field, most)? as i64),
    }
}

/// The signed number that a field is, where it is at most `most` away from 0, as a number of 32
/// bits.
pub fn read_small(field: &[u8], most: u32) -> Option<i32>
    requires { most < 2 ^ 31 }
    ensures value { result ≡ signed_of most field.now }
    ensures small { IfSome result (λ z. unsigned_abs z ≤ most) }
{
    Some(read_signed(field, u64::from(most))? as i32)
}
