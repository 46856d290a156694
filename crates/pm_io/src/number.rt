//! Numbers in decimal digits.
ghost use Rattle.std.specs.Prelude.{◌≡◌, ◌≤◌, ◌^◌, min, true};
ghost use Rattle.pm_io.specs.Digits.{is_digit, are_digits, value, unsigned_of};

fn is_digit(b: u8) -> bool
    ensures { result ≡ is_digit b }
{
    b'0' <= b && b <= b'9'
}

/// Whether each byte is a decimal digit.
pub fn are_digits(text: &[u8]) -> bool
    ensures { result ≡ are_digits text.now }
{
    text.iter().all(|b| is_digit(*b))
}

/// The number that the digits make, or `most` where that is less. There may be any number of
/// digits.
#[tactic(auto, using(crate::proofs::DigitLaws::value_cut))]
pub fn value_up_to(digits: &[u8], most: u64) -> u64
    requires room { most ≤ 2 ^ 60 }
    requires digits { are_digits digits.now ≡ true }
    ensures { result ≡ min (value 0 digits.now) most }
{
    let mut n = 0u64;
    for b in digits {
        n = (10 * n + u64::from(b.saturating_sub(b'0'))).min(most);
    }
    n
}

/// The unsigned number that the text is: digits without leading zeros, of a value that is at most
/// `most`.
#[tactic(auto, unfolding(crate::specs::Digits::unsigned_of))]
pub fn read_unsigned(text: &[u8], most: u32) -> Option<u32>
    ensures { result ≡ unsigned_of most text.now }
{
    if !are_digits(text) || text.is_empty() || text.len() > 1 && text[0] == b'0' {
        return None;
    }
    let value = value_up_to(text, 4_294_967_296);
    if value > u64::from(most) {
        return None;
    }
    Some(value as u32)
}
