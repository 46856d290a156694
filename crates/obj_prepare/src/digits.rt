//! Digits of a number, up to the one that decides how it is rounded.
ghost use Rattle.std.specs.Prelude.{◌≡◌, ℕ, ◌+◌, ◌*◌, ◌^◌, ◌<◌, ◌≤◌, min, true, length, ◌++◌};
ghost use Rattle.std.specs.Prelude.{slice_index_or, drop};
ghost use Rattle.pm_io.specs.Digits.{are_digits, value};
ghost use Rattle.obj_read.specs.Coordinates.{are_zeros};
ghost use Rattle.obj_prepare.specs.Numbers.{shifted};

/// The greatest absolute value of a coordinate in units.
pub const GREATEST: u128 = 100_000_000_000_000_000_000_000_000_000_000;

// What a number past the greatest is cut down to.
const PAST: u128 = GREATEST + 1;

// The number that digits make after another.
#[tactic(auto, using(crate::proofs::DigitLaws::value_next))]
fn digits_after(start: u128, digits: &[u8]) -> u128
    requires small { start ≤ 10 ^ 32 + 1 }
    ensures value { result ≡ min (value start digits.now) (10 ^ 32 + 1) }
{
    let mut n = start;
    for b in digits {
        n = (10 * n + u128::from(b.saturating_sub(b'0'))).min(PAST);
    }
    n
}

// A number with zeros after it.
#[tactic(auto, using(crate::proofs::RoundLaws::zeros_next, crate::proofs::RoundLaws::zeros_past))]
fn with_zeros(start: u128, zeros: usize) -> u128
    requires small { start ≤ 10 ^ 32 + 1 }
    ensures value { result ≡ min (start * 10 ^ zeros) (10 ^ 32 + 1) }
{
    let mut n = start;
    for _turn in 0..zeros {
        if n == 0 || n == PAST {
            return n;
        }
        n = (10 * n).min(PAST);
    }
    n
}

// The digit with so many before it, or 0 past the last.
fn digit_at(whole: &[u8], decimals: &[u8], at: usize) -> u8
    ensures { result ≡ slice_index_or (whole.now ++ decimals.now) at 48 }
{
    if at < whole.len() {
        whole[at]
    } else if at - whole.len() < decimals.len() {
        decimals[at - whole.len()]
    } else {
        b'0'
    }
}

/// The number that the first `kept` digits make, with zeros after them where fewer are there,
/// rounded by the digit that follows. Past the greatest coordinate it is any number that is past
/// it.
pub fn rounded(whole: &[u8], decimals: &[u8], kept: usize) -> u128
    requires whole { are_digits whole.now ≡ true }
    requires decimals { are_digits decimals.now ≡ true }
    ensures value { (up down : ℕ) → kept + down ≡ length (whole.now ++ decimals.now) + up
        → min result (10 ^ 32 + 1) ≡ min (shifted (value 0 (whole.now ++ decimals.now)) up down)
        (10 ^ 32 + 1) }
{
    let front = &whole[..whole.len().min(kept)];
    let back = &decimals[..decimals.len().min(kept - front.len())];
    let n = digits_after(digits_after(0, front), back);
    let n = with_zeros(n, kept - front.len() - back.len());
    if digit_at(whole, decimals, kept) >= b'5' {
        n + 1
    } else {
        n
    }
}

fn are_zeros(digits: &[u8]) -> bool
    ensures { result ≡ are_zeros digits.now }
{
    digits.iter().all(|b| *b == b'0')
}

/// Whether all digits after the first `kept` are 0.
#[tactic(auto, using(crate::proofs::ExactLaws::zeros_after))]
pub fn are_zeros_after(whole: &[u8], decimals: &[u8], kept: usize) -> bool
    ensures { result ≡ are_zeros (drop kept (whole.now ++ decimals.now)) }
{
    let front = &whole[whole.len().min(kept)..];
    let back = &decimals[decimals.len().min(kept.saturating_sub(whole.len()))..];
    are_zeros(front) && are_zeros(back)
}
