//! The digits at the front of a text.
ghost use Rattle.std.specs.Prelude.{◌≡◌, ◌+◌, ◌≤◌, ◌∷◌, ◌^◌, [], min, length, IfNone, IfSome};
ghost use Rattle.pm_io.specs.Digits.{value};
ghost use Rattle.obj_read.specs.Leading.{leading, after_digits, is_end};

// The digit at the front, and what stands after it.
fn next_digit(text: &[u8]) -> Option<(u64, &[u8])>
    ensures none { IfNone result (leading text.now ≡ []) }
    ensures all { IfNone result (after_digits text.now ≡ text.now) }
    ensures small { IfSome result (λ r. r.0 ≤ 9) }
    ensures some { IfSome result (λ r. leading text.now ≡ (48 + r.0) ∷ leading r.1.now) }
    ensures rest { IfSome result (λ r. after_digits text.now ≡ after_digits r.1.now) }
    ensures shorter { IfSome result (λ r. length r.1.now + 1 ≡ length text.now) }
{
    match text {
        [b, rest @ ..] if b'0' <= *b && *b <= b'9' => Some((u64::from(*b - b'0'), rest)),
        _ => None,
    }
}

/// The number that the digits at the front make, or `most` where that is less, and what stands
/// after them. There may be any number of digits. Each of them is looked at once.
#[tactic(auto, using(crate::proofs::LeadingLaws::leading_length))]
pub fn leading_number(text: &[u8], most: u64) -> (u64, &[u8])
    requires { most ≤ 2 ^ 60 }
    ensures number { result.0 ≡ min (value 0 (leading text.now)) most }
    ensures rest { result.1.now ≡ after_digits text.now }
    ensures count { length (leading text.now) + length result.1.now ≡ length text.now }
{
    let mut n = 0u64;
    let mut rest = text;
    while let Some((digit, after)) = next_digit(rest) {
        n = (10 * n + digit).min(most);
        rest = after;
    }
    (n, rest)
}

/// Whether nothing stands there, or this byte first.
pub fn is_end(stop: u8, rest: &[u8]) -> bool
    ensures { result ≡ is_end stop rest.now }
{
    match rest {
        [b, ..] => *b == stop,
        _ => true,
    }
}
