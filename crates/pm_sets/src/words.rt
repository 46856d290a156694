//! The bits of one word.
ghost use Rattle.std.specs.Prelude.{ℕ, ◌≡◌, ◌≢◌, ◌<◌, ◌≤◌, true, false, IfSome, IfNone};
ghost use Rattle.pm_sets.specs.Bits.{has_bit, IsBitGap};

/// How many bits a word has.
pub(crate) const WORD: u32 = 64;

/// Whether a bit is set.
pub(crate) fn has_bit(word: u64, place: u32) -> bool
    requires { place < 64 }
    ensures { result ≡ has_bit word place }
{
    (word >> place) & 1 == 1
}

/// The word with this bit set.
pub(crate) fn with_bit(word: u64, place: u32) -> u64
    requires { place < 64 }
    ensures here { has_bit result place ≡ true }
    ensures others { (j : ℕ) → j < 64 → j ≢ place → has_bit result j ≡ has_bit word j }
{
    word | (1 << place)
}

/// The word with this bit not set.
pub(crate) fn without_bit(word: u64, place: u32) -> u64
    requires { place < 64 }
    ensures here { has_bit result place ≡ false }
    ensures others { (j : ℕ) → j < 64 → j ≢ place → has_bit result j ≡ has_bit word j }
{
    word & !(1 << place)
}

/// The first bit that is set, from `from` on.
pub(crate) fn first_bit(word: u64, from: u32) -> Option<u32>
    requires { from < 64 }
    ensures below { IfSome result (λ k. k < 64) }
    ensures after { IfSome result (λ k. from ≤ k) }
    ensures there { IfSome result (λ k. has_bit word k ≡ true) }
    ensures first { IfSome result (λ k. IsBitGap word from k) }
    ensures none { IfNone result (IsBitGap word from 64) }
{
    let rest = word >> from;
    if rest == 0 {
        None
    } else {
        Some(from + rest.trailing_zeros())
    }
}

/// The last bit that is set.
pub(crate) fn last_bit(word: u64) -> Option<u32>
    ensures below { IfSome result (λ k. k < 64) }
    ensures there { IfSome result (λ k. has_bit word k ≡ true) }
    ensures last { IfSome result (λ k. (j : ℕ) → k < j → j < 64 → has_bit word j ≡ false) }
    ensures none { IfNone result (IsBitGap word 0 64) }
{
    if word == 0 {
        None
    } else {
        Some(63 - word.leading_zeros())
    }
}
