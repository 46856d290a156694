//! A list of flags, 64 in a word, and searches in it.
ghost use Rattle.std.specs.Prelude.{◌≡◌, ◌+◌, ◌*◌, ◌/◌, ◌<◌, ◌≤◌, true, false, length};
ghost use Rattle.std.specs.Prelude.{replicate, slice_set, IfOk, IfSome, IfNone};
ghost use Rattle.pm_base.specs.Counts.{set_of};
ghost use Rattle.pm_sets.specs.Sets.{IsEmptySet, IsGap, IsFirst, IsLast};

use crate::OutOfMemory;
use crate::set::BOUND_LIMIT;
use crate::words::{WORD, first_bit, has_bit, last_bit, with_bit, without_bit};
use std::alloc::Global;
use std::marker::Model;

/// A flag for each number below a bound: bit `j % 64` of word `j / 64` is that of number `j`.
/// Contracts see the flags.
#[derive(Drop)]
pub(crate) struct Bits {
    bound: u32,
    words: Vec<u64>,
}

impl Model for Bits {
    ghost use Rattle.std.specs.Prelude.{Bool, List};
    ghost use Rattle.pm_sets.specs.Bits.{flags_in, AreWords};

    ghost Value = { List Bool };

    ghost view = { λ b. flags_in b.words.items b.bound };

    ghost invariant = { λ b. AreWords b.bound b.words.items };
}

impl Bits {
    /// No flag set, for each number below a bound. The only call that takes memory.
    pub(crate) fn new(alloc: Global, bound: u32) -> Result<Bits, OutOfMemory>
        requires { bound ≤ BOUND_LIMIT }
        ensures { IfOk result (λ b. b ≡ replicate bound false) }
    {
        let words = vec![in alloc; 0; (bound / WORD + 1) as usize]?;
        Ok(Bits { bound, words })
    }

    /// The flag of a number. O(1).
    pub(crate) fn has(&self, number: u32) -> bool
        requires { number < length self.now }
        ensures { result ≡ set_of self.now number }
    {
        has_bit(self.words[(number / WORD) as usize], number % WORD)
    }

    /// Sets the flag of a number. O(1).
    pub(crate) fn insert(&mut self, number: u32)
        requires { number < length self.old }
        ensures { self.new ≡ slice_set self.old number true }
    {
        let word = &mut self.words[(number / WORD) as usize];
        *word = with_bit(*word, number % WORD);
    }

    /// Clears the flag of a number. O(1).
    pub(crate) fn remove(&mut self, number: u32)
        requires { number < length self.old }
        ensures { self.new ≡ slice_set self.old number false }
    {
        let word = &mut self.words[(number / WORD) as usize];
        *word = without_bit(*word, number % WORD);
    }

    /// The first number from `at` on that has a flag, among those of one word. O(1).
    pub(crate) fn first_in_word(&self, at: u32) -> Option<u32>
        requires { at ≤ length self.now }
        ensures some { IfSome result (IsFirst self.now at) }
        ensures below { IfSome result (λ k. k < 64 * (at / 64) + 64) }
        ensures none { IfNone result (IsGap self.now at (64 * (at / 64) + 64)) }
    {
        let word = at / WORD;
        let place = first_bit(self.words[word as usize], at % WORD)?;
        Some(WORD * word + place)
    }

    /// The last number that has a flag among those of a word. O(1).
    pub(crate) fn last_in_word(&self, word: u32) -> Option<u32>
        requires { word ≤ length self.now / 64 }
        ensures some { IfSome result (IsLast self.now (64 * word + 64)) }
        ensures after { IfSome result (λ k. 64 * word ≤ k) }
        ensures none { IfNone result (IsGap self.now (64 * word) (64 * word + 64)) }
    {
        let place = last_bit(self.words[word as usize])?;
        Some(WORD * word + place)
    }

    /// The first number from `at` on that has a flag. It looks at each word that it passes over.
    pub(crate) fn first_from(&self, at: u32) -> Option<u32>
        requires { at ≤ length self.now }
        ensures some { IfSome result (IsFirst self.now at) }
        ensures none { IfNone result (IsGap self.now at (length self.now)) }
    {
        let mut from = at;
        while from < self.bound {
            if let Some(number) = self.first_in_word(from) {
                return Some(number);
            }
            from = WORD * (from / WORD) + WORD;
        }
        None
    }

    /// The last number that has a flag. It looks at each word that it passes over.
    pub(crate) fn last(&self) -> Option<u32>
        ensures some { IfSome result (IsLast self.now (length self.now)) }
        ensures none { IfNone result (IsEmptySet self.now) }
    {
        let mut words = self.bound / WORD + 1;
        while words > 0 {
            words -= 1;
            if let Some(number) = self.last_in_word(words) {
                return Some(number);
            }
        }
        None
    }
}
