//! A set of numbers: a bit for each, and a bit for each 64 of them.
ghost use Rattle.std.specs.Prelude.{◌≡◌, ◌<◌, ◌≤◌, true, false, length, replicate, slice_set, IfOk};
ghost use Rattle.std.specs.Prelude.{IfSome, IfNone};
ghost use Rattle.pm_sets.specs.Sets.{IsEmptySet, IsGap, IsFirst, IsLast};
ghost use Rattle.pm_base.specs.Counts.{set_of};

use crate::bits::Bits;
use crate::words::WORD;
use std::alloc::{AllocError, Global};
use std::marker::Model;

/// The answer for want of memory.
pub type OutOfMemory = AllocError;

/// The greatest bound.
pub const BOUND_LIMIT: u32 = 4_194_304;

// Clauses cite the limit by its name, so this line alone refuses another value.
const _: () = prove!(BOUND_LIMIT == 4_194_304);

/// A set of numbers below a bound. Contracts see a flag for each number below the bound.
///
/// It takes a bit for each number, and one for each block of 64 numbers, which is set where one of
/// them is in the set. A search looks at two words of bits of numbers, and at one word of bits of
/// blocks for each 4,096 numbers that it passes over.
#[derive(Drop)]
pub struct NumberSet {
    // Set where the number is in the set.
    numbers: Bits,
    // Set where a number of the block is.
    blocks: Bits,
}

impl Model for NumberSet {
    ghost use Rattle.std.specs.Prelude.{Bool, List};
    ghost use Rattle.pm_sets.specs.Bits.{AreBlocks};

    ghost Value = { List Bool };

    ghost view = { λ s. s.numbers };

    ghost invariant = { λ s. AreBlocks s.numbers s.blocks };
}

impl NumberSet {
    /// The empty set of numbers below `bound`. The only call that takes memory.
    pub fn new(alloc: Global, bound: u32) -> Result<NumberSet, OutOfMemory>
        requires { bound ≤ BOUND_LIMIT }
        ensures { IfOk result (λ s. s ≡ replicate bound false) }
    {
        let numbers = Bits::new(alloc, bound)?;
        let blocks = Bits::new(alloc, bound / WORD + 1)?;
        Ok(NumberSet { numbers, blocks })
    }

    /// Whether a number is in the set. O(1) time.
    pub fn has(&self, number: u32) -> bool
        requires { number < length self.now }
        ensures { result ≡ set_of self.now number }
    {
        self.numbers.has(number)
    }

    /// Puts a number in, if it isn't there. O(1) time.
    pub fn insert(&mut self, number: u32)
        requires { number < length self.old }
        ensures { self.new ≡ slice_set self.old number true }
    {
        self.numbers.insert(number);
        self.blocks.insert(number / WORD);
    }

    /// Takes a number out, if it is there. O(1) time.
    pub fn remove(&mut self, number: u32)
        requires { number < length self.old }
        ensures { self.new ≡ slice_set self.old number false }
    {
        self.numbers.remove(number);
        let block = number / WORD;
        if self.numbers.last_in_word(block).is_none() {
            self.blocks.remove(block);
        }
    }

    /// The first number of the set that is at least `at`.
    pub fn first_from(&self, at: u32) -> Option<u32>
        requires { at ≤ length self.now }
        ensures some { IfSome result (IsFirst self.now at) }
        ensures none { IfNone result (IsGap self.now at (length self.now)) }
    {
        if let Some(number) = self.numbers.first_in_word(at) {
            return Some(number);
        }
        let block = self.blocks.first_from(at / WORD + 1)?;
        self.numbers.first_in_word(WORD * block)
    }

    /// The last number of the set.
    pub fn last(&self) -> Option<u32>
        ensures some { IfSome result (IsLast self.now (length self.now)) }
        ensures none { IfNone result (IsEmptySet self.now) }
    {
        let block = self.blocks.last()?;
        self.numbers.last_in_word(block)
    }

    /// The first number of the set, which is taken out.
    pub fn take_first(&mut self) -> Option<u32>
        ensures some { IfSome result (IsFirst self.old 0) }
        ensures taken { IfSome result (λ k. self.new ≡ slice_set self.old k false) }
        ensures none { IfNone result (IsEmptySet self.old) }
        ensures unchanged { IfNone result (self.new ≡ self.old) }
    {
        let number = self.first_from(0)?;
        self.remove(number);
        Some(number)
    }

    /// The last number of the set, which is taken out.
    pub fn take_last(&mut self) -> Option<u32>
        ensures some { IfSome result (IsLast self.old (length self.old)) }
        ensures taken { IfSome result (λ k. self.new ≡ slice_set self.old k false) }
        ensures none { IfNone result (IsEmptySet self.old) }
        ensures unchanged { IfNone result (self.new ≡ self.old) }
    {
        let number = self.last()?;
        self.remove(number);
        Some(number)
    }
}
