//! A key as the heap keeps it: in 24 bytes, where a number of 128 bits would make it 32.
ghost use Rattle.std.specs.Prelude.{◌≡◌};

use super::key::Key;
use std::marker::Model;

// One more than the greatest number of 64 bits.
const WORD: u128 = 18_446_744_073_709_551_616;

/// A key whose cost is kept as two numbers of 64 bits. Contracts see the key.
#[derive(Clone, Copy, Debug, PartialEq, Eq)]
pub(crate) struct Slot {
    high: u64,
    low: u64,
    a: u32,
    b: u32,
}

impl Model for Slot {
    ghost use Rattle.std.specs.Prelude.{◌+◌, ◌*◌, ◌<◌, ◌/◌, ◌%◌};
    ghost use Rattle.pm_queue.specs.declared.key.Key.{Key};
    ghost use Rattle.pm_queue.specs.declared.slot.TheConstants.{WORD};
    ghost use Rattle.std.proofs.lemmas.Nat.{div-mul-add, mod-mul-add};

    ghost Value = { Key };

    ghost view = { λ s. record { cost = s.high * WORD + s.low; a = s.a; b = s.b } };

    ghost invariant = { λ s. s.low < WORD };

    ghost inverse = { λ k. record { high = k.cost / WORD; low = k.cost % WORD; a = k.a; b = k.b } };

    ghost inverse_ok = { λ s low i. record {
      high = div-mul-add s.high WORD s.low low i;
      low = mod-mul-add s.high WORD s.low low i;
      a = s.a;
      b = s.b;
    } };
}

impl Slot {
    /// The slot of a key.
    pub(crate) fn of(key: Key) -> Slot
        ensures { result ≡ key }
    {
        Slot {
            high: (key.cost / WORD) as u64,
            low: (key.cost % WORD) as u64,
            a: key.a,
            b: key.b,
        }
    }

    /// The cost of the key.
    pub(crate) fn cost(&self) -> u128
        ensures { result ≡ self.now.cost }
    {
        u128::from(self.high) * WORD + u128::from(self.low)
    }

    /// The key of the slot.
    pub(crate) fn key(&self) -> Key
        ensures { result ≡ self.now }
    {
        Key {
            cost: self.cost(),
            a: self.a,
            b: self.b,
        }
    }
}
