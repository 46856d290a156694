//! The 32-bit little-endian words of a text, one after the other.
ghost use Rattle.std.specs.Prelude.{◌≡◌, ◌∷◌, [], MatchOption};
ghost use Rattle.pm_format.specs.Words.{words_of};

use byteorder::{ByteOrder, LittleEndian};
use std::marker::Model;

/// What is left of a text. Contracts see its words; fewer than four bytes at its end are none.
#[derive(Drop)]
pub(crate) struct Words<'a> {
    rest: &'a [u8],
}

impl<'a> Model for Words<'a> {
    ghost use Rattle.std.specs.Prelude.{List, ℕ};
    ghost use Rattle.pm_format.specs.Words.{words_of};

    ghost Value = { List ℕ };

    ghost view = { λ s. words_of s.rest.now };
}

impl<'a> Words<'a> {
    pub(crate) fn new(bytes: &'a [u8]) -> Words<'a>
        ensures { result ≡ words_of bytes.now }
    {
        Words { rest: bytes }
    }

    /// The next word, where four bytes are left.
    pub(crate) fn next_word(&mut self) -> Option<u32>
        ensures { MatchOption result (self.old ≡ []) (λ w. self.old ≡ w ∷ self.new) }
    {
        if self.rest.len() < 4 {
            return None;
        }
        let word = LittleEndian::read_u32(self.rest);
        self.rest = &self.rest[4..];
        Some(word)
    }
}
