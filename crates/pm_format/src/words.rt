//! The 32-bit little-endian words of a text, one after the other.
ghost use Rattle.std.specs.Prelude.{◌≡◌, ◌<◌, ◌∷◌, ◌++◌, [], length, MatchOption};
ghost use Rattle.pm_format.specs.Words.{words_of};

use byteorder::{ByteOrder, LittleEndian};
use std::marker::Model;

/// What is left of a text. Contracts see its words; fewer than four bytes at its end are none.
#[derive(Drop)]
pub struct Words<'a> {
    rest: &'a [u8],
}

impl<'a> Model for Words<'a> {
    ghost use Rattle.std.specs.Prelude.{List, ℕ};
    ghost use Rattle.pm_format.specs.Words.{words_of};

    ghost Value = { List ℕ };

    ghost view = { λ s. words_of s.rest.now };
}

impl<'a> Words<'a> {
    pub fn new(bytes: &'a [u8]) -> Words<'a>
        ensures { result ≡ words_of bytes.now }
    {
        Words { rest: bytes }
    }

    /// The next word, where four bytes are left.
    pub fn next_word(&mut self) -> Option<u32>
        ensures { MatchOption result ((self.old ≡ []) × (self.new ≡ []))
            (λ w. self.old ≡ w ∷ self.new) }
    {
        if self.rest.len() < 4 {
            return None;
        }
        let word = LittleEndian::read_u32(self.rest);
        self.rest = &self.rest[4..];
        Some(word)
    }

    /// The next words, as many as asked for, where they are all left.
    pub fn next_words<const N: usize>(&mut self) -> Option<[u32; N]>
        ensures { MatchOption result (length self.old < N) (λ ws. self.old ≡ ws ++ self.new) }
    {
        if self.rest.len() / 4 < N {
            return None;
        }
        let mut words = [0; N];
        LittleEndian::read_u32_into(&self.rest[..4 * N], &mut words);
        self.rest = &self.rest[4 * N..];
        Some(words)
    }
}
