//! One line of text that is being put together, without memory.
ghost use Rattle.std.specs.Prelude.{◌≡◌, ◌+◌, ◌≤◌, [], ◌++◌, length, take};
ghost use Rattle.std.specs.Fmt.{decimal, signed_decimal};

use itoa::write_digits;
use std::marker::Model;

// How many bytes a line holds.
const SIZE: usize = 128;

/// A line of at most 128 bytes. Contracts see its bytes.
#[derive(Drop)]
pub struct Line {
    bytes: [u8; SIZE],
    len: usize,
}

impl Model for Line {
    ghost use Rattle.std.specs.Prelude.{◌≡◌, ◌≤◌, ℕ, List, length, take};

    ghost Value = { List ℕ };

    ghost view = { λ l. take l.len l.bytes };

    ghost invariant = { λ l. (l.len ≤ 128) × (length l.bytes ≡ 128) };
}

// Writes text from a place on.
fn put_text(bytes: &mut [u8], at: usize, text: &[u8])
    requires { at + length text.now ≤ length bytes.old }
    ensures text { take (at + length text.now) bytes.new ≡ take at bytes.old ++ text.now }
    ensures same { length bytes.new ≡ length bytes.old }
{
    bytes[at..at + text.len()].copy_from_slice(text);
}

// How many decimal digits a number has.
#[tactic(auto, using(crate::proofs::DecimalLaws::length_between, crate::proofs::DecimalLaws::length_zero))]
fn digit_count(n: u64) -> usize
    ensures { result ≡ length (decimal n) }
{
    match n.checked_ilog10() {
        None => 1,
        Some(k) => k as usize + 1,
    }
}

// Writes the digits of a number from a place on, and answers where they end.
#[tactic(auto, using(crate::proofs::DecimalLaws::digits_put))]
fn put_digits(bytes: &mut [u8], at: usize, n: u64) -> usize
    requires { at + length (decimal n) ≤ length bytes.old }
    ensures text { take result bytes.new ≡ take at bytes.old ++ decimal n }
    ensures end { result ≡ at + length (decimal n) }
    ensures same { length bytes.new ≡ length bytes.old }
{
    let end = at + digit_count(n);
    let _ = write_digits(n, bytes, end);
    end
}

impl Line {
    /// The empty line.
    pub fn new() -> Line
        ensures { result ≡ [] }
    {
        Line {
            bytes: [0; SIZE],
            len: 0,
        }
    }

    /// Makes the line empty again.
    pub fn clear(&mut self)
        ensures { self.new ≡ [] }
    {
        self.len = 0;
    }

    /// Adds text at the end.
    pub fn add(&mut self, text: &[u8])
        requires { length self.old + length text.now ≤ 128 }
        ensures { self.new ≡ self.old ++ text.now }
    {
        put_text(&mut self.bytes, self.len, text);
        self.len += text.len();
    }

    /// Adds a number in decimal digits.
    pub fn add_number(&mut self, n: u32)
        requires { length self.old + 10 ≤ 128 }
        ensures text { self.new ≡ self.old ++ decimal n }
        ensures short { length self.new ≤ length self.old + 10 }
    {
        self.len = put_digits(&mut self.bytes, self.len, u64::from(n));
    }

    /// Adds a number in decimal digits: at most 20.
    pub fn add_long_number(&mut self, n: u64)
        requires { length self.old + 20 ≤ 128 }
        ensures text { self.new ≡ self.old ++ decimal n }
        ensures short { length self.new ≤ length self.old + 20 }
    {
        self.len = put_digits(&mut self.bytes, self.len, n);
    }

    /// Adds a number in decimal digits, after a `-` where it is negative.
    #[tactic(auto, using(itoa::proofs::Decimal::minus_first, crate::proofs::DecimalLaws::no_minus))]
    pub fn add_signed(&mut self, n: i32)
        requires { length self.old + 11 ≤ 128 }
        ensures text { self.new ≡ self.old ++ signed_decimal n }
        ensures short { length self.new ≤ length self.old + 11 }
    {
        if n < 0 {
            self.add(b"-");
        }
        self.add_number(n.unsigned_abs());
    }

    /// The bytes of the line.
    pub fn as_slice(&self) -> &[u8]
        ensures { result.now ≡ self.now }
    {
        &self.bytes[..self.len]
    }
}
