//! The decoder: bytes in, choices out.
ghost use Rattle.std.specs.Prelude.{◌≡◌, ◌+◌, ◌<◌, ◌≤◌, ◌==◌, IfOk, IfErr, length, drop};
ghost use Rattle.pm_coder.specs.Intervals.{choice, whole, settled, same_bytes};
ghost use Rattle.pm_coder.specs.Coding.{window, passed, next_choice, IsRead, Lacks};

use crate::interval::Interval;
use std::marker::Model;

/// The code bytes end too early.
#[derive(Clone, Copy, Debug, PartialEq, Eq)]
pub struct Cut;

/// Reads choices. Contracts see the interval, and the bytes from the first on that still counts:
/// the first four of them are the number in the interval.
#[derive(Drop)]
pub struct Decoder<'a> {
    interval: Interval,
    ahead: &'a [u8],
}

impl<'a> Model for Decoder<'a> {
    ghost use Rattle.std.specs.Prelude.{◌≤◌, length};
    ghost use Rattle.pm_coder.specs.Intervals.{IsOpen};
    ghost use Rattle.pm_coder.specs.Coding.{Progress};

    ghost Value = { Progress };

    ghost view = { λ d. record { interval = d.interval; bytes = d.ahead.now } };

    ghost invariant = { λ d. IsOpen d.interval × (4 ≤ length d.ahead.now) };
}

impl<'a> Decoder<'a> {
    /// A decoder at the first choice. `Cut` where there are fewer than four bytes.
    pub fn new(code: &'a [u8]) -> Result<Decoder<'a>, Cut>
        ensures ok { IfOk result (λ d. d ≡ record { interval = whole; bytes = code.now }) }
        ensures long { IfOk result (λ _. 4 ≤ length code.now) }
        ensures cut { IfErr result (λ _. length code.now < 4) }
    {
        if code.len() < 4 {
            return Err(Cut);
        }
        Ok(Decoder {
            interval: Interval::whole(),
            ahead: code,
        })
    }

    /// Reads a choice. `share` is that of `true` in 65,536ths, as the encoder had it. `Cut` where
    /// a byte beyond the end is asked for; the decoder is then as it was. O(1) time; it takes four
    /// bytes at most.
    pub fn decode(&mut self, share: u16) -> Result<bool, Cut>
        ensures bit { IfOk result (λ bit. IsRead self.old (choice bit share)) }
        ensures ok { IfOk result (λ bit. self.new ≡ passed self.old (choice bit share)) }
        ensures cut { IfErr result (λ _. Lacks self.old (next_choice self.old share)) }
        ensures unchanged { IfErr result (λ _. self.new ≡ self.old) }
    {
        let bit = first_number(self.ahead) <= self.interval.mid(share);
        let part = self.interval.narrowed(bit, share);
        let (interval, ahead) = take_same_bytes(part, self.ahead)?;
        self.interval = interval;
        self.ahead = ahead;
        Ok(bit)
    }

    /// Whether all code bytes were taken, as they are after the last choice. O(1) time.
    pub fn is_at_end(&self) -> bool
        ensures { result ≡ (length self.now.bytes == 4) }
    {
        self.ahead.len() == 4
    }
}

/// The number that the first four bytes spell.
fn first_number(bytes: &[u8]) -> u32
    requires { 4 ≤ length bytes.now }
    ensures { result ≡ window bytes.now }
{
    u32::from_be_bytes([bytes[0], bytes[1], bytes[2], bytes[3]])
}

/// Takes the top bytes that both ends share, and answers the interval and the bytes without them.
fn take_same_bytes<'a>(part: Interval, bytes: &'a [u8]) -> Result<(Interval, &'a [u8]), Cut>
    requires { 4 ≤ length bytes.now }
    ensures interval { IfOk result (λ r. r.0 ≡ settled 4 part) }
    ensures bytes { IfOk result (λ r. r.1.now ≡ drop (length (same_bytes 4 part)) bytes.now) }
    ensures long { IfOk result (λ _. length (same_bytes 4 part) + 4 ≤ length bytes.now) }
    ensures cut { IfErr result (λ _. length bytes.now < length (same_bytes 4 part) + 4) }
{
    let mut left = part;
    for shift in 0..4 {
        if left.is_apart() {
            return Ok((left, &bytes[shift..]));
        }
        if bytes.len() - shift == 4 {
            return Err(Cut);
        }
        left = left.shifted();
    }
    Ok((left, &bytes[4..]))
}
