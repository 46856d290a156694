//! The encoder: choices in, bytes out.
ghost use Rattle.std.specs.Prelude.{◌≡◌, ◌++◌, [], IfOk};
ghost use Rattle.pm_coder.specs.Intervals.{choice, whole, settled, same_bytes};
ghost use Rattle.pm_coder.specs.Coding.{written, ended};

use crate::interval::Interval;
use std::alloc::{AllocError, Global};
use std::marker::Model;

/// The answer for want of memory.
pub type OutOfMemory = AllocError;

/// Writes choices. Contracts see the interval and the bytes so far.
#[derive(Drop)]
pub struct Encoder {
    interval: Interval,
    bytes: Vec<u8>,
}

impl Model for Encoder {
    ghost use Rattle.pm_coder.specs.Intervals.{IsOpen};
    ghost use Rattle.pm_coder.specs.Coding.{Progress};

    ghost Value = { Progress };

    ghost view = { λ e. record { interval = e.interval; bytes = e.bytes.items } };

    ghost invariant = { λ e. IsOpen e.interval };
}

impl Encoder {
    /// An encoder that has written nothing. It takes no memory.
    pub fn new(alloc: Global) -> Encoder
        ensures { result ≡ record { interval = whole; bytes = [] } }
    {
        Encoder {
            interval: Interval::whole(),
            bytes: Vec::new(alloc),
        }
    }

    /// Writes a choice. `share` is that of `true` in 65,536ths: a choice of that share takes about
    /// log2(65536 / share) bits, and never more than four bytes. O(1) time but for the growth of
    /// the bytes.
    pub fn encode(&mut self, bit: bool, share: u16) -> Result<(), OutOfMemory>
        ensures { IfOk result (λ _. self.new ≡ written self.old (choice bit share)) }
    {
        let part = self.interval.narrowed(bit, share);
        self.interval = put_same_bytes(part, &mut self.bytes)?;
        Ok(())
    }

    /// The code bytes of all choices: those so far, and the four bytes of `low`.
    pub fn finish(self) -> Result<Vec<u8>, OutOfMemory>
        ensures { IfOk result (λ code. code.items ≡ ended self) }
    {
        let mut bytes = self.bytes;
        bytes.extend_from_slice(&self.interval.low.to_be_bytes())?;
        Ok(bytes)
    }
}

/// Writes the top bytes that both ends share, and answers the interval without them.
fn put_same_bytes(part: Interval, bytes: &mut Vec<u8>) -> Result<Interval, OutOfMemory>
    ensures interval { IfOk result (λ i. i ≡ settled 4 part) }
    ensures bytes { IfOk result (λ _. bytes.new.items ≡ bytes.old.items ++ same_bytes 4 part) }
{
    let mut left = part;
    for _shift in 0..4u8 {
        if left.is_apart() {
            return Ok(left);
        }
        bytes.push(left.top())?;
        left = left.shifted();
    }
    Ok(left)
}
