//! A sink in memory, which takes all for which there is memory.
ghost use Rattle.std.specs.Prelude.{◌≡◌, Some};
ghost use Rattle.pm_viewer.specs.Viewing.{no_reply};

use pm_io::{Failed, Sink};
use std::alloc::Global;
use std::marker::Model;

/// A sink in memory that grows. It fails only where memory for a piece is wanting, and takes
/// nothing of it then.
#[derive(Drop)]
pub(crate) struct Gathered {
    bytes: Vec<u8>,
    failed: u64,
}

impl Model for Gathered {
    ghost use Rattle.pm_viewer.specs.Viewing.{Replied};

    ghost Value = { Replied };

    ghost view = { λ g. record { got = g.bytes.items; faults = g.failed } };
}

impl Gathered {
    /// Nothing so far.
    pub(crate) fn new(alloc: Global) -> Gathered
        ensures { result ≡ no_reply }
    {
        Gathered {
            bytes: Vec::new(alloc),
            failed: 0,
        }
    }

    /// What was taken.
    pub(crate) fn into_bytes(self) -> Vec<u8>
        ensures { result.items ≡ self.got }
    {
        self.bytes
    }
}

impl Sink for Gathered {
    ghost got = { λ s. Some s.got };

    ghost faults = { λ s. s.faults };

    fn put(&mut self, piece: &[u8]) -> Result<usize, Failed> {
        if self.bytes.extend_from_slice(piece).is_err() {
            self.failed = self.failed.saturating_add(1);
            return Err(Failed);
        }
        Ok(piece.len())
    }
}
