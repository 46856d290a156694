//! The reply to the last line, in memory of its own.
ghost use Rattle.std.specs.Prelude.{◌≡◌, ◌+◌, ◌≤◌, ◌<◌, ◌++◌, length, take, Some, IfOk};
ghost use Rattle.std.specs.Prelude.{vec_len, vec_capacity};
ghost use Rattle.pm_viewer.specs.Viewing.{no_reply};

use pm_io::{Failed, Sink};
use std::alloc::{AllocError, Global};
use std::marker::Model;

/// For so many bytes of a reply there is always room.
pub const LEAST_ROOM: usize = 64;

/// A sink in memory that grows. Where no more memory is to be had it takes what fits, and it fails
/// where nothing does.
#[derive(Drop)]
pub(crate) struct Reply {
    bytes: Vec<u8>,
    failed: u64,
}

impl Model for Reply {
    ghost use Rattle.std.specs.Prelude.{◌≤◌, ◌<◌, vec_len, vec_capacity};
    ghost use Rattle.pm_viewer.specs.Viewing.{Replied};
    ghost use Rattle.pm_viewer.specs.declared.reply.TheConstants.{LEAST_ROOM};

    ghost Value = { Replied };

    ghost view = { λ r. record { got = r.bytes.items; faults = r.failed } };

    ghost invariant = { λ r. (LEAST_ROOM ≤ vec_capacity r.bytes) × (0 < r.failed
        → LEAST_ROOM ≤ vec_len r.bytes) };
}

// Adds as much of a piece as there is memory for, and answers how much that is.
fn extend(bytes: &mut Vec<u8>, piece: &[u8]) -> usize
    requires { 0 < length piece.now }
    ensures within { result ≤ length piece.now }
    ensures items { bytes.new.items ≡ bytes.old.items ++ take result piece.now }
    ensures len { vec_len bytes.new ≡ vec_len bytes.old + result }
    ensures capacity { vec_capacity bytes.old ≤ vec_capacity bytes.new }
    ensures full { result ≡ 0 → vec_capacity bytes.new ≤ vec_len bytes.new }
{
    let _ = bytes.reserve(piece.len());
    let free = bytes.capacity() - bytes.len();
    if free == 0 {
        return 0;
    }
    let n = piece.len().min(free);
    let _ = bytes.extend_from_slice(&piece[..n]);
    n
}

impl Reply {
    /// An empty reply.
    pub(crate) fn new(alloc: Global) -> Result<Reply, AllocError>
        ensures { IfOk result (λ r. r ≡ no_reply) }
    {
        Ok(Reply {
            bytes: Vec::with_capacity(alloc, LEAST_ROOM)?,
            failed: 0,
        })
    }

    /// Forgets what was taken, and keeps the memory.
    pub(crate) fn clear(&mut self)
        ensures { self.new ≡ no_reply }
    {
        self.bytes.clear();
        self.failed = 0;
    }

    /// What was taken.
    pub(crate) fn bytes(&self) -> &[u8]
        ensures { result.now ≡ self.now.got }
    {
        &self.bytes
    }

    /// It has failed only where it was full.
    pub(crate) fn invariant(&self)
        ensures { 0 < self.now.faults → LEAST_ROOM ≤ length self.now.got }
    {
        let _ = &self.bytes;
    }
}

impl Sink for Reply {
    ghost got = { λ s. Some s.got };

    ghost faults = { λ s. s.faults };

    fn put(&mut self, piece: &[u8]) -> Result<usize, Failed> {
        let n = extend(&mut self.bytes, piece);
        if n == 0 {
            self.failed = self.failed.saturating_add(1);
            return Err(Failed);
        }
        Ok(n)
    }
}
