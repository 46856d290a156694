//! The readers and writers of std as devices. What a terminal, pipe or file gives and takes is
//! outside every proof, so these devices tell nothing of their bytes. A reader or writer over
//! memory tells its own, and there a call hands on exactly those bytes.
ghost use Rattle.std.specs.Prelude.{◌≡◌, ◌+◌, ◌-◌, ◌^◌, ◌≤◌, ◌<◌, min, length, take, None, []};
ghost use Rattle.std.specs.Prelude.{if◌then◌else◌, IfOk, OnErr, is_err};
ghost use Rattle.std.specs.Io.KnownBytes.{ReadConsumes, WriteAppends};
ghost use Rattle.pm_io.specs.Bytes.{Loses, Gains, AtEnd};
ghost use Rattle.pm_io.specs.Causes.{HasCause};

use crate::{Failed, Sink, Source};
use std::io::{Read, Write};

/// A reader of std. Each error that it gives is counted, one interrupted by a signal among them.
#[derive(Drop)]
pub struct StdSource<R> {
    reader: R,
    faults: u64,
}

impl<R: Read> StdSource<R> {
    /// A source that gives what the reader gives, with no failure so far.
    pub fn new(reader: R) -> StdSource<R>
        ensures { result ≡ record { reader = reader; faults = 0 } }
    {
        StdSource { reader, faults: 0 }
    }
}

impl<R: Read> Source for StdSource<R> {
    ghost left = { λ _. None };

    ghost faults = { λ s. s.faults };

    fn take(&mut self, buf: &mut [u8]) -> Result<usize, Failed>
        requires { 0 < length buf.old }
        ensures bound { IfOk result (λ n. n ≤ length buf.new) }
        ensures bytes { IfOk result (λ n. Loses None None (take n buf.new)) }
        ensures end { IfOk result (λ n. n ≡ 0 → AtEnd None) }
        ensures err { OnErr result (Loses None None []) }
        ensures cause { HasCause self.old.faults self.new.faults result }
        ensures faults { self.new.faults ≡ if is_err result then
            min (self.old.faults + 1) (2 ^ 64 - 1) else self.old.faults }
        ensures reader { ReadConsumes (R.remaining self.old.reader) (R.remaining self.new.reader)
            result buf.new }
    {
        match self.reader.read(buf) {
            Ok(n) => Ok(n),
            Err(_) => {
                self.faults = self.faults.saturating_add(1);
                Err(Failed)
            }
        }
    }
}

/// A writer of std. Each error that it gives is counted, and so is a write that takes nothing.
#[derive(Drop)]
pub struct StdSink<W> {
    writer: W,
    faults: u64,
}

impl<W: Write> StdSink<W> {
    /// A sink that hands on what it takes to the writer, with no failure so far.
    pub fn new(writer: W) -> StdSink<W>
        ensures { result ≡ record { writer = writer; faults = 0 } }
    {
        StdSink { writer, faults: 0 }
    }
}

impl<W: Write> Sink for StdSink<W> {
    ghost got = { λ _. None };

    ghost faults = { λ s. s.faults };

    fn put(&mut self, piece: &[u8]) -> Result<usize, Failed>
        requires { 0 < length piece.now }
        ensures some { IfOk result (λ n. 0 < n) }
        ensures bound { IfOk result (λ n. n ≤ length piece.now) }
        ensures bytes { IfOk result (λ n. Gains None None (take n piece.now)) }
        ensures err { OnErr result (Gains None None []) }
        ensures cause { HasCause self.old.faults self.new.faults result }
        ensures faults { self.new.faults ≡ if is_err result then
            min (self.old.faults + 1) (2 ^ 64 - 1) else self.old.faults }
        ensures writer { WriteAppends (W.contents self.old.writer) (W.contents self.new.writer)
            result piece.now }
    {
        match self.writer.write(piece) {
            Ok(n) if n > 0 => Ok(n),
            _ => {
                self.faults = self.faults.saturating_add(1);
                Err(Failed)
            }
        }
    }
}
