//! Devices in memory, for tests and for callers that have their bytes already.
ghost use Rattle.std.specs.Prelude.{◌≡◌, ◌+◌, ◌-◌, ◌^◌, ◌≤◌, ◌<◌, ◌||◌, ◌==◌, [], ◌++◌, min};
ghost use Rattle.std.specs.Prelude.{length, take, drop, nat_le, if◌then◌else◌, false, IfOk};
ghost use Rattle.std.specs.Prelude.{OnErr, Some, is_err};
ghost use Rattle.pm_io.specs.Bytes.{Loses, Gains, AtEnd};
ghost use Rattle.pm_io.specs.Causes.{HasCause};
ghost use Rattle.pm_io.specs.Memory.{is_listed};

use crate::{Failed, OutOfMemory, Sink, Source};
use std::alloc::Global;
use std::marker::Model;

/// Gives its bytes, at most `step` a call, and fails at the calls whose numbers, from 0, it was
/// told.
#[derive(Drop)]
pub struct MemSource {
    bytes: Vec<u8>,
    at: usize,
    step: usize,
    fails: Vec<u32>,
    calls: u64,
    faults: u64,
}

impl Model for MemSource {
    ghost use Rattle.std.specs.Prelude.{◌≤◌, drop, vec_len};
    ghost use Rattle.pm_io.specs.Memory.{SourceState};

    ghost Value = { SourceState };

    ghost view = { λ s. record {
      left = drop s.at s.bytes.items;
      step = s.step;
      fails = s.fails.items;
      calls = s.calls;
      faults = s.faults;
    } };

    ghost invariant = { λ s. (s.at ≤ vec_len s.bytes) × (1 ≤ s.step) };
}

impl MemSource {
    /// A source of these bytes. `step` is at least 1.
    pub fn new(
        alloc: Global,
        bytes: &[u8],
        step: usize,
        fails: &[u32],
    ) -> Result<MemSource, OutOfMemory>
        requires { 1 ≤ step }
        ensures { IfOk result (λ s. s ≡ record {
          left = bytes.now;
          step = step;
          fails = fails.now;
          calls = 0;
          faults = 0;
        }) }
    {
        Ok(MemSource {
            bytes: Vec::from_slice(alloc, bytes)?,
            at: 0,
            step,
            fails: Vec::from_slice(alloc, fails)?,
            calls: 0,
            faults: 0,
        })
    }
}

// Whether this call is one of those that fail.
fn is_listed(fails: &[u32], call: u64) -> bool
    ensures { result ≡ is_listed fails.now call }
{
    fails.iter().any(|n| u64::from(*n) == call)
}

// Copies the bytes from `at` on into the front of `to`, as much as fits, at most `step` bytes.
fn copy_from(bytes: &[u8], at: usize, step: usize, to: &mut [u8]) -> usize
    requires { at ≤ length bytes.now }
    ensures count { result ≡ min (min (length (drop at bytes.now)) step) (length to.old) }
    ensures within { at + result ≤ length bytes.now }
    ensures bytes { drop at bytes.now ≡ take result to.new ++ drop (at + result) bytes.now }
{
    let rest = &bytes[at..];
    let n = rest.len().min(step).min(to.len());
    to[..n].copy_from_slice(&rest[..n]);
    n
}

impl Source for MemSource {
    ghost left = { λ s. Some s.left };

    ghost faults = { λ s. s.faults };

    fn take(&mut self, buf: &mut [u8]) -> Result<usize, Failed>
        requires { 0 < length buf.old }
        ensures bound { IfOk result (λ n. n ≤ length buf.new) }
        ensures bytes { IfOk result
            (λ n. Loses (Some self.old.left) (Some self.new.left) (take n buf.new)) }
        ensures end { IfOk result (λ n. n ≡ 0 → AtEnd (Some self.old.left)) }
        ensures err { OnErr result (Some self.new.left ≡ Some self.old.left) }
        ensures cause { HasCause self.old.faults self.new.faults result }
        ensures listed { is_err result ≡ is_listed self.old.fails self.old.calls }
        ensures count { IfOk result
            (λ n. n ≡ min (min (length self.old.left) self.old.step) (length buf.new)) }
        ensures step { self.new.step ≡ self.old.step }
        ensures fails { self.new.fails ≡ self.old.fails }
        ensures calls { self.new.calls ≡ min (self.old.calls + 1) (2 ^ 64 - 1) }
        ensures faults { self.new.faults ≡ if is_err result then
            min (self.old.faults + 1) (2 ^ 64 - 1) else self.old.faults }
    {
        let call = self.calls;
        self.calls = call.saturating_add(1);
        if is_listed(&self.fails, call) {
            self.faults = self.faults.saturating_add(1);
            return Err(Failed);
        }
        let n = copy_from(&self.bytes, self.at, self.step, buf);
        self.at += n;
        Ok(n)
    }
}

/// Gives its bytes, at most `step` a call, and never fails.
#[derive(Drop)]
pub struct SureSource {
    bytes: Vec<u8>,
    at: usize,
    step: usize,
}

impl Model for SureSource {
    ghost use Rattle.std.specs.Prelude.{◌≤◌, drop, vec_len};
    ghost use Rattle.pm_io.specs.Memory.{SureState};

    ghost Value = { SureState };

    ghost view = { λ s. record { left = drop s.at s.bytes.items; step = s.step } };

    ghost invariant = { λ s. (s.at ≤ vec_len s.bytes) × (1 ≤ s.step) };
}

impl SureSource {
    /// A source of these bytes. `step` is at least 1.
    pub fn new(alloc: Global, bytes: &[u8], step: usize) -> Result<SureSource, OutOfMemory>
        requires { 1 ≤ step }
        ensures { IfOk result (λ s. s ≡ record { left = bytes.now; step = step }) }
    {
        Ok(SureSource {
            bytes: Vec::from_slice(alloc, bytes)?,
            at: 0,
            step,
        })
    }
}

impl Source for SureSource {
    ghost left = { λ s. Some s.left };

    ghost faults = { λ _. 0 };

    fn take(&mut self, buf: &mut [u8]) -> Result<usize, Failed>
        requires { 0 < length buf.old }
        ensures bound { IfOk result (λ n. n ≤ length buf.new) }
        ensures bytes { IfOk result
            (λ n. Loses (Some self.old.left) (Some self.new.left) (take n buf.new)) }
        ensures end { IfOk result (λ n. n ≡ 0 → AtEnd (Some self.old.left)) }
        ensures err { OnErr result (Some self.new.left ≡ Some self.old.left) }
        ensures cause { HasCause 0 0 result }
        ensures sure { is_err result ≡ false }
        ensures count { IfOk result
            (λ n. n ≡ min (min (length self.old.left) self.old.step) (length buf.new)) }
        ensures step { self.new.step ≡ self.old.step }
    {
        let n = copy_from(&self.bytes, self.at, self.step, buf);
        self.at += n;
        Ok(n)
    }
}

/// Takes bytes into memory, at most `step` a call and `room` in all. It fails at the calls whose
/// numbers, from 0, it was told, and where the room is full.
#[derive(Drop)]
pub struct MemSink {
    bytes: Vec<u8>,
    room: usize,
    step: usize,
    fails: Vec<u32>,
    calls: u64,
    faults: u64,
}

impl Model for MemSink {
    ghost use Rattle.std.specs.Prelude.{◌≤◌, vec_len, vec_capacity};
    ghost use Rattle.pm_io.specs.Memory.{SinkState};

    ghost Value = { SinkState };

    ghost view = { λ s. record {
      got = s.bytes.items;
      room = s.room;
      step = s.step;
      fails = s.fails.items;
      calls = s.calls;
      faults = s.faults;
    } };

    ghost invariant = { λ s. (vec_len s.bytes ≤ s.room) × (s.room ≤ vec_capacity s.bytes)
        × (1 ≤ s.step) };
}

impl MemSink {
    /// A sink with room for `room` bytes, all of which is taken here. `step` is at least 1.
    pub fn new(
        alloc: Global,
        room: usize,
        step: usize,
        fails: &[u32],
    ) -> Result<MemSink, OutOfMemory>
        requires { 1 ≤ step }
        ensures { IfOk result (λ s. s ≡ record {
          got = [];
          room = room;
          step = step;
          fails = fails.now;
          calls = 0;
          faults = 0;
        }) }
    {
        Ok(MemSink {
            bytes: Vec::with_capacity(alloc, room)?,
            room,
            step,
            fails: Vec::from_slice(alloc, fails)?,
            calls: 0,
            faults: 0,
        })
    }

    /// The bytes taken so far.
    pub fn bytes(&self) -> &[u8]
        ensures { result.now ≡ self.now.got }
    {
        &self.bytes
    }
}

impl Sink for MemSink {
    ghost got = { λ s. Some s.got };

    ghost faults = { λ s. s.faults };

    fn put(&mut self, piece: &[u8]) -> Result<usize, Failed>
        requires { 0 < length piece.now }
        ensures some { IfOk result (λ n. 0 < n) }
        ensures bound { IfOk result (λ n. n ≤ length piece.now) }
        ensures bytes { IfOk result
            (λ n. Gains (Some self.old.got) (Some self.new.got) (take n piece.now)) }
        ensures err { OnErr result (Some self.new.got ≡ Some self.old.got) }
        ensures cause { HasCause self.old.faults self.new.faults result }
        ensures listed { is_err result
            ≡ (nat_le self.old.room (length self.old.got) || is_listed self.old.fails
            self.old.calls) }
        ensures count { IfOk result
            (λ n. n ≡ min (min (length piece.now) self.old.step)
            (self.old.room - length self.old.got)) }
        ensures room { self.new.room ≡ self.old.room }
        ensures step { self.new.step ≡ self.old.step }
        ensures fails { self.new.fails ≡ self.old.fails }
        ensures calls { self.new.calls ≡ min (self.old.calls + 1) (2 ^ 64 - 1) }
        ensures faults { self.new.faults ≡ if is_err result then
            min (self.old.faults + 1) (2 ^ 64 - 1) else self.old.faults }
    {
        let call = self.calls;
        self.calls = call.saturating_add(1);
        let free = self.room - self.bytes.len();
        if free == 0 || is_listed(&self.fails, call) {
            self.faults = self.faults.saturating_add(1);
            return Err(Failed);
        }
        let n = piece.len().min(self.step).min(free);
        let _ = self.bytes.extend_from_slice(&piece[..n]);
        Ok(n)
    }
}
