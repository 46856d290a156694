//! Tests of the readers and writers of std as devices: what no clause says, since contracts see the
//! bytes of a reader and not its calls. One call of a device makes one call of what it stands on,
//! and hands on the whole buffer.
ghost use Rattle.std.specs.Prelude.{◌≤◌, IfOk};

use pm_io::{Failed, Sink, Source, StdSink, StdSource};
use std::io;
use std::io::{Error, ErrorKind, Read, Write};

// What one call comes to: so many bytes, an error, or the error of a call that a signal interrupts.
#[derive(Clone, Copy)]
enum Turn {
    Passes(usize),
    Fails,
    Interrupts,
}

// A reader and a writer that counts its calls. Call by call it passes as many bytes as it was told,
// fails or is interrupted.
#[derive(Drop)]
struct Counting<'a> {
    turns: &'a [Turn],
    calls: usize,
}

impl<'a> Counting<'a> {
    fn new(turns: &'a [Turn]) -> Counting<'a> {
        Counting { turns, calls: 0 }
    }

    // What this call comes to, with a buffer of so many bytes.
    fn turn(&mut self, most: usize) -> io::Result<usize>
        ensures { IfOk result (λ n. n ≤ most) }
    {
        let turn = self.turns.get(self.calls).copied();
        self.calls = self.calls.saturating_add(1);
        match turn {
            Some(Turn::Passes(n)) => Ok(n.min(most)),
            Some(Turn::Fails) => Err(Error::from(ErrorKind::BrokenPipe)),
            Some(Turn::Interrupts) => Err(Error::from(ErrorKind::Interrupted)),
            None => Ok(0),
        }
    }
}

impl<'a> Read for Counting<'a> {
    fn read(&mut self, buf: &mut [u8]) -> io::Result<usize> {
        self.turn(buf.len())
    }
}

impl<'a> Write for Counting<'a> {
    fn write(&mut self, buf: &[u8]) -> io::Result<usize> {
        self.turn(buf.len())
    }

    fn flush(&mut self) -> io::Result<()> {
        Ok(())
    }
}

// What the calls of the tests come to.
const TURNS: [Turn; 6] = [
    Turn::Interrupts,
    Turn::Passes(3),
    Turn::Fails,
    Turn::Passes(8),
    Turn::Passes(0),
    Turn::Passes(2),
];

// What five calls answer, and how often the reader was called.
fn taken() -> ([Result<usize, Failed>; 5], usize) {
    let mut reader = Counting::new(&TURNS);
    let mut source = StdSource::new(&mut reader);
    let mut buf = [0u8; 8];
    let taken = [
        source.take(&mut buf),
        source.take(&mut buf),
        source.take(&mut buf),
        source.take(&mut buf),
        source.take(&mut buf),
    ];
    (taken, reader.calls)
}

// A terminal gives more after an end, and a pipe after an error or a signal. Neither is asked for
// it in the same call.
#[test]
fn one_take_reads_once(rt: HostRuntime) {
    let (taken, calls) = taken();
    assert!(rt; taken == [Err(Failed), Ok(3), Err(Failed), Ok(8), Ok(0)] && calls == 5);
}

// What five calls answer, and how often the writer was called.
fn put() -> ([Result<usize, Failed>; 5], usize) {
    let mut writer = Counting::new(&TURNS);
    let mut sink = StdSink::new(&mut writer);
    let put = [
        sink.put(b"a piece "),
        sink.put(b"a piece "),
        sink.put(b"a piece "),
        sink.put(b"a piece "),
        sink.put(b"a piece "),
    ];
    (put, writer.calls)
}

#[test]
fn one_put_writes_once(rt: HostRuntime) {
    let (put, calls) = put();
    assert!(rt; put == [Err(Failed), Ok(3), Err(Failed), Ok(8), Err(Failed)] && calls == 5);
}
