//! Tests of pm_io.
ghost use Rattle.std.specs.Prelude.{◌≡◌, false, IfSome};

use pm_io::{MemSink, MemSource, Sink, Source, StdSink, StdSource, SureSource, Taker, put_all};
use std::alloc::Global;
use std::test::Fail;

// Copies a piece of what a source gives to a sink, and answers how many bytes. None where the
// source has ended or a device failed.
fn copy_piece<S: Source, K: Sink>(taker: &mut Taker, source: &mut S, sink: &mut K) -> Option<usize>
    requires { S.ended source.old ≡ false }
    ensures { IfSome result (λ _. S.ended source.new ≡ false) }
{
    let n = match taker.piece(source) {
        Ok([]) | Err(_) => return None,
        Ok(piece) => match put_all(sink, piece) {
            Ok(()) => piece.len(),
            Err(_) => return None,
        },
    };
    taker.eat(n);
    Some(n)
}

// Copies what a source gives to a sink through a window, until the source ends or a device fails.
// Answers how many bytes were taken from the window.
fn copied<S: Source, K: Sink>(taker: &mut Taker, source: &mut S, sink: &mut K) -> usize
    requires { S.ended source.old ≡ false }
{
    let mut total = 0usize;
    for _turn in 0..64 {
        let Some(n) = copy_piece(taker, source, sink) else {
            return total;
        };
        total = total.saturating_add(n);
    }
    total
}

// How many bytes come from a source in memory, and from one whose second call fails, at once and
// when it is asked again.
fn copied_in_memory(taker: &mut Taker, sink: &mut MemSink, alloc: Global) -> Option<[usize; 3]> {
    let mut sure = SureSource::new(alloc, b"abcde", 3).ok()?;
    let mut failing = MemSource::new(alloc, b"fgh", 1, &[1]).ok()?;
    Some([
        copied(taker, &mut sure, sink),
        copied(taker, &mut failing, sink),
        copied(taker, &mut failing, sink),
    ])
}

fn memory_takes_all(alloc: Global) -> Result<bool, Fail> {
    let mut sink = MemSink::new(alloc, 8, 2, &[])?;
    let mut taker = Taker::new(alloc)?;
    let counts = copied_in_memory(&mut taker, &mut sink, alloc);
    Ok(counts == Some([5, 1, 2]) && sink.bytes() == b"abcdefgh".as_slice())
}

#[test]
fn bytes_pass_through_memory(rt: HostRuntime) -> Result<(), Fail> {
    assert!(rt; memory_takes_all(rt.alloc())?);
    Ok(())
}

// How many bytes come through a sink without room, which fails, and then, from the window that
// kept what it couldn't put, to a writer. And how many come from a reader to the writer.
fn copied_by_streams(taker: &mut Taker, full: &mut MemSink, alloc: Global) -> Option<[usize; 3]> {
    let mut more = SureSource::new(alloc, b"i", 1).ok()?;
    let mut wide = StdSink::new(Vec::new(alloc));
    let mut reader = StdSource::new(&b"jk"[..]);
    Some([
        copied(taker, &mut more, full),
        copied(taker, &mut more, &mut wide),
        copied(taker, &mut reader, &mut wide),
    ])
}

fn streams_take_all(alloc: Global) -> Result<bool, Fail> {
    let mut full = MemSink::new(alloc, 0, 2, &[])?;
    let mut taker = Taker::new(alloc)?;
    Ok(copied_by_streams(&mut taker, &mut full, alloc) == Some([0, 1, 2]))
}

#[test]
fn bytes_pass_through_streams(rt: HostRuntime) -> Result<(), Fail> {
    assert!(rt; streams_take_all(rt.alloc())?);
    Ok(())
}
