//! Reads a text to its end.
ghost use Rattle.std.specs.Prelude.{◌≡◌, false, Ok, IfOk, IfErr, OnOk, IfSome};
ghost use Rattle.std.specs.Io.KnownBytes.{prepend_known};
ghost use Rattle.pm_io.specs.Bytes.{AtEnd};
ghost use Rattle.pm_io.specs.Causes.{HasCause};
ghost use Rattle.obj_lines.specs.Rules.{text_read};
ghost use Rattle.obj_lines.specs.Fails.{Explains, of_source};

use crate::fault::TextFail;
use crate::lines::Lines;
use crate::piece::take_bytes;
use crate::reader::LineReader;
use crate::step::{Progress, finish, step};
use pm_io::{Source, Taker};
use std::alloc::Global;

/// Reads bytes that were taken from a source, and then the source to its end, as `read_lines` reads
/// all of them.
pub fn read_lines_after<S: Source, R: LineReader>(
    alloc: Global,
    first: &[u8],
    source: &mut S,
    reader: &mut R,
) -> Result<u32, TextFail<R::Fault>>
    requires ready { R.may_take reader.old 1 }
    requires not_ended { S.ended source.old ≡ false }
    ensures ok { OnOk result (IfSome (prepend_known first.now (S.left source.old))
        (λ bytes. text_read R.rules (R.held reader.old) bytes ≡ Ok (R.held reader.new))) }
    ensures ready { IfOk result (R.may_take reader.new) }
    ensures end { OnOk result (AtEnd (S.left source.new)) }
    ensures err { IfErr result (λ e. Explains R.rules (R.held reader.old) e
        (prepend_known first.now (S.left source.old)) (S.left source.new)) }
    ensures cause { HasCause (S.faults source.old) (S.faults source.new) (of_source result) }
{
    let Ok(mut taker) = Taker::new(alloc) else {
        return Err(TextFail::OutOfMemory);
    };
    let Ok(mut lines) = Lines::new(alloc) else {
        return Err(TextFail::OutOfMemory);
    };
    let mut progress = Progress {
        taken: 0,
        start: 0,
        number: 1,
    };
    take_bytes(first, &mut lines, reader, &mut progress)?;
    loop {
        match step(source, &mut taker, &mut lines, reader, &mut progress) {
            Err(fail) => return Err(fail),
            Ok(false) => return finish(reader, &mut lines, progress),
            Ok(true) => {}
        }
    }
}

/// Reads a source to its end, and has a reader take its lines, one after the other. Answers the
/// number that a line more would have.
///
/// All bytes that are held are judged before more are asked for, so a fault is answered as soon as
/// the byte that shows it has come. However the source cuts its bytes, the answer is the same. Each
/// byte is looked at a constant number of times. Memory is taken for the window and for one line.
pub fn read_lines<S: Source, R: LineReader>(
    alloc: Global,
    source: &mut S,
    reader: &mut R,
) -> Result<u32, TextFail<R::Fault>>
    requires ready { R.may_take reader.old 1 }
    requires not_ended { S.ended source.old ≡ false }
    ensures ok { OnOk result (IfSome (S.left source.old)
        (λ bytes. text_read R.rules (R.held reader.old) bytes ≡ Ok (R.held reader.new))) }
    ensures ready { IfOk result (R.may_take reader.new) }
    ensures end { OnOk result (AtEnd (S.left source.new)) }
    ensures err { IfErr result (λ e.
        Explains R.rules (R.held reader.old) e (S.left source.old) (S.left source.new)) }
    ensures cause { HasCause (S.faults source.old) (S.faults source.new) (of_source result) }
{
    read_lines_after(alloc, &[], source, reader)
}
