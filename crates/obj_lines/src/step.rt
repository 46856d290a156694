//! One step of the reading: the bytes that the window holds, at most up to the end of a line.
ghost use Rattle.std.specs.Prelude.{ℕ, List, Option, ◌≡◌, ◌<◌, true, false, Ok, IfOk};
ghost use Rattle.std.specs.Prelude.{IfErr, OnOk};
ghost use Rattle.std.specs.Io.KnownBytes.{prepend_known};
ghost use Rattle.pm_io.specs.Bytes.{AtEnd};
ghost use Rattle.pm_io.specs.Causes.{HasCause};
ghost use Rattle.obj_lines.specs.Feeding.{open_line};
ghost use Rattle.obj_lines.specs.Text.{lines as lines_of};
ghost use Rattle.obj_lines.specs.Rules.{at_end, reading};
ghost use Rattle.obj_lines.specs.Fails.{IsRefused, Explains, of_source};
ghost use Rattle.obj_lines.specs.Reading.{IsBetween, IsReading, so_far};

use crate::fault::TextFail;
use crate::lines::Lines;
use crate::piece::take_piece;
use crate::reader::LineReader;
use crate::state::LineState;
use pm_io::{Source, Taker};

/// How far the reading has come: the bytes taken, those before the open line, and that line's
/// number.
#[derive(Clone, Copy, Debug, PartialEq, Eq)]
pub struct Progress {
    pub taken: u32,
    pub start: u32,
    pub number: u32,
}

/// Takes what the window holds, at most up to the end of a line, and has a line taken that has
/// ended. False at the end of input. The window is used up before the source is asked for more.
pub fn step<S: Source, R: LineReader>(
    source: &mut S,
    taker: &mut Taker,
    lines: &mut Lines,
    reader: &mut R,
    progress: &mut Progress,
) -> Result<bool, TextFail<R::Fault>>
    requires between { IsBetween lines.old progress.old }
    requires ready { R.may_take reader.old progress.old.number }
    requires not_ended { S.ended source.old ≡ false }
    ensures between { OnOk result (IsBetween lines.new progress.new) }
    ensures ready { OnOk result (R.may_take reader.new progress.new.number) }
    ensures reads_on { (h : R.Held) (whole : Option (List ℕ))
        → IsReading R.rules h whole taker.old (S.left source.old) progress.old (R.held reader.old)
        lines.old
        → OnOk result
        (IsReading R.rules h whole taker.new (S.left source.new) progress.new (R.held reader.new)
        lines.new) }
    ensures more { IfOk result (λ more. more ≡ true → progress.old.taken < progress.new.taken) }
    ensures not_ended { IfOk result (λ more. more ≡ true → S.ended source.new ≡ false) }
    ensures end { IfOk result (λ more. more ≡ false
        → AtEnd (prepend_known taker.new (S.left source.new))) }
    ensures err { IfErr result (λ e. (h : R.Held) (whole : Option (List ℕ))
        → IsReading R.rules h whole taker.old (S.left source.old) progress.old (R.held reader.old)
        lines.old → Explains R.rules h e whole (S.left source.new)) }
    ensures cause { HasCause (S.faults source.old) (S.faults source.new) (of_source result) }
{
    let used = match taker.piece(source) {
        Err(_) => return Err(TextFail::Read),
        Ok(piece) => {
            if piece.is_empty() {
                return Ok(false);
            }
            take_piece(piece, lines, reader, progress)?
        }
    };
    taker.eat(used);
    Ok(true)
}

// The number of the line that would come next, where nothing is wrong at the end.
fn end<R: LineReader>(reader: &R, number: u32) -> Result<u32, TextFail<R::Fault>>
    requires { R.may_take reader.now number }
    ensures ok { OnOk result (at_end (R.rules.end number (R.held reader.now)) (R.held reader.now)
        ≡ Ok (R.held reader.now)) }
    ensures ready { IfOk result (R.may_take reader.now) }
    ensures err { IfErr result (λ e.
        IsRefused e (at_end (R.rules.end number (R.held reader.now)) (R.held reader.now))) }
{
    match reader.end_fault(number) {
        None => Ok(number),
        Some(fault) => Err(TextFail::Fault(fault)),
    }
}

/// At the end of input: the last line, where one is open. Answers the number that a line more would
/// have.
pub fn finish<R: LineReader>(
    reader: &mut R,
    lines: &mut Lines,
    progress: Progress,
) -> Result<u32, TextFail<R::Fault>>
    requires between { IsBetween lines.old progress }
    requires ready { R.may_take reader.old progress.number }
    ensures ok { OnOk result
        (reading R.rules (so_far progress (R.held reader.old)) (lines_of (open_line lines.old))
        ≡ Ok (R.held reader.new)) }
    ensures ready { IfOk result (R.may_take reader.new) }
    ensures err { IfErr result (λ e. IsRefused e
        (reading R.rules (so_far progress (R.held reader.old)) (lines_of (open_line lines.old)))) }
{
    match lines.finish() {
        LineState::Partial | LineState::TooLong => end(reader, progress.number),
        LineState::Whole | LineState::Continued => {
            reader.take_line(lines, progress.number)?;
            end(reader, progress.number + 1)
        }
    }
}
