//! Bytes that are held, taken up to the end of a line, or all of them.
ghost use Rattle.std.specs.Prelude.{ℕ, List, [], Option, ◌≡◌, ◌<◌, ◌≤◌, length, drop, IfOk};
ghost use Rattle.std.specs.Prelude.{IfErr, OnOk};
ghost use Rattle.pm_io.specs.Causes.{HasCause};
ghost use Rattle.obj_lines.specs.Fails.{Explains, of_source};
ghost use Rattle.obj_lines.specs.Reading.{IsBetween, IsReading};

use crate::fault::{LineFault, TextFail};
use crate::limits::MOST_TEXT_BYTES;
use crate::lines::Lines;
use crate::reader::LineReader;
use crate::state::LineState;
use crate::step::Progress;

/// Takes the bytes of a piece that isn't empty, at most up to the end of a line, and has a line
/// taken that has ended. Answers how many bytes were taken.
pub fn take_piece<R: LineReader>(
    piece: &[u8],
    lines: &mut Lines,
    reader: &mut R,
    progress: &mut Progress,
) -> Result<usize, TextFail<R::Fault>>
    requires some { 0 < length piece.now }
    requires between { IsBetween lines.old progress.old }
    requires ready { R.may_take reader.old progress.old.number }
    ensures between { OnOk result (IsBetween lines.new progress.new) }
    ensures ready { OnOk result (R.may_take reader.new progress.new.number) }
    ensures used { IfOk result (λ used. (0 < used) × (used ≤ length piece.now)) }
    ensures reads_on { (h : R.Held) (whole left : Option (List ℕ))
        → IsReading R.rules h whole piece.now left progress.old (R.held reader.old) lines.old
        → IfOk result (λ used. IsReading R.rules h whole (drop used piece.now) left progress.new
        (R.held reader.new) lines.new) }
    ensures more { OnOk result (progress.old.taken < progress.new.taken) }
    ensures err { IfErr result (λ e. (h : R.Held) (whole left now : Option (List ℕ))
        → IsReading R.rules h whole piece.now left progress.old (R.held reader.old) lines.old
        → Explains R.rules h e whole now) }
    ensures cause { (n : ℕ) → HasCause n n (of_source result) }
{
    let room = (MOST_TEXT_BYTES - progress.taken) as usize;
    if room == 0 {
        return Err(TextFail::Fault(LineFault {
            fault: reader.too_many(),
            line: progress.number,
        }));
    }
    let fed = lines.feed(&piece[..room.min(piece.len())]);
    progress.taken += fed.used as u32;
    match fed.state {
        LineState::Partial => Ok(fed.used),
        LineState::TooLong => Err(TextFail::Fault(LineFault {
            fault: reader.too_long(),
            line: progress.number,
        })),
        LineState::Whole | LineState::Continued => {
            reader.take_line(lines, progress.number)?;
            progress.start = progress.taken;
            progress.number += 1;
            Ok(fed.used)
        }
    }
}

/// Takes all of these bytes, and has the lines taken that have ended.
pub fn take_bytes<R: LineReader>(
    bytes: &[u8],
    lines: &mut Lines,
    reader: &mut R,
    progress: &mut Progress,
) -> Result<(), TextFail<R::Fault>>
    requires between { IsBetween lines.old progress.old }
    requires ready { R.may_take reader.old progress.old.number }
    ensures between { OnOk result (IsBetween lines.new progress.new) }
    ensures ready { OnOk result (R.may_take reader.new progress.new.number) }
    ensures reads_on { (h : R.Held) (whole left : Option (List ℕ))
        → IsReading R.rules h whole bytes.now left progress.old (R.held reader.old) lines.old
        → OnOk result
        (IsReading R.rules h whole [] left progress.new (R.held reader.new) lines.new) }
    ensures err { IfErr result (λ e. (h : R.Held) (whole left now : Option (List ℕ))
        → IsReading R.rules h whole bytes.now left progress.old (R.held reader.old) lines.old
        → Explains R.rules h e whole now) }
    ensures cause { (n : ℕ) → HasCause n n (of_source result) }
{
    let mut at = 0;
    while at < bytes.len() {
        at += take_piece(&bytes[at..], lines, reader, progress)?;
    }
    Ok(())
}
