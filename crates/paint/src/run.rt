//! The program over any source and sinks.
ghost use Rattle.std.specs.Prelude.{◌≡◌, false, codes};
ghost use Rattle.pm_io.specs.Endings.{SaysEnding, NoneFailed};
ghost use Rattle.pm_program.specs.Endings.{Endings, Outcomes};
ghost use Rattle.pm_program.specs.Requests.{TellsTexts};
ghost use Rattle.pm_program.specs.Replies.{Replies, PutsAll, TellsFault, Breaks};
ghost use Rattle.pm_program.specs.Replies.{ReadsFront, Unreached};
ghost use Rattle.paint.specs.Help.{help_text};
ghost use Rattle.paint.specs.Words.{asked_of, Asks};
ghost use Rattle.paint.specs.Making.{IsMade, Refuses};
ghost use Rattle.paint.specs.FaultLine.{fault_line};

use crate::help::help_text;
use crate::obeying::obey;
use crate::said::tell;
use crate::words::read_words;
use pm_io::{Sink, Source};
use pm_program::{Request, Stop, refuse_words, tell_stop, tell_text, tell_version};
use std::alloc::Global;
use std::env::Args;
use std::io;

/// Writes what each node of a stream has of what the coat behind it says of the input's vertices,
/// and which page each face has, and answers the exit status.
///
/// `args` are the program's name and the words after it, or why they couldn't be gathered. Of the
/// input the first 2^30 bytes are looked at, and at most 4,095 more are read. `--help` or
/// `--version` alone asks for a text, and nothing is read. What ended the work early is said on
/// `err`. Status 0: all was done. 1: the input has a fault. 2: there are other words. 3: a read
/// failed. 4: a write to `out` failed. 5: memory was wanted, before the first byte of output.
pub fn run<S: Source, K: Sink, E: Sink>(
    alloc: Global,
    args: io::Result<Args>,
    input: &mut S,
    out: &mut K,
    err: &mut E,
) -> u8
    // The input hasn't ended; once it has, it isn't asked again.
    requires { S.ended input.old ≡ false }
    ensures endings { Endings S.Source K.Sink E.Sink args result input.old input.new out.old out.new
        err.old err.new }
    ensures outcomes { Outcomes S.Source K.Sink E.Sink (codes "paint") args (asked_of args) result
        input.old input.new out.old out.new err.old err.new }
    ensures said { SaysEnding E.Sink (codes "paint") result err.old err.new }
    ensures texts { TellsTexts S.Source K.Sink E.Sink (codes "paint") help_text (asked_of args)
        result input.old input.new out.old out.new err.old err.new }
    // Exactly the lines of the coat that was read were put; and the input was read to its end.
    ensures lines { Asks args → result ≡ 0
        → Replies S.Source K.Sink IsMade input.old out.old out.new }
    ensures read_whole { Asks args → result ≡ 0 → ReadsFront S.Source input.old input.new }
    // Where no device failed, the lines of a coat that fits its stream are put, unless memory is
    // wanted.
    ensures whole { Asks args
        → NoneFailed S.Source K.Sink input.old input.new out.old out.new
        → PutsAll S.Source K.Sink IsMade result input.old out.old out.new }
    // The input has a fault, which is said: there are no lines to put.
    ensures faulty { result ≡ 1
        → TellsFault S.Source E.Sink Refuses fault_line input.old err.old err.new }
    // A read failed before the bytes that decide were all taken.
    ensures unreached { result ≡ 3 → Unreached S.Source input.old input.new }
    // A write failed, and a proper prefix of the lines was put.
    ensures write { Asks args → result ≡ 4
        → Breaks S.Source K.Sink IsMade input.old out.old out.new }
{
    let args = match args {
        Ok(args) => args,
        Err(error) => return refuse_words(err, "paint", error.kind()),
    };
    let Some(request) = read_words(args) else {
        return tell_stop(err, "paint", Stop::Words);
    };
    match request {
        Request::Work(()) => {}
        Request::Help => return tell_text(out, err, "paint", help_text()),
        Request::Version => return tell_version(out, err, "paint"),
    }
    match obey(alloc, input, out) {
        Ok(()) => 0,
        Err(fail) => tell(err, fail),
    }
}
