//! The program over any source and sinks.
ghost use Rattle.std.specs.Prelude.{◌≡◌, ℕ, false, codes};
ghost use Rattle.pm_io.specs.Endings.{SaysEnding, NoneFailed};
ghost use Rattle.pm_program.specs.Endings.{Endings, Outcomes};
ghost use Rattle.pm_program.specs.Requests.{TellsTexts};
ghost use Rattle.pm_program.specs.Replies.{Replies, PutsAll, TellsFault, Breaks};
ghost use Rattle.pm_program.specs.Replies.{ReadsFront, Unreached};
ghost use Rattle.pack.specs.Help.{help_text};
ghost use Rattle.pack.specs.declared.words.Asked.{Asked};
ghost use Rattle.pack.specs.Words.{asked_of, Asks};
ghost use Rattle.pack.specs.Making.{IsMade, Refuses};
ghost use Rattle.pack.specs.FaultLine.{fault_line};

use crate::help::help_text;
use crate::obeying::obey;
use crate::said::tell;
use crate::words::{Asked, read_words};
use pm_io::{Sink, Source};
use pm_pack::packed_texts_are_sound;
use pm_program::{Request, Stop, refuse_words, tell_stop, tell_text, tell_version};
use std::alloc::Global;
use std::env::Args;
use std::io;

/// Packs a stream text, or with `--unpack` unpacks a packed text, or the first records of one, and
/// answers the exit status.
///
/// `args` are the program's name and the words after it, or why they couldn't be gathered. Of the
/// input the first 2^30 bytes are looked at, and at most 4,095 more are read. `--help` or
/// `--version` alone asks for a text, and nothing is read. What ended the work early is said on
/// `err`. Status 0: all was done. 1: the input has a fault. 2: the words are none of the forms. 3:
/// a read failed. 4: a write to `out` failed. 5: memory was wanted, before the first byte of
/// output.
pub fn run<S: Source, K: Sink, E: Sink>(
    alloc: Global,
    args: io::Result<Args>,
    input: &mut S,
    out: &mut K,
    err: &mut E,
) -> u8
    // The input hasn't ended; once it has, it isn't asked again.
    requires { S.ended input.old ≡ false }
    ensures endings { Endings S.Source K.Sink E.Sink args result input.old input.new out.old out.new
        err.old err.new }
    ensures outcomes { Outcomes S.Source K.Sink E.Sink (codes "pack") args (asked_of args) result
        input.old input.new out.old out.new err.old err.new }
    ensures said { SaysEnding E.Sink (codes "pack") result err.old err.new }
    ensures texts { TellsTexts S.Source K.Sink E.Sink (codes "pack") help_text (asked_of args)
        result input.old input.new out.old out.new err.old err.new }
    // Exactly a packed text of the stream text that was read was put, or with `--unpack` the stream
    // text that the packed text is of; and the input was read to its end.
    ensures packs { Asks args Asked.Pack → result ≡ 0
        → Replies S.Source K.Sink (IsMade Asked.Pack) input.old out.old out.new }
    ensures unpacks { Asks args Asked.Unpack → result ≡ 0
        → Replies S.Source K.Sink (IsMade Asked.Unpack) input.old out.old out.new }
    // With a number of records the text of so many of its first records was put, or of all that the
    // bytes tell, where those are fewer.
    ensures unpacks_first { (n : ℕ) → Asks args (Asked.UnpackFirst n) → result ≡ 0
        → Replies S.Source K.Sink (IsMade (Asked.UnpackFirst n)) input.old out.old out.new }
    ensures read_whole { (asked : Asked) → Asks args asked → result ≡ 0
        → ReadsFront S.Source input.old input.new }
    // Where no device failed, a packed text gives back the text that it was made of, unless memory
    // is wanted.
    ensures leads_back { Asks args Asked.Unpack
        → NoneFailed S.Source K.Sink input.old input.new out.old out.new
        → PutsAll S.Source K.Sink (IsMade Asked.Unpack) result input.old out.old out.new }
    // The input has a fault, which is said: there is no text to put.
    ensures faulty { (asked : Asked) → Asks args asked → result ≡ 1
        → TellsFault S.Source E.Sink (Refuses asked) fault_line input.old err.old err.new }
    // A read failed before the bytes that decide were all taken.
    ensures unreached { result ≡ 3 → Unreached S.Source input.old input.new }
    // A write failed, and a proper prefix of the text was put.
    ensures write { (asked : Asked) → Asks args asked → result ≡ 4
        → Breaks S.Source K.Sink (IsMade asked) input.old out.old out.new }
{
    packed_texts_are_sound();
    let args = match args {
        Ok(args) => args,
        Err(error) => return refuse_words(err, "pack", error.kind()),
    };
    let Some(request) = read_words(args) else {
        return tell_stop(err, "pack", Stop::Words);
    };
    let asked = match request {
        Request::Work(asked) => asked,
        Request::Help => return tell_text(out, err, "pack", help_text()),
        Request::Version => return tell_version(out, err, "pack"),
    };
    match obey(alloc, asked, input, out) {
        Ok(()) => 0,
        Err(fail) => tell(err, fail),
    }
}
