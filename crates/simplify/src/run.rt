//! The program over any source and sinks.
ghost use Rattle.std.specs.Prelude.{◌≡◌, ◌≤◌, map, false, None, codes};
ghost use Rattle.std.specs.String.{string_bytes};
ghost use Rattle.pm_io.specs.Endings.{Untouched, CountsFaults, Says};
ghost use Rattle.pm_program.specs.Requests.{TellsTexts};
ghost use Rattle.simplify.specs.Help.{help_text};
ghost use Rattle.simplify.specs.Words.{asked_by};
ghost use Rattle.simplify.specs.Asking.{Asks};
ghost use Rattle.simplify.specs.Endings.{Obeys};

use crate::help::help_text;
use crate::words::read_words;
use pm_commands::{obey, outcomes_are_sound, tell};
use pm_io::{Sink, Source};
use pm_program::{Request, Stop, tell_stop, tell_text, tell_version};
use std::alloc::Global;

/// Does what the words after the program's name ask for, and answers the exit status.
///
/// Reads an OBJ text from `input`, and writes to `out` the stream text of its mesh simplified to N
/// faces, or as far as pairs may be collapsed; without N to none. With `--digits D` coordinates
/// have D decimals, else none. With `--keep-border` as the last word no vertex on the border is
/// collapsed, so that each front shows the border as it is. `--help` or `--version` alone asks for
/// a text, and nothing is read. What ended the work early is said on `err`. Status 0: all was done.
/// 1: the input has a fault. 2: the words are none of the forms. 3: a read failed before the bytes
/// that decide the outcome were taken. 4: a write to `out` failed. 5: memory was wanted, before the
/// first byte of output.
pub fn run<S: Source, K: Sink, E: Sink>(
    alloc: Global,
    words: &[String],
    input: &mut S,
    out: &mut K,
    err: &mut E,
) -> u8
    // The input hasn't ended; once it has, it isn't asked again.
    requires { S.ended input.old ≡ false }
    ensures statuses { result ≤ 5 }
    // Other words are refused, and only they; then nothing is read or put.
    ensures refused { asked_by (map string_bytes words.now) ≡ None → result ≡ 2 }
    ensures known { result ≡ 2 → asked_by (map string_bytes words.now) ≡ None }
    ensures untouched { result ≡ 2 → Untouched S.Source K.Sink input.old input.new out.old out.new }
    // What was asked for was done, or the status tells why not.
    ensures obeys { Obeys S.Source K.Sink E.Sink (λ a. Asks words.now a) result input.old input.new
        out.old out.new err.old err.new }
    ensures texts { TellsTexts S.Source K.Sink E.Sink (codes "simplify") help_text
        (asked_by (map string_bytes words.now)) result input.old input.new out.old out.new err.old
        err.new }
    ensures counts { CountsFaults S.Source K.Sink result input.old input.new out.old out.new }
    ensures said { Says E.Sink (codes "simplify") result err.old err.new }
{
    outcomes_are_sound();
    let Some(request) = read_words(words) else {
        return tell_stop(err, "simplify", Stop::Words);
    };
    let asked = match request {
        Request::Work(asked) => asked,
        Request::Help => return tell_text(out, err, "simplify", help_text()),
        Request::Version => return tell_version(out, err, "simplify"),
    };
    match obey(alloc, asked, input, out) {
        Ok(()) => 0,
        Err(fail) => tell(err, "simplify", fail),
    }
}
