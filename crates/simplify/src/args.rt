//! The program over its arguments, the first of which is its name.
ghost use Rattle.std.specs.Prelude.{◌≡◌, ◌⊎◌, false, None, codes};
ghost use Rattle.pm_io.specs.Devices.{Unput, Tells};
ghost use Rattle.pm_io.specs.Endings.{Untouched, SaysEnding};
ghost use Rattle.pm_program.specs.Endings.{Endings};
ghost use Rattle.pm_program.specs.Requests.{TellsTexts};
ghost use Rattle.simplify.specs.Help.{help_text};
ghost use Rattle.simplify.specs.Asking.{asked_of, ArgsAsk};
ghost use Rattle.simplify.specs.Endings.{Obeys};

use crate::run::run;
use pm_commands::words_after_name;
use pm_io::{Sink, Source};
use pm_program::refuse_words;
use std::alloc::Global;
use std::env::Args;
use std::io;

/// Does what the words after the program's name ask for, as `run` does, and answers the exit
/// status. Where the words can't be gathered nothing is read or put: 2 where one isn't UTF-8, and 5
/// where memory was wanted.
pub fn answer<S: Source, K: Sink, E: Sink>(
    alloc: Global,
    args: io::Result<Args>,
    input: &mut S,
    out: &mut K,
    err: &mut E,
) -> u8
    // The input hasn't ended; once it has, it isn't asked again.
    requires { S.ended input.old ≡ false }
    ensures endings { Endings S.Source K.Sink E.Sink args result input.old input.new out.old out.new
        err.old err.new }
    // Words that ask for nothing are refused, and only they.
    ensures refused { asked_of args ≡ None → (result ≡ 2) ⊎ (result ≡ 5) }
    ensures known { result ≡ 2 → asked_of args ≡ None }
    // What was asked for was done, or the status tells why not.
    ensures obeys { Obeys S.Source K.Sink E.Sink (λ a. ArgsAsk args a) result input.old input.new
        out.old out.new err.old err.new }
    // A text that was asked for is told, unless the words can't be gathered for want of memory.
    ensures texts { ((result ≡ 5)
        × Untouched S.Source K.Sink input.old input.new out.old out.new)
        ⊎ TellsTexts S.Source K.Sink E.Sink (codes "simplify") help_text (asked_of args) result
        input.old input.new out.old out.new err.old err.new }
    ensures said { SaysEnding E.Sink (codes "simplify") result err.old err.new }
    // Where memory is wanted it is said, but where the words can't be gathered: then nothing is
    // read or put.
    ensures said_memory { result ≡ 5 → (Unput E.Sink err.old err.new
        × Untouched S.Source K.Sink input.old input.new out.old out.new)
        ⊎ Tells E.Sink err.old err.new (codes "simplify: out of memory\n") }
{
    let args = match args {
        Ok(args) => args,
        Err(error) => return refuse_words(err, "simplify", error.kind()),
    };
    match words_after_name(alloc, args) {
        Ok(words) => run(alloc, &words, input, out, err),
        Err(_) => 5,
    }
}
