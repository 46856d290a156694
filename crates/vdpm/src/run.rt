//! The program over any source and sinks.
ghost use Rattle.std.specs.Prelude.{◌≡◌, ◌↔◌, ◌≤◌, map, false, None, codes};
ghost use Rattle.std.specs.String.{string_bytes};
ghost use Rattle.pm_io.specs.Endings.{Untouched, CountsFaults, Says};
ghost use Rattle.vdpm.specs.Words.{asked_of};
ghost use Rattle.vdpm.specs.Asking.{Asks};
ghost use Rattle.vdpm.specs.Endings.{Obeys};

use crate::words::read_words;
use pm_commands::{obey, outcomes_are_sound, tell};
use pm_io::{Sink, Source};
use pm_program::{Stop, tell_stop};
use std::alloc::Global;

/// Does what the words after the program's name ask for, as `Asked` tells, and answers the exit
/// status. 0: all was done. 1: the input has a fault, and the replies before it were put. 2: the
/// words are none of the forms. 3: a read failed before the bytes that decide the outcome were
/// taken. 4: a write to `out` failed. 5: memory was wanted, before the first byte of output. What
/// ended a command early is said on `err`.
pub fn run<S: Source, K: Sink, E: Sink>(
    alloc: Global,
    words: &[String],
    input: &mut S,
    out: &mut K,
    err: &mut E,
) -> u8
    // The input hasn't ended; once it has, it isn't asked again.
    requires { S.ended input.old ≡ false }
    ensures statuses { result ≤ 5 }
    // Other words are refused, and only they; then nothing is read or put.
    ensures refused { asked_of (map string_bytes words.now) ≡ None ↔ result ≡ 2 }
    ensures untouched { result ≡ 2 → Untouched S.Source K.Sink input.old input.new out.old out.new }
    // What was asked for was done, or the status tells why not.
    ensures obeys { Obeys S.Source K.Sink E.Sink (λ a. Asks words.now a) result input.old input.new
        out.old out.new err.old err.new }
    ensures counts { CountsFaults S.Source K.Sink result input.old input.new out.old out.new }
    ensures said { Says E.Sink (codes "vdpm") result err.old err.new }
{
    outcomes_are_sound();
    let Some(asked) = read_words(words) else {
        return tell_stop(err, "vdpm", Stop::Words);
    };
    match obey(alloc, asked, input, out) {
        Ok(()) => 0,
        Err(fail) => tell(err, "vdpm", fail),
    }
}
