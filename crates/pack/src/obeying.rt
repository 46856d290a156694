//! What the program does with its devices. All memory is taken before the first byte of output.
ghost use Rattle.std.specs.Prelude.{◌≡◌, false};
ghost use Rattle.pm_io.specs.Puts.{Puts};
ghost use Rattle.pm_program.specs.Fails.{PutCounts, ReadCounts};
ghost use Rattle.pm_program.specs.Making.{EndsOn, Ends};
ghost use Rattle.pm_pack.specs.Beginnings.{text_of, HasDecimals};
ghost use Rattle.pack.specs.Making.{IsMade, Refuses};

use crate::making::make;
use crate::words::Asked;
use pm_format::encode;
use pm_io::{Sink, Source, WriteFault, put_all};
use pm_pack::{Beginning, Fault};
use pm_program::{MOST, RunFail, of_input, of_make, read_up_to};
use std::alloc::Global;

// Puts a text, or that of first records.
fn put_text<K: Sink>(made: &Beginning, out: &mut K) -> Result<(), WriteFault>
    requires { HasDecimals made.now }
    ensures { Puts K.Sink out.old out.new (text_of made.now) result }
{
    match made {
        Beginning::Whole(text) => put_all(out, text.as_slice()),
        Beginning::Part(part) => encode(&part.h, part.digits, out),
    }
}

// Puts what is made of bytes.
fn put_made<K: Sink>(
    alloc: Global,
    asked: Asked,
    bytes: &[u8],
    out: &mut K,
) -> Result<(), RunFail<Fault>>
    ensures ends { EndsOn (IsMade asked) (Refuses asked) result bytes.now (K.got out.old)
        (K.got out.new) }
    ensures counts { PutCounts result (K.faults out.old) (K.faults out.new) }
{
    match make(alloc, asked, bytes) {
        Err(fail) => Err(of_make(fail)),
        Ok(made) => match put_text(&made, out) {
            Ok(()) => Ok(()),
            Err(_) => Err(RunFail::Write),
        },
    }
}

/// Puts what is made of the input.
pub fn obey<S: Source, K: Sink>(
    alloc: Global,
    asked: Asked,
    input: &mut S,
    out: &mut K,
) -> Result<(), RunFail<Fault>>
    requires { S.ended input.old ≡ false }
    ensures ends { Ends (IsMade asked) (Refuses asked) result (S.left input.old)
        (S.left input.new) (K.got out.old) (K.got out.new) }
    ensures puts { PutCounts result (K.faults out.old) (K.faults out.new) }
    ensures reads { ReadCounts result (S.faults input.old) (S.faults input.new) }
{
    match read_up_to(alloc, MOST, input) {
        Err(fail) => Err(of_input(fail)),
        Ok(bytes) => put_made(alloc, asked, bytes.as_slice(), out),
    }
}
