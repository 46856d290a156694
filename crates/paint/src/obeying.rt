//! What the program does with its devices. All memory is taken before the first byte of output.
ghost use Rattle.std.specs.Prelude.{◌≡◌, ◌≤◌, ◌^◌, false, length};
ghost use Rattle.pm_program.specs.Fails.{PutCounts, ReadCounts};
ghost use Rattle.pm_program.specs.Making.{EndsOn, Ends};
ghost use Rattle.paint.specs.Making.{IsMade, Refuses};

use crate::fault::Fault;
use crate::making::paint;
use pm_io::{Sink, Source, put_all};
use pm_program::{MOST, RunFail, of_input, of_make, read_up_to};
use std::alloc::Global;

// Puts what is made of bytes.
fn put_made<K: Sink>(alloc: Global, bytes: &[u8], out: &mut K) -> Result<(), RunFail<Fault>>
    requires { length bytes.now ≤ 2 ^ 30 }
    ensures ends { EndsOn IsMade Refuses result bytes.now (K.got out.old) (K.got out.new) }
    ensures counts { PutCounts result (K.faults out.old) (K.faults out.new) }
{
    match paint(alloc, bytes) {
        Err(fail) => Err(of_make(fail)),
        Ok(text) => match put_all(out, text.as_slice()) {
            Ok(()) => Ok(()),
            Err(_) => Err(RunFail::Write),
        },
    }
}

/// Puts what is made of the input.
pub fn obey<S: Source, K: Sink>(
    alloc: Global,
    input: &mut S,
    out: &mut K,
) -> Result<(), RunFail<Fault>>
    requires { S.ended input.old ≡ false }
    ensures ends { Ends IsMade Refuses result (S.left input.old) (S.left input.new)
        (K.got out.old) (K.got out.new) }
    ensures puts { PutCounts result (K.faults out.old) (K.faults out.new) }
    ensures reads { ReadCounts result (S.faults input.old) (S.faults input.new) }
{
    match read_up_to(alloc, MOST, input) {
        Err(fail) => Err(of_input(fail)),
        Ok(bytes) => put_made(alloc, bytes.as_slice(), out),
    }
}
