//! What a program says on the error sink where it stops, and with which status.
ghost use Rattle.std.specs.Prelude.{◌≡◌, ◌≢◌, ◌⊎◌, ◌≤◌, ◌++◌, length, codes};
ghost use Rattle.pm_io.specs.Devices.{Unput, Tells};
ghost use Rattle.pm_program.specs.Stops.{stop_text, stop_status};

use pm_io::{Line, Sink, put_all};
use std::io::ErrorKind;

/// Why a program stops, where its input isn't at fault.
#[derive(Clone, Copy, Debug, PartialEq, Eq)]
pub enum Stop {
    /// Its words aren't understood. The status is 2.
    Words,
    /// A read failed. The status is 3.
    Read,
    /// A write failed. The status is 4.
    Write,
    /// Memory was wanting. The status is 5.
    OutOfMemory,
}

/// Puts text on the error sink. That it fails changes nothing.
pub fn say<E: Sink>(err: &mut E, text: &[u8])
    ensures { Tells E.Sink err.old err.new text.now }
{
    let _ = put_all(err, text);
}

// The line of a program that stops.
fn put_stop(line: &mut Line, program: &str, why: Stop)
    requires short { length program.now ≤ 16 }
    ensures { line.new ≡ program.now ++ stop_text why }
{
    line.clear();
    line.add(program.as_bytes());
    match why {
        Stop::Words => line.add(b": words not understood\n"),
        Stop::Read => line.add(b": read fault\n"),
        Stop::Write => line.add(b": write fault\n"),
        Stop::OutOfMemory => line.add(b": out of memory\n"),
    }
}

/// Says why a program stops, and answers its status. The program's name has at most 16 bytes.
pub fn tell_stop<E: Sink>(err: &mut E, program: &str, why: Stop) -> u8
    requires short { length program.now ≤ 16 }
    ensures status { result ≡ stop_status why }
    ensures said { Tells E.Sink err.old err.new (program.now ++ stop_text why) }
{
    let mut line = Line::new();
    put_stop(&mut line, program, why);
    say(err, line.as_slice());
    match why {
        Stop::Words => 2,
        Stop::Read => 3,
        Stop::Write => 4,
        Stop::OutOfMemory => 5,
    }
}

/// The status where the words of a program can't be gathered: for want of memory, of which nothing
/// is said, or since one isn't UTF-8 and so none of the forms.
pub fn refuse_words<E: Sink>(err: &mut E, program: &str, kind: ErrorKind) -> u8
    requires short { length program.now ≤ 16 }
    ensures memory { kind ≡ ErrorKind.OutOfMemory → result ≡ 5 }
    ensures other { kind ≢ ErrorKind.OutOfMemory → result ≡ 2 }
    ensures either { (result ≡ 2) ⊎ (result ≡ 5) }
    ensures unsaid { result ≡ 5 → Unput E.Sink err.old err.new }
    ensures said { result ≡ 2
        → Tells E.Sink err.old err.new (program.now ++ codes ": words not understood\n") }
{
    if kind == ErrorKind::OutOfMemory {
        return 5;
    }
    tell_stop(err, program, Stop::Words)
}
