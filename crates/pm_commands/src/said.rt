//! What is said on the error sink.
ghost use Rattle.std.specs.Prelude.{◌≡◌, ◌≤◌, ◌++◌, length, codes};
ghost use Rattle.pm_commands.specs.FaultText.{place_text, bare_text, stream_text, fault_text};
ghost use Rattle.pm_commands.specs.FaultText.{fail_text};
ghost use Rattle.pm_commands.specs.Ending.{status_of};
ghost use Rattle.pm_io.specs.Devices.{Tells};

use crate::fault::{CommandFail, Fault};
use pm_format::FormatError;
use pm_io::{Line, Sink, put_all};

/// Puts a line on the error sink. That it fails changes nothing.
pub fn say<E: Sink>(err: &mut E, text: &[u8])
    ensures { Tells E.Sink err.old err.new text.now }
{
    let _ = put_all(err, text);
}

// A fault with a place: a word for what is counted, and its number.
#[tactic(auto, unfolding(crate::specs::FaultText::place_text))]
fn put_place(line: &mut Line, number: u32, word: &[u8], place: u64)
    requires begun { length line.old ≤ 64 }
    requires short { length word.now ≤ 16 }
    ensures { line.new ≡ line.old ++ place_text number word.now place }
{
    line.add(b"fault ");
    line.add_number(number);
    line.add(b" ");
    line.add(word);
    line.add(b" ");
    line.add_long_number(place);
    line.add(b"\n");
}

// A fault without a place.
#[tactic(auto, unfolding(crate::specs::FaultText::bare_text))]
fn put_number(line: &mut Line, number: u32)
    requires { length line.old ≤ 64 }
    ensures { line.new ≡ line.old ++ bare_text number }
{
    line.add(b"fault ");
    line.add_number(number);
    line.add(b"\n");
}

// A fault of a stream text.
fn put_stream_fault(line: &mut Line, fault: FormatError)
    requires { length line.old ≤ 64 }
    ensures { line.new ≡ line.old ++ stream_text fault }
{
    match fault {
        FormatError::BadMagic => put_number(line, 20),
        FormatError::BadVersion(version) => put_place(line, 21, b"version", u64::from(version)),
        FormatError::BadDigits(digits) => put_place(line, 33, b"digits", u64::from(digits)),
        FormatError::Truncated(bytes) => put_place(line, 22, b"byte", u64::from(bytes)),
        FormatError::BadCount => put_number(line, 23),
        FormatError::BadRoot(root) => put_place(line, 24, b"root", u64::from(root)),
        FormatError::BadFace(face) => put_place(line, 25, b"face", u64::from(face)),
        FormatError::BadRecord(record) => put_place(line, 26, b"record", u64::from(record)),
        FormatError::BadInput(field) => put_place(line, 27, b"input", u64::from(field)),
        FormatError::OutOfMemory => line.add(b"out of memory\n"),
    }
}

// A fault.
#[tactic(auto, unfolding(crate::specs::FaultText::fault_text))]
fn put_fault(line: &mut Line, fault: Fault)
    requires { length line.old ≤ 64 }
    ensures { line.new ≡ line.old ++ fault_text fault }
{
    match fault {
        Fault::Stream(fault) => put_stream_fault(line, fault),
        Fault::BadNeighbour(record) => put_place(line, 28, b"record", u64::from(record)),
        Fault::Trailing => put_number(line, 29),
        Fault::BadLine(number) => put_place(line, 30, b"line", number),
        Fault::NoRecord(number) => put_place(line, 31, b"line", number),
        Fault::ScriptTooLong => put_number(line, 32),
        Fault::Obj(fault, number) => put_place(line, fault.number(), b"line", u64::from(number)),
        Fault::EdgeTwice(face) => put_place(line, 11, b"face", u64::from(face)),
        Fault::LeafEdgeTwice(face) => put_place(line, 11, b"face", u64::from(face)),
        Fault::NotFan(vertex) => put_place(line, 12, b"vertex", u64::from(vertex)),
        Fault::NoMesh => put_number(line, 14),
    }
}

// Why a command ended early.
#[tactic(auto, unfolding(crate::specs::FaultText::fail_text))]
fn put_fail(line: &mut Line, fail: CommandFail)
    requires { length line.old ≤ 64 }
    ensures { line.new ≡ line.old ++ fail_text fail }
{
    match fail {
        CommandFail::Faulty(fault) => put_fault(line, fault),
        CommandFail::Read => line.add(b"read fault\n"),
        CommandFail::Write => line.add(b"write fault\n"),
        CommandFail::OutOfMemory => line.add(b"out of memory\n"),
    }
}

/// Says why a command of this program ended early, and answers its status.
pub fn tell<E: Sink>(err: &mut E, program: &str, fail: CommandFail) -> u8
    requires short { length program.now ≤ 16 }
    ensures status { result ≡ status_of fail }
    ensures said { Tells E.Sink err.old err.new (program.now ++ codes ": " ++ fail_text fail) }
{
    let mut line = Line::new();
    line.add(program.as_bytes());
    line.add(b": ");
    put_fail(&mut line, fail);
    say(err, line.as_slice());
    match fail {
        CommandFail::Faulty(_) => 1,
        CommandFail::Read => 3,
        CommandFail::Write => 4,
        CommandFail::OutOfMemory => 5,
    }
}
