//! What is said on the error sink.
ghost use Rattle.std.specs.Prelude.{◌≡◌, ◌≤◌, length, codes};
ghost use Rattle.pm_io.specs.Devices.{Tells};
ghost use Rattle.pm_program.specs.Fails.{status_of, fail_line};
ghost use Rattle.pack.specs.FaultLine.{place_line, bare_line, stream_line, fault_line};

use pm_format::FormatError;
use pm_io::{Line, Sink};
use pm_pack::Fault;
use pm_program::{RunFail, Stop, say, tell_stop};

// A fault with a place: a word for what is counted, its number, and why it is a fault.
#[tactic(auto, unfolding(crate::specs::FaultLine::place_line))]
fn put_place(line: &mut Line, number: u32, word: &[u8], place: u32, why: &[u8])
    requires word { length word.now ≤ 16 }
    requires why { length why.now ≤ 40 }
    ensures { line.new ≡ place_line number word.now place why.now }
{
    line.clear();
    line.add(b"pack: fault ");
    line.add_number(number);
    line.add(b" ");
    line.add(word);
    line.add(b" ");
    line.add_number(place);
    line.add(b" (");
    line.add(why);
    line.add(b")\n");
}

// A fault without a place.
#[tactic(auto, unfolding(crate::specs::FaultLine::bare_line))]
fn put_number(line: &mut Line, number: u32, why: &[u8])
    requires { length why.now ≤ 40 }
    ensures { line.new ≡ bare_line number why.now }
{
    line.clear();
    line.add(b"pack: fault ");
    line.add_number(number);
    line.add(b" (");
    line.add(why);
    line.add(b")\n");
}

// A line as it stands.
fn put_text(line: &mut Line, text: &[u8])
    requires { length text.now ≤ 40 }
    ensures { line.new ≡ text.now }
{
    line.clear();
    line.add(text);
}

// A fault of a stream text.
fn put_stream_fault(line: &mut Line, fault: FormatError)
    ensures { line.new ≡ stream_line fault }
{
    let number = Fault::Stream(fault).number();
    match fault {
        FormatError::BadMagic => put_number(line, number, b"it begins otherwise than a stream"),
        FormatError::BadVersion(version) => put_place(
            line, number, b"version", version, b"unknown",
        ),
        FormatError::BadDigits(digits) => put_place(line, number, b"digits", digits, b"not 1 to 4"),
        FormatError::Truncated(bytes) => put_place(line, number, b"byte", bytes, b"cut off"),
        FormatError::BadCount => put_number(line, number, b"the counts break their rule"),
        FormatError::BadRoot(root) => put_place(line, number, b"root", root, b"not in its place"),
        FormatError::BadFace(face) => {
            put_place(line, number, b"face", face, b"not between three roots")
        }
        FormatError::BadRecord(record) => {
            put_place(
                line,
                number,
                b"record",
                record,
                b"it doesn't fit those before it",
            )
        }
        FormatError::BadInput(field) => put_place(line, number, b"input", field, b"a wrong number"),
        FormatError::OutOfMemory => put_text(line, b"pack: out of memory\n"),
    }
}

// A fault.
#[tactic(auto, unfolding(crate::specs::FaultLine::fault_line))]
fn put_fault(line: &mut Line, fault: Fault)
    ensures { line.new ≡ fault_line fault }
{
    let number = fault.number();
    match fault {
        Fault::Stream(fault) => put_stream_fault(line, fault),
        Fault::Trailing => put_number(line, number, b"bytes follow the stream"),
        Fault::NotPacked => put_number(line, number, b"it begins otherwise than a packed text"),
        Fault::Cut => put_number(line, number, b"the packed text is cut off or damaged"),
        Fault::PackedTrailing => put_number(line, number, b"bytes follow the packed text"),
    }
}

// Says which fault the input has.
fn say_fault<E: Sink>(err: &mut E, fault: Fault)
    ensures { Tells E.Sink err.old err.new (fault_line fault) }
{
    let mut line = Line::new();
    put_fault(&mut line, fault);
    say(err, line.as_slice());
}

/// Says why the program ended early, and answers its status.
#[tactic(auto, unfolding(pm_program::specs::Fails::fail_line))]
pub fn tell<E: Sink>(err: &mut E, fail: RunFail<Fault>) -> u8
    ensures status { result ≡ status_of fail }
    ensures said { Tells E.Sink err.old err.new (fail_line (codes "pack") fault_line fail) }
{
    match fail {
        RunFail::Faulty(fault) => {
            say_fault(err, fault);
            1
        }
        RunFail::Read => tell_stop(err, "pack", Stop::Read),
        RunFail::Write => tell_stop(err, "pack", Stop::Write),
        RunFail::OutOfMemory => tell_stop(err, "pack", Stop::OutOfMemory),
    }
}
