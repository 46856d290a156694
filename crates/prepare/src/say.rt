//! What is said on the error sink.
ghost use Rattle.std.specs.Prelude.{◌≡◌, ◌+◌, ◌≤◌, ◌++◌, length, codes};
ghost use Rattle.pm_io.specs.Devices.{Tells};
ghost use Rattle.pm_program.specs.Fails.{status_of, fail_line};
ghost use Rattle.prepare.specs.Ending.{place_text, prepare_fault_line};

use obj_fit::Fault;
use pm_io::{Line, Sink};
use pm_program::{RunFail, Stop, say, tell_stop};

// Adds the line or the byte that has a fault, where one has.
fn add_place(line: &mut Line, what: &[u8], place: Option<u32>)
    requires room { length line.old ≤ 60 }
    requires short { length what.now ≤ 6 }
    ensures text { line.new ≡ line.old ++ place_text what.now place }
    ensures short { length line.new ≤ length line.old + 16 }
{
    if let Some(number) = place {
        line.add(what);
        line.add_number(number);
    }
}

// The line of a fault.
#[tactic(auto, unfolding(crate::specs::Ending::prepare_fault_line))]
fn put_fault(line: &mut Line, fault: Fault)
    ensures { line.new ≡ prepare_fault_line fault }
{
    line.clear();
    line.add(b"prepare: fault ");
    line.add_number(fault.number());
    add_place(line, b" line ", fault.line());
    add_place(line, b" byte ", fault.byte());
    line.add(b" (");
    line.add(fault.reason());
    line.add(b")\n");
}

// Says which fault the input has.
fn say_fault<E: Sink>(err: &mut E, fault: Fault)
    ensures { Tells E.Sink err.old err.new (prepare_fault_line fault) }
{
    let mut line = Line::new();
    put_fault(&mut line, fault);
    say(err, line.as_slice());
}

/// Says why the program ended early, and answers its status.
#[tactic(auto, unfolding(pm_program::specs::Fails::fail_line))]
pub fn tell<E: Sink>(err: &mut E, fail: RunFail<Fault>) -> u8
    ensures status { result ≡ status_of fail }
    ensures said { Tells E.Sink err.old err.new
        (fail_line (codes "prepare") prepare_fault_line fail) }
{
    match fail {
        RunFail::Faulty(fault) => {
            say_fault(err, fault);
            1
        }
        RunFail::Read => tell_stop(err, "prepare", Stop::Read),
        RunFail::Write => tell_stop(err, "prepare", Stop::Write),
        RunFail::OutOfMemory => tell_stop(err, "prepare", Stop::OutOfMemory),
    }
}
