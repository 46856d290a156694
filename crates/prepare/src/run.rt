//! The program over any source and sinks.
ghost use Rattle.std.specs.Prelude.{◌≡◌, false, IfOk, IfErr, IfSome, OnOk, Err, codes};
ghost use Rattle.pm_io.specs.Bytes.{AtEnd};
ghost use Rattle.pm_io.specs.Causes.{Rose};
ghost use Rattle.pm_program.specs.Endings.{Endings, Outcomes, SaysStops};
ghost use Rattle.pm_program.specs.Fails.{PutCounts, ReadCounts};
ghost use Rattle.pm_program.specs.Requests.{TellsTexts};
ghost use Rattle.obj_prepare.specs.Placing.{IsSize};
ghost use Rattle.prepare.specs.Help.{help_text};
ghost use Rattle.prepare.specs.declared.words.Asked.{Asked};
ghost use Rattle.prepare.specs.Words.{asked_of, Asks};
ghost use Rattle.prepare.specs.Devices.{Finishes, PutsFitText, LeadsBack, PutsAsItIs, TellsFault};
ghost use Rattle.prepare.specs.Devices.{Unreached, Breaks};
ghost use Rattle.prepare.specs.Ending.{Written, FailsBy, of_make_fail};

use crate::help::help_text;
use crate::say::tell;
use crate::words::read_words;
use obj_fit::{Fault, InputFail, make, write_made};
use pm_io::{Sink, Source};
use pm_program::{Request, RunFail, Stop, refuse_words, say, tell_stop, tell_text, tell_version};
use std::alloc::Global;
use std::env::Args;
use std::io;

fn of_make(fail: InputFail) -> RunFail<Fault>
    ensures { result ≡ of_make_fail fail }
{
    match fail {
        InputFail::Faulty(fault) => RunFail::Faulty(fault),
        InputFail::Read => RunFail::Read,
        InputFail::OutOfMemory => RunFail::OutOfMemory,
    }
}

// Makes a mesh of the input and writes it, and answers what is to be said of it. All memory is
// taken before the first byte of output.
fn obey<S: Source, K: Sink>(
    alloc: Global,
    size: Option<u32>,
    input: &mut S,
    out: &mut K,
) -> Result<Vec<u8>, RunFail<Fault>>
    requires size { IsSize size }
    requires not_ended { S.ended input.old ≡ false }
    ensures written { IfOk result
        (λ notes. IfSome (S.left input.old)
        (λ bytes. Written size bytes notes.items (K.got out.old) (K.got out.new))) }
    ensures counts { OnOk result ((S.faults input.new ≡ S.faults input.old)
        × (K.faults out.new ≡ K.faults out.old)) }
    ensures end { OnOk result (AtEnd (S.left input.new)) }
    ensures err { IfErr result
        (λ e. FailsBy size e (S.left input.old) (S.left input.new) (K.got out.old)
        (K.got out.new)) }
    ensures reads { IfErr result
        (λ e. ReadCounts (Err e) (S.faults input.old) (S.faults input.new)) }
    ensures puts { IfErr result (λ e. PutCounts (Err e) (K.faults out.old) (K.faults out.new)) }
{
    let made = match make(alloc, size, input) {
        Ok(made) => made,
        Err(fail) => return Err(of_make(fail)),
    };
    match write_made(&made, out) {
        Ok(()) => Ok(made.notes),
        Err(_) => Err(RunFail::Write),
    }
}

/// Makes a mesh of any OBJ, STL or PLY file that is an oriented manifold of points on the grid, and
/// answers the exit status.
///
/// `args` are the program's name and the words after it, or why they couldn't be gathered. Without
/// words, points that fit the grid stand as they are, and others are scaled by their box; with one
/// word, a size from 1 to 32,767, the longest axis of the box goes from -size to size. `out` gains
/// a line that tells how places lead back to coordinates, and then the canonical text of the mesh;
/// `err` gains a line for each kind of change. `--help` or `--version` alone asks for a text, and
/// nothing is read. Status 0: all was done. 1: the input has a fault. 2: the words aren't
/// understood. 3: a read failed before the bytes that decide the outcome were taken. 4: a write to
/// `out` failed. 5: memory was wanted, before the first byte of output.
pub fn run<S: Source, K: Sink, E: Sink>(
    alloc: Global,
    args: io::Result<Args>,
    input: &mut S,
    out: &mut K,
    err: &mut E,
) -> u8
    // The input hasn't ended; once it has, it isn't asked again.
    requires { S.ended input.old ≡ false }
    ensures endings { Endings S.Source K.Sink E.Sink args result input.old input.new out.old out.new
        err.old err.new }
    ensures outcomes { Outcomes S.Source K.Sink E.Sink (codes "prepare") args (asked_of args) result
        input.old input.new out.old out.new err.old err.new }
    ensures texts { TellsTexts S.Source K.Sink E.Sink (codes "prepare") help_text (asked_of args)
        result input.old input.new out.old out.new err.old err.new }
    // A mesh was made of the text, exactly its text was put, and what was done is said.
    ensures whole { (asked : Asked) → Asks args asked → result ≡ 0
        → Finishes S.Source K.Sink E.Sink asked.size input.old out.old out.new err.old err.new }
    // What was put is read as an oriented manifold, and prepared again it comes back.
    ensures fit_text { (asked : Asked) → Asks args asked → result ≡ 0
        → PutsFitText S.Source K.Sink input.old out.old out.new }
    // Its first line leads from places to within half a step of the points that were read.
    ensures leads_back { (asked : Asked) → Asks args asked → result ≡ 0
        → LeadsBack S.Source K.Sink asked.size input.old out.old out.new }
    // Triangles that need nothing were put as they are, over the places of their points. Only
    // polygons that were cut, what was passed over, closed surfaces that look inward and faces
    // without area are said, and how places lead back.
    ensures stays { (asked : Asked) → Asks args asked → result ≡ 0
        → PutsAsItIs S.Source K.Sink E.Sink asked.size input.old out.old out.new err.old err.new }
    ensures read_whole { (asked : Asked) → Asks args asked → result ≡ 0
        → AtEnd (S.left input.new) }
    // The text has a fault, which is said, and nothing was put.
    ensures faulty { (asked : Asked) → Asks args asked → result ≡ 1
        → TellsFault S.Source E.Sink asked.size input.old err.old err.new }
    // A read failed before the bytes that decide the outcome were all taken.
    ensures unreached { (asked : Asked) → Asks args asked → result ≡ 3
        → Unreached S.Source asked.size input.old input.new }
    // A write failed, and a proper prefix of the text was put.
    ensures write { (asked : Asked) → Asks args asked → result ≡ 4
        → Rose (K.faults out.old) (K.faults out.new)
        × Breaks S.Source K.Sink asked.size input.old out.old out.new }
    ensures said { SaysStops E.Sink (codes "prepare") result err.old err.new }
{
    let args = match args {
        Ok(args) => args,
        Err(error) => return refuse_words(err, "prepare", error.kind()),
    };
    let Some(request) = read_words(args) else {
        return tell_stop(err, "prepare", Stop::Words);
    };
    let asked = match request {
        Request::Work(asked) => asked,
        Request::Help => return tell_text(out, err, "prepare", help_text()),
        Request::Version => return tell_version(out, err, "prepare"),
    };
    match obey(alloc, asked.size, input, out) {
        Ok(notes) => {
            say(err, &notes);
            0
        }
        Err(fail) => tell(err, fail),
    }
}
