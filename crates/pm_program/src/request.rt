//! What a program is asked for, and what it tells of itself.
ghost use Rattle.std.specs.Prelude.{◌≡◌, ◌≤◌, ◌++◌, length};
ghost use Rattle.pm_program.specs.Requests.{text_asked, version_text, PutsText};

use crate::stop::{Stop, tell_stop};
use pm_io::{Line, Sink, put_all};

/// What the words after a program's name ask for, where `W` is what its work may be.
#[derive(Clone, Copy, Debug, PartialEq, Eq)]
pub enum Request<W> {
    /// The program's work.
    Work(W),
    /// What the program does, and which words it takes.
    Help,
    /// Which version of the program this is.
    Version,
}

/// The text that a word alone asks for, if it asks for one.
pub fn text_asked<W>(word: &str) -> Option<Request<W>>
    ensures { result ≡ text_asked word.now }
{
    if word == "--help" {
        Some(Request::Help)
    } else if word == "--version" {
        Some(Request::Version)
    } else {
        None
    }
}

/// Puts a text that a program tells of itself, and answers the status: 0, or 4 where the write
/// failed, which is said. The program's name has at most 16 bytes.
pub fn tell_text<K: Sink, E: Sink>(out: &mut K, err: &mut E, program: &str, text: &[u8]) -> u8
    requires short { length program.now ≤ 16 }
    ensures { PutsText K.Sink E.Sink program.now text.now result out.old out.new err.old err.new }
{
    match put_all(out, text) {
        Ok(()) => 0,
        Err(_) => tell_stop(err, program, Stop::Write),
    }
}

/// Puts the name and the version of a program, and answers the status as `tell_text`.
#[tactic(auto, unfolding(crate::specs::Requests::version_text))]
pub fn tell_version<K: Sink, E: Sink>(out: &mut K, err: &mut E, program: &str) -> u8
    requires short { length program.now ≤ 16 }
    ensures { PutsText K.Sink E.Sink program.now (version_text program.now) result out.old out.new
        err.old err.new }
{
    let mut line = Line::new();
    line.add(program.as_bytes());
    line.add(b" 1.3.0, of the proved sources; the script beside it tells whether it is proved\n");
    tell_text(out, err, program, line.as_slice())
}
