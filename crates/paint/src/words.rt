//! The words of the command line.
ghost use Rattle.std.specs.Prelude.{◌≡◌, map, drop};
ghost use Rattle.std.specs.String.{string_bytes};
ghost use Rattle.std.specs.Vec.Iter.{into_iter_items};
ghost use Rattle.paint.specs.Words.{asked_by};

use pm_program::{Request, text_asked};
use std::env::Args;

/// What the words after the program's name ask for; none where they are none of the forms.
pub fn read_words(args: Args) -> Option<Request<()>>
    ensures { result ≡ asked_by (map string_bytes (drop 1 (into_iter_items args))) }
{
    let mut words = args;
    let _name = words.next();
    let Some(word) = words.next() else {
        return Some(Request::Work(()));
    };
    if words.next().is_some() {
        return None;
    }
    text_asked(&word)
}
