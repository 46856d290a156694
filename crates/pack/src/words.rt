//! The words of the command line.
ghost use Rattle.std.specs.Prelude.{◌≡◌, [], ◌∷◌, map, drop};
ghost use Rattle.std.specs.String.{string_bytes};
ghost use Rattle.std.specs.Vec.Iter.{into_iter_items};
ghost use Rattle.pack.specs.Words.{asked_by};

use pm_io::read_unsigned;
use pm_program::{Request, text_asked};
use std::env::Args;

/// How many records may be asked for, at most.
pub const MOST_RECORDS: u32 = 0xffff_ffff;

/// What work the program is asked for.
#[derive(Clone, Copy, Debug, PartialEq, Eq)]
pub enum Asked {
    /// Pack a stream text.
    Pack,
    /// Unpack a packed text.
    Unpack,
    /// Unpack its first records, at most so many.
    UnpackFirst(u32),
}

// What one word asks for.
fn asked_with(word: &str) -> Option<Request<Asked>>
    ensures { result ≡ asked_by (word.now ∷ []) }
{
    if word == "--unpack" {
        Some(Request::Work(Asked::Unpack))
    } else {
        text_asked(word)
    }
}

// What three words ask for.
fn asked_with_count(word: &str, flag: &str, count: &str) -> Option<Request<Asked>>
    ensures { result ≡ asked_by (word.now ∷ flag.now ∷ count.now ∷ []) }
{
    if word != "--unpack" || flag != "--records" {
        return None;
    }
    match read_unsigned(count.as_bytes(), MOST_RECORDS) {
        Some(n) => Some(Request::Work(Asked::UnpackFirst(n))),
        None => None,
    }
}

/// What the words after the program's name ask for; none where they are none of the forms.
pub fn read_words(args: Args) -> Option<Request<Asked>>
    ensures { result ≡ asked_by (map string_bytes (drop 1 (into_iter_items args))) }
{
    let mut words = args;
    let _name = words.next();
    let Some(word) = words.next() else {
        return Some(Request::Work(Asked::Pack));
    };
    let Some(flag) = words.next() else {
        return asked_with(&word);
    };
    let Some(count) = words.next() else {
        return None;
    };
    if words.next().is_some() {
        return None;
    }
    asked_with_count(&word, &flag, &count)
}
