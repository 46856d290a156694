//! The words of the command line.
ghost use Rattle.std.specs.Prelude.{◌≡◌, [], ◌∷◌, map, drop, IfSome};
ghost use Rattle.std.specs.String.{string_bytes};
ghost use Rattle.std.specs.Vec.Iter.{into_iter_items};
ghost use Rattle.prepare.specs.Words.{asked_by, HasSize};

use pm_base::GREATEST_COORDINATE;
use pm_io::read_unsigned;
use pm_program::{Request, text_asked};
use std::env::Args;

/// What work the words ask for.
#[derive(Clone, Copy, Debug, PartialEq, Eq)]
pub struct Asked {
    /// How far from 0 the longest axis goes either way, from 1 to 32,767. None leaves points as
    /// they stand where they fit.
    pub size: Option<u32>,
}

// What a word asks for: a size, or a text.
#[tactic(auto, using(pm_io::proofs::DigitLaws::unsigned_most, crate::proofs::WordLaws::texts_have_size))]
fn asked_with(word: &str) -> Option<Request<Asked>>
    ensures asked { result ≡ asked_by (word.now ∷ []) }
    ensures size { IfSome result HasSize }
{
    match read_unsigned(word.as_bytes(), GREATEST_COORDINATE) {
        None => text_asked(word),
        Some(n) if n != 0 => Some(Request::Work(Asked { size: Some(n) })),
        Some(_) => None,
    }
}

/// What the words after the program's name ask for; none where they aren't understood.
pub fn read_words(args: Args) -> Option<Request<Asked>>
    ensures asked { result ≡ asked_by (map string_bytes (drop 1 (into_iter_items args))) }
    ensures size { IfSome result HasSize }
{
    let mut words = args;
    let _name = words.next();
    let Some(word) = words.next() else {
        return Some(Request::Work(Asked { size: None }));
    };
    if words.next().is_some() {
        return None;
    }
    asked_with(&word)
}
