//! The words of the command line.
ghost use Rattle.std.specs.Prelude.{◌≡◌, ◌≤◌, map, IfSome};
ghost use Rattle.std.specs.String.{string_bytes};
ghost use Rattle.pm_commands.specs.declared.asked.Border.{Border};
ghost use Rattle.pm_commands.specs.Asked.{digits_asked, HasSize};
ghost use Rattle.simplify.specs.Words.{with_border, work_of, text_of, asked_by, IsPossible};

use pm_commands::{Asked, Border};
use pm_io::read_unsigned;
use pm_program::{Request, text_asked};

// What the words before `--keep-border` ask for.
#[tactic(auto, using(pm_io::proofs::DigitLaws::unsigned_most), unfolding(crate::specs::Words::with_border))]
fn with_border(words: &[String], border: Border) -> Option<Asked>
    ensures asked { result ≡ with_border border (map string_bytes words.now) }
    ensures few { IfSome result (λ a. digits_asked a ≤ 4) }
    ensures size { IfSome result HasSize }
{
    match words {
        [] => Some(Asked::Simplify(0, 0, border)),
        [number] => {
            let target = read_unsigned(number.as_bytes(), u32::MAX)?;
            Some(Asked::Simplify(target, 0, border))
        }
        [flag, digits] => {
            let digits = read_unsigned(digits.as_bytes(), 4)?;
            if flag.as_str() == "--digits" {
                Some(Asked::Simplify(0, digits, border))
            } else {
                None
            }
        }
        [number, flag, digits] => {
            let target = read_unsigned(number.as_bytes(), u32::MAX)?;
            let digits = read_unsigned(digits.as_bytes(), 4)?;
            if flag.as_str() == "--digits" {
                Some(Asked::Simplify(target, digits, border))
            } else {
                None
            }
        }
        _ => None,
    }
}

// The work that the words ask for.
#[tactic(auto, using(crate::proofs::WordsLaws::no_last))]
fn read_work(words: &[String]) -> Option<Asked>
    ensures asked { result ≡ work_of (map string_bytes words.now) }
    ensures few { IfSome result (λ a. digits_asked a ≤ 4) }
    ensures size { IfSome result HasSize }
{
    let Some((last, before)) = words.split_last() else {
        return with_border(words, Border::Free);
    };
    if last.as_str() == "--keep-border" {
        with_border(before, Border::Kept)
    } else {
        with_border(words, Border::Free)
    }
}

// The text that the words ask for.
#[tactic(auto, using(crate::proofs::WordsLaws::texts_are_possible))]
fn text_of(words: &[String]) -> Option<Request<Asked>>
    ensures asked { result ≡ text_of (map string_bytes words.now) }
    ensures possible { IfSome result IsPossible }
{
    match words {
        [word] => text_asked(word),
        _ => None,
    }
}

/// What the words ask for; none where they are none of the forms.
#[tactic(auto, unfolding(crate::specs::Words::asked_by))]
pub fn read_words(words: &[String]) -> Option<Request<Asked>>
    ensures asked { result ≡ asked_by (map string_bytes words.now) }
    ensures possible { IfSome result IsPossible }
{
    if let Some(text) = text_of(words) {
        return Some(text);
    }
    let asked = read_work(words)?;
    Some(Request::Work(asked))
}
