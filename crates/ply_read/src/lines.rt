//! The lines of a header and their words.
ghost use Rattle.std.specs.Prelude.{◌≡◌, ◌<◌, ◌∷◌, [], length, MatchOption, None};
ghost use Rattle.obj_read.specs.Fields.{fields};
ghost use Rattle.ply_read.specs.Lines.{lines, line_of, without_cr, is_word, one, two, three};
ghost use Rattle.ply_read.specs.Lines.{is_only};

use obj_lines::until;
use obj_read::next_field;

/// Without one CR at the end.
#[tactic(auto, unfolding(crate::specs::Lines::without_cr))]
pub(crate) fn without_cr(text: &[u8]) -> &[u8]
    ensures { result.now ≡ without_cr text.now }
{
    let n = text.len();
    if n > 0 && text[n - 1] == b'\r' {
        &text[..n - 1]
    } else {
        text
    }
}

// The first line without its LF, and what stands after it.
fn split_line(bytes: &[u8]) -> (&[u8], &[u8])
    requires { 0 < length bytes.now }
    ensures { lines bytes.now ≡ line_of result.0.now result.1.now ∷ lines result.1.now }
{
    let text = until(b'\n', bytes);
    let end = (text.len() + 1).min(bytes.len());
    (text, &bytes[end..])
}

/// The first line without its LF, and what stands after it.
pub(crate) fn next_line(bytes: &[u8]) -> Option<(&[u8], &[u8])>
    ensures { MatchOption result (lines bytes.now ≡ []) (λ r. lines bytes.now
        ≡ line_of r.0.now r.1.now ∷ lines r.1.now) }
{
    if bytes.is_empty() {
        None
    } else {
        Some(split_line(bytes))
    }
}

pub(crate) fn is_word(word: &[u8], field: &[u8]) -> bool
    ensures { result ≡ is_word word.now field.now }
{
    field == word
}

/// The only word.
pub(crate) fn one(rest: &[u8]) -> Option<&[u8]>
    ensures { MatchOption result (one (fields rest.now) ≡ None)
        (λ a. fields rest.now ≡ a.now ∷ []) }
{
    let (a, rest) = next_field(rest)?;
    if next_field(rest).is_none() {
        Some(a)
    } else {
        None
    }
}

/// Two words, and none after them.
pub(crate) fn two(rest: &[u8]) -> Option<(&[u8], &[u8])>
    ensures { MatchOption result (two (fields rest.now) ≡ None)
        (λ r. fields rest.now ≡ r.0.now ∷ r.1.now ∷ []) }
{
    let (a, rest) = next_field(rest)?;
    let (b, rest) = next_field(rest)?;
    if next_field(rest).is_none() {
        Some((a, b))
    } else {
        None
    }
}

/// Three words, and none after them.
pub(crate) fn three(rest: &[u8]) -> Option<(&[u8], &[u8], &[u8])>
    ensures { MatchOption result (three (fields rest.now) ≡ None)
        (λ r. fields rest.now ≡ r.0.now ∷ r.1.now ∷ r.2.now ∷ []) }
{
    let (a, rest) = next_field(rest)?;
    let (b, rest) = next_field(rest)?;
    let (c, rest) = next_field(rest)?;
    if next_field(rest).is_none() {
        Some((a, b, c))
    } else {
        None
    }
}

/// Whether a line has this word alone.
pub(crate) fn is_only(word: &[u8], text: &[u8]) -> bool
    ensures { result ≡ is_only word.now (one (fields text.now)) }
{
    match one(text) {
        Some(field) => is_word(word, field),
        None => false,
    }
}
