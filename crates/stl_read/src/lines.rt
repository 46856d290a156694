//! The lines of a text.
ghost use Rattle.std.specs.Prelude.{◌≡◌, ◌<◌, ◌∷◌, [], length, MatchOption};
ghost use Rattle.stl_read.specs.Ascii.{texts, without_cr};

use obj_lines::until;

/// Without one CR at the end.
#[tactic(auto, unfolding(crate::specs::Ascii::without_cr))]
pub(crate) fn without_cr(text: &[u8]) -> &[u8]
    ensures { result.now ≡ without_cr text.now }
{
    let n = text.len();
    if n > 0 && text[n - 1] == b'\r' {
        &text[..n - 1]
    } else {
        text
    }
}

// The first line without its LF, and what stands after it.
fn split_line(bytes: &[u8]) -> (&[u8], &[u8])
    requires { 0 < length bytes.now }
    ensures { texts bytes.now ≡ result.0.now ∷ texts result.1.now }
{
    let text = until(b'\n', bytes);
    let end = (text.len() + 1).min(bytes.len());
    (text, &bytes[end..])
}

/// The first line without its LF, and what stands after it.
pub(crate) fn next_line(bytes: &[u8]) -> Option<(&[u8], &[u8])>
    ensures { MatchOption result (texts bytes.now ≡ []) (λ r. texts bytes.now ≡ r.0.now
        ∷ texts r.1.now) }
{
    if bytes.is_empty() {
        None
    } else {
        Some(split_line(bytes))
    }
}
