//! What is read of a line.
ghost use Rattle.std.specs.Prelude.{◌≡◌, ◌≤◌, length};
ghost use Rattle.obj_lines.specs.Text.{until, without_cr, content, is_continued};

/// The bytes before the first that is `stop`, or all where none is.
#[tactic(auto, using(crate::proofs::TextLaws::until_at, crate::proofs::TextLaws::until_none))]
pub fn until(stop: u8, bytes: &[u8]) -> &[u8]
    ensures bytes { result.now ≡ until stop bytes.now }
    ensures within { length result.now ≤ length bytes.now }
{
    for (i, b) in bytes.iter().enumerate() {
        if *b == stop {
            return &bytes[..i];
        }
    }
    bytes
}

// Without one CR at the end.
#[tactic(auto, unfolding(crate::specs::Text::without_cr))]
fn without_cr(bytes: &[u8]) -> &[u8]
    ensures { result.now ≡ without_cr bytes.now }
{
    let n = bytes.len();
    if n > 0 && bytes[n - 1] == b'\r' {
        &bytes[..n - 1]
    } else {
        bytes
    }
}

/// What is read of a line that stands here without its LF: no CR at its end, and no comment.
#[tactic(auto, unfolding(crate::specs::Text::content))]
pub fn content_of(text: &[u8]) -> &[u8]
    ensures { result.now ≡ content text.now }
{
    until(b'#', without_cr(text))
}

/// Whether the last byte is a backslash.
#[tactic(auto, unfolding(crate::specs::Text::is_continued))]
pub fn is_continued(bytes: &[u8]) -> bool
    ensures { result ≡ is_continued bytes.now }
{
    let n = bytes.len();
    n > 0 && bytes[n - 1] == b'\\'
}
