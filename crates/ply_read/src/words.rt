//! The words of a text, however they stand in lines.
ghost use Rattle.std.specs.Prelude.{◌≡◌, ◌≤◌, length};
ghost use Rattle.ply_read.specs.Words.{is_space, from_word, word};

fn is_space(b: u8) -> bool
    ensures { result ≡ is_space b }
{
    b == b' ' || b == b'\t' || b == b'\n' || b == b'\r'
}

/// From the first word on.
#[tactic(auto, using(crate::proofs::WordLaws::from_word_at, crate::proofs::WordLaws::from_word_none))]
pub(crate) fn from_word(bytes: &[u8]) -> &[u8]
    ensures value { result.now ≡ from_word bytes.now }
    ensures within { length result.now ≤ length bytes.now }
{
    for (i, b) in bytes.iter().enumerate() {
        if !is_space(*b) {
            return &bytes[i..];
        }
    }
    &bytes[bytes.len()..]
}

/// The word that stands at the front.
#[tactic(auto, using(crate::proofs::WordLaws::word_at, crate::proofs::WordLaws::word_all))]
pub(crate) fn word(bytes: &[u8]) -> &[u8]
    ensures value { result.now ≡ word bytes.now }
    ensures within { length result.now ≤ length bytes.now }
{
    for (i, b) in bytes.iter().enumerate() {
        if is_space(*b) {
            return &bytes[..i];
        }
    }
    bytes
}
