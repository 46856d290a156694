//! The fields of a line, one after the other.
ghost use Rattle.std.specs.Prelude.{◌≡◌, ◌<◌, ◌∷◌, [], length, false, MatchOption};
ghost use Rattle.obj_read.specs.Fields.{is_blank, begins_blank, fields, has_field, is_letter};

fn is_blank(b: u8) -> bool
    ensures { result ≡ is_blank b }
{
    b == b' ' || b == b'\t'
}

// From the first byte on that isn't blank.
#[tactic(auto, using(crate::proofs::FieldLaws::fields_skip, crate::proofs::FieldLaws::fields_blank))]
fn skip_blanks(bytes: &[u8]) -> &[u8]
    ensures fields { fields result.now ≡ fields bytes.now }
    ensures first { 0 < length result.now → begins_blank result.now ≡ false }
{
    for (i, b) in bytes.iter().enumerate() {
        if !is_blank(*b) {
            return &bytes[i..];
        }
    }
    &bytes[bytes.len()..]
}

// The field that stands at the front, and what stands after it.
#[tactic(auto, using(crate::proofs::FieldLaws::fields_word, crate::proofs::FieldLaws::fields_all_word))]
fn split_field(bytes: &[u8]) -> (&[u8], &[u8])
    requires some { 0 < length bytes.now }
    requires field { begins_blank bytes.now ≡ false }
    ensures { fields bytes.now ≡ result.0.now ∷ fields result.1.now }
{
    for (i, b) in bytes.iter().enumerate() {
        if is_blank(*b) {
            return (&bytes[..i], &bytes[i..]);
        }
    }
    (bytes, &bytes[bytes.len()..])
}

/// The first field, and what stands after it.
pub fn next_field(bytes: &[u8]) -> Option<(&[u8], &[u8])>
    ensures { MatchOption result (fields bytes.now ≡ []) (λ r. fields bytes.now ≡ r.0.now
        ∷ fields r.1.now) }
{
    let rest = skip_blanks(bytes);
    if rest.is_empty() {
        None
    } else {
        Some(split_field(rest))
    }
}

/// Whether the line isn't blank.
pub fn has_field(bytes: &[u8]) -> bool
    ensures { result ≡ has_field bytes.now }
{
    next_field(bytes).is_some()
}

/// Whether the field is this letter and no more.
pub fn is_letter(letter: u8, field: &[u8]) -> bool
    ensures { result ≡ is_letter letter field.now }
{
    match field {
        [b] => *b == letter,
        _ => false,
    }
}
