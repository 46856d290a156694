//! What comes next in a text.
ghost use Rattle.std.specs.Prelude.{◌≡◌, ◌∷◌};
ghost use Rattle.obj_read.specs.Fields.{fields};
ghost use Rattle.stl_read.specs.Ascii.{is_word, is_alone, stage_after, with_vertex};

use obj_read::next_field;
use pm_base::Corners;

/// What comes next: a solid; a facet, or the end of the solid; the loop of a facet; its three
/// vertices, with those that came; the end of the loop, and of the facet.
#[derive(Clone, Copy, Debug, PartialEq, Eq)]
pub enum Stage {
    Outside,
    Solid,
    Facet,
    First,
    Second(u32),
    Third(u32, u32),
    Full(Corners),
    Done(Corners),
}

pub(crate) fn is_word(word: &[u8], field: &[u8]) -> bool
    ensures { result ≡ is_word word.now field.now }
{
    field.eq_ignore_ascii_case(word)
}

// Whether this field is the word, and none stands after it.
pub(crate) fn is_alone(word: &[u8], field: &[u8], rest: &[u8]) -> bool
    ensures { result ≡ is_alone word.now (field.now ∷ fields rest.now) }
{
    match next_field(rest) {
        Some(_) => false,
        None => is_word(word, field),
    }
}

// Whether the fields are the word alone.
fn are_alone(word: &[u8], rest: &[u8]) -> bool
    ensures { result ≡ is_alone word.now (fields rest.now) }
{
    match next_field(rest) {
        Some((field, more)) => is_alone(word, field, more),
        None => false,
    }
}

impl Stage {
    /// The stage after a line that begins with this word.
    #[tactic(auto, unfolding(crate::specs::Ascii::stage_after))]
    pub(crate) fn after(self, word: &[u8], rest: &[u8]) -> Option<Stage>
        ensures { result ≡ stage_after self word.now (fields rest.now) }
    {
        match self {
            Stage::Outside if is_word(b"solid", word) => Some(Stage::Solid),
            Stage::Solid if is_word(b"facet", word) => Some(Stage::Facet),
            Stage::Solid if is_word(b"endsolid", word) => Some(Stage::Outside),
            Stage::Facet if is_word(b"outer", word) && are_alone(b"loop", rest) => {
                Some(Stage::First)
            }
            Stage::Full(f) if is_alone(b"endloop", word, rest) => Some(Stage::Done(f)),
            _ => None,
        }
    }

    /// The stage after a vertex with this number.
    pub(crate) fn with_vertex(self, v: u32) -> Option<Stage>
        ensures { result ≡ with_vertex self v }
    {
        match self {
            Stage::First => Some(Stage::Second(v)),
            Stage::Second(a) => Some(Stage::Third(a, v)),
            Stage::Third(a, b) => Some(Stage::Full(Corners { a, b, c: v })),
            _ => None,
        }
    }
}
