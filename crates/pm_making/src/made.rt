//! What was made of a text.
ghost use Rattle.std.specs.Prelude.{◌≡◌, None};

use obj_fit::Scale;
use std::marker::Model;

/// What was made of a text: its bytes, the lines that are said beside them, and how positions lead
/// back to coordinates, where those were scaled.
#[derive(Drop)]
pub struct Made {
    bytes: Vec<u8>,
    notes: Vec<u8>,
    scale: Option<Scale>,
}

impl Model for Made {
    ghost use Rattle.pm_making.specs.Making.{MadeText};

    ghost Value = { MadeText };

    ghost view = { λ m. record {
      bytes = m.bytes.items;
      notes = m.notes.items;
      scale = m.scale;
    } };
}

impl Made {
    /// These bytes, with nothing said beside them.
    pub(crate) fn of(bytes: Vec<u8>, notes: Vec<u8>) -> Made
        ensures { result ≡ record { bytes = bytes.items; notes = notes.items; scale = None } }
    {
        Made::scaled(bytes, notes, None)
    }

    /// These bytes, these lines beside them, and how the positions of their mesh lead back.
    pub(crate) fn scaled(bytes: Vec<u8>, notes: Vec<u8>, scale: Option<Scale>) -> Made
        ensures { result ≡ record { bytes = bytes.items; notes = notes.items; scale = scale } }
    {
        Made {
            bytes,
            notes,
            scale,
        }
    }

    /// The bytes that were made.
    pub fn bytes(&self) -> &[u8]
        ensures { result.now ≡ self.now.bytes }
    {
        &self.bytes
    }

    /// The lines that are said beside them, each with its LF.
    pub fn notes(&self) -> &[u8]
        ensures { result.now ≡ self.now.notes }
    {
        &self.notes
    }

    /// How positions lead back to coordinates, as the first line of the bytes tells it; none where
    /// they stand as they stood, and for what is no prepared text.
    pub fn scale(&self) -> Option<Scale>
        ensures { result ≡ self.now.scale }
    {
        self.scale
    }
}
