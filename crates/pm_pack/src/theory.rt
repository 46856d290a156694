//! The theory of packed texts.
ghost use Rattle.pm_pack.specs.Packed.{PackedTextsAreOfOne};
ghost use Rattle.pm_pack.specs.Beginnings.{BeginningsAreOfTheWhole};

use pm_prefix::first_records_are_sound;

/// The laws of packed texts: each is that of one text alone, so `unpack` of what `pack` answered is
/// the text, byte for byte; and what its beginning has of the first records is what the whole has,
/// whatever follows. It does nothing, and callers cite its clauses.
pub fn packed_texts_are_sound()
    ensures one { PackedTextsAreOfOne }
    ensures beginnings { BeginningsAreOfTheWhole }
{
    first_records_are_sound();
}
