//! The law of the corner lists of a front.
ghost use Rattle.pm_front.specs.CornerLaws.{LegalMovesKeepCornerLists};

/// States that legal moves keep the corner lists right, whichever they are. It does nothing, and
/// callers cite its clause.
pub fn corner_lists_are_sound()
    ensures { LegalMovesKeepCornerLists }
{}
