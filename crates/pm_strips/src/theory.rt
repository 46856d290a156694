//! The laws of strips.
ghost use Rattle.pm_strips.specs.Laws.{StripsShowTheMesh, FrontsCarryEnds, StripsGoOn};

/// States the laws of strips. It does nothing, and callers cite its clauses.
pub fn strips_are_sound()
    ensures mesh { StripsShowTheMesh }
    ensures ends { FrontsCarryEnds }
    ensures on { StripsGoOn }
{}
