//! The laws of worlds.
ghost use Rattle.pm_worlds.specs.Laws.{
  WorldsAreSurfaces,
  WorldsKeepBorders,
  WorldsStaySurfaces,
  CutMeshesAreShown,
  CutMeshesKeepBorders,
  NodesCanBeNamed,
  PartsShowTheWhole,
};

/// States the laws of worlds. It does nothing, and callers cite its clauses.
pub fn worlds_are_sound()
    ensures surfaces { WorldsAreSurfaces }
    ensures borders { WorldsKeepBorders }
    ensures stay { WorldsStaySurfaces }
{}

/// States what the pieces of a cut mesh show together. It does nothing, and callers cite its
/// clauses.
pub fn cut_meshes_are_sound()
    ensures surfaces { CutMeshesAreShown }
    ensures borders { CutMeshesKeepBorders }
    ensures names { NodesCanBeNamed }
    ensures parts { PartsShowTheWhole }
{}
