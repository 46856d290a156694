//! The laws of fixed leaves and fixed borders.
ghost use Rattle.pm_tiles.specs.Laws.{
  FixedLeavesStay,
  FixedSidesStay,
  BordersStay,
  FixedBordersAreShown,
  TilesMeet,
};
ghost use Rattle.pm_tiles.specs.RunLaws.{
  SparedVerticesAreFixed,
  SparedBordersAreFixed,
  SparedBordersAreShown,
};

/// States the laws of fixed leaves and fixed borders: every front shows them as they are. It does
/// nothing, and callers cite its clauses.
pub fn fixed_borders_are_sound()
    ensures leaves { FixedLeavesStay }
    ensures sides { FixedSidesStay }
    ensures borders { BordersStay }
    ensures shown { FixedBordersAreShown }
    ensures tiles { TilesMeet }
{}

/// States what the hierarchy of a run has for the vertices that no collapse takes, and for a
/// border that has no others. It does nothing, and callers cite its clauses.
pub fn spared_vertices_are_sound()
    ensures vertices { SparedVerticesAreFixed }
    ensures borders { SparedBordersAreFixed }
    ensures shown { SparedBordersAreShown }
{}
