//! The laws of meshes that are put together.
ghost use Rattle.pm_seams.specs.Laws.{
  ListsArePutTogether,
  OrderIsFree,
  RenamedMeshesAreSurfaces,
  SharedVerticesAreOnBorders,
  GluedMeshesAreSurfaces,
  GluedMeshesKeepBorders,
};

/// States the laws of meshes that are put together. It does nothing, and callers cite its clauses.
pub fn seams_are_sound()
    ensures lists { ListsArePutTogether }
    ensures order { OrderIsFree }
    ensures renamed { RenamedMeshesAreSurfaces }
    ensures shared { SharedVerticesAreOnBorders }
    ensures glued { GluedMeshesAreSurfaces }
    ensures borders { GluedMeshesKeepBorders }
{}
