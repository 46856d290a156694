//! The laws of the hierarchy of a run.
ghost use Rattle.pm_number.specs.Laws.{HierarchiesHaveShape, HierarchiesKeepMeshes};
ghost use Rattle.pm_number.specs.Laws.{SurfacesAreShown, HierarchiesOfRunsAreValid};
ghost use Rattle.pm_number.specs.Laws.{HierarchiesOfRunsAreFirm};

/// The laws of the hierarchy of a run, which takes no step.
pub fn numbers_are_sound()
    ensures shape { HierarchiesHaveShape }
    ensures mesh { HierarchiesKeepMeshes }
    ensures shown { SurfacesAreShown }
    ensures valid { HierarchiesOfRunsAreValid }
    ensures firm { HierarchiesOfRunsAreFirm }
{}
