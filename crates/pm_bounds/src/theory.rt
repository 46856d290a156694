//! The laws of bounds.
ghost use Rattle.pm_bounds.specs.Laws.{
  ErrorsGrow,
  RadiiGrow,
  BoxesJoin,
  LeavesAreCovered,
  CornersAreCovered,
  NormalsAreBoxed,
  ChildrenHaveFaces,
  BoxesNest,
};

/// States the laws of bounds, which hold for every hierarchy of the right shape: the equations of
/// errors, radii and boxes, and what lies within them. It does nothing, and callers cite its
/// clauses.
pub fn bounds_are_sound()
    ensures errors { ErrorsGrow }
    ensures radii { RadiiGrow }
    ensures boxes { BoxesJoin }
    ensures leaves { LeavesAreCovered }
    ensures corners { CornersAreCovered }
    ensures normals { NormalsAreBoxed }
    ensures faces { ChildrenHaveFaces }
    ensures nested { BoxesNest }
{}
