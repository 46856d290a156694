//! The laws of deviations.
ghost use Rattle.pm_deviation.specs.Axes.{AxesAreTold};
ghost use Rattle.pm_deviation.specs.Laws.{
  DeviationsAreBelowErrors,
  DeviationsGrow,
  PlanesAreNear,
  TrianglesStayNear,
  LinesMeetNear,
  BorderLinesAreNear,
  DeviationsAreAboveDistances,
};

/// States the laws of deviations, which hold for every hierarchy of the right shape: that they grow
/// from the leaves up and stay below errors, and how near to the faces under a node they say that
/// its place is. It does nothing, and callers cite its clauses.
pub fn deviations_are_sound()
    ensures axes { AxesAreTold }
    ensures below { DeviationsAreBelowErrors }
    ensures grow { DeviationsGrow }
    ensures planes { PlanesAreNear }
    ensures triangles { TrianglesStayNear }
    ensures lines { LinesMeetNear }
    ensures border_lines { BorderLinesAreNear }
    ensures above { DeviationsAreAboveDistances }
{}
