//! The laws of cut polygons.
ghost use Rattle.pm_ears.specs.Laws.{
  AreasAddUp,
  TwoFewer,
  FansAreCuts,
  EarsAreCuts,
  PiecesAreCuts,
  UprightUnlessTold,
  OverlapsAreTold,
  PolygonsAreShownLargest,
  PolygonsAreJudgedWhereSeen,
  RecutsAreAsMany,
  UprightFansStay,
  AreWorked,
};

/// States the laws of cut polygons, and worked examples. It does nothing, and callers cite its
/// clauses.
pub fn ears_are_sound()
    ensures areas { AreasAddUp }
    ensures fewer { TwoFewer }
    ensures fans { FansAreCuts }
    ensures ears { EarsAreCuts }
    ensures pieces { PiecesAreCuts }
    ensures upright { UprightUnlessTold }
    ensures told { OverlapsAreTold }
    ensures shown { PolygonsAreShownLargest }
    ensures seen { PolygonsAreJudgedWhereSeen }
    ensures as_many { RecutsAreAsMany }
    ensures stay { UprightFansStay }
    ensures worked { AreWorked }
{}
