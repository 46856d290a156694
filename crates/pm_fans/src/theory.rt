//! The laws of keeping faces and splitting vertices.
ghost use Rattle.pm_fans.specs.Laws.{
  SplitsMakeManifolds,
  ManifoldsStayWhole,
  NumberingsSplit,
  KeptAreFit,
  AnyFacesBecomeManifolds,
  NothingIsLost,
  FitListsStay,
  ManifoldsStay,
  SplitsAreOne,
  ManifoldsAreTheirOwnSplit,
};

/// The laws of keeping faces and of splitting vertices by fans, which takes no step.
pub fn splits_are_sound()
    ensures manifold { SplitsMakeManifolds }
    ensures whole { ManifoldsStayWhole }
    ensures numbered { NumberingsSplit }
    ensures fit { KeptAreFit }
    ensures any { AnyFacesBecomeManifolds }
    ensures kept { NothingIsLost }
    ensures stay { FitListsStay }
    ensures fit_input { ManifoldsStay }
    ensures one { SplitsAreOne }
    ensures own { ManifoldsAreTheirOwnSplit }
{}
