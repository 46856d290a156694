//! The laws of means.
ghost use Rattle.pm_paint.specs.Laws.{
  LeavesKeepTheirs,
  InputsComeBack,
  SumsJoin,
  MeansAreNearest,
  MeansLieBetween,
  FrontsHaveAll,
  EachCornerHasItsChart,
  ChannelsStandTogether,
};

/// States the laws of means, which hold for every hierarchy of the right shape. It does nothing,
/// and callers cite its clauses.
pub fn means_are_sound()
    ensures leaves { LeavesKeepTheirs }
    ensures inputs { InputsComeBack }
    ensures sums { SumsJoin }
    ensures nearest { MeansAreNearest }
    ensures between { MeansLieBetween }
    ensures fronts { FrontsHaveAll }
    ensures charts { EachCornerHasItsChart }
    ensures channels { ChannelsStandTogether }
{}
