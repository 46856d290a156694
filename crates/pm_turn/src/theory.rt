//! The laws of turning faces round, and of joining faces that are neighbours.
ghost use Rattle.pm_turn.specs.TurnLaws.{
  TurnedFacesBecomeManifolds,
  EachIsTurnedOrNot,
  TurnedFacesStay,
  TurnsAreThere,
  TurnsAreOne,
  AgreeingFacesStay,
  ManifoldsAreNotTurned,
  TurnedMatesAreGlued,
  GluedStaysGlued,
  TurnedFacesAreTurnedOnce,
  TracedTablesTurn,
};
ghost use Rattle.pm_turn.specs.ChoiceLaws.{
  ChosenTurnsAreThere,
  ChosenTurnsAreOne,
  AgreeingFacesAreKept,
  ManifoldsAreKept,
  ChosenFacesAreTurnedOnce,
  LeastAreaIsTurned,
  ChosenTurnsAreRenumbered,
  TurnsAreRenumbered,
  UnitTetrahedronFacesOut,
};
ghost use Rattle.pm_turn.specs.ToldLaws.{
  TurnCountsAreThere,
  TurnCountsAreOne,
  ManifoldsAreStraight,
};
ghost use Rattle.pm_turn.specs.UnionLaws.{EldersGrow, EldersBegin, MatelessSidesPass};
ghost use Rattle.pm_turn.specs.UnionLaws.{EldersAreTraced};

/// The laws of turning faces round, which takes no step.
pub fn turns_are_sound()
    ensures manifold { TurnedFacesBecomeManifolds }
    ensures each { EachIsTurnedOrNot }
    ensures stay { TurnedFacesStay }
    ensures there { TurnsAreThere }
    ensures one { TurnsAreOne }
    ensures agreeing { AgreeingFacesStay }
    ensures untouched { ManifoldsAreNotTurned }
    ensures glued { TurnedMatesAreGlued }
    ensures still { GluedStaysGlued }
    ensures once { TurnedFacesAreTurnedOnce }
    ensures traced { TracedTablesTurn }
{}

/// The laws of the choice between the two ways round of a patch, which takes no step. What
/// `turns_are_sound` says of any flags by which neighbours agree holds of the chosen ones.
pub fn chosen_turns_are_sound()
    ensures there { ChosenTurnsAreThere }
    ensures one { ChosenTurnsAreOne }
    ensures agreeing { AgreeingFacesAreKept }
    ensures untouched { ManifoldsAreKept }
    ensures once { ChosenFacesAreTurnedOnce }
    ensures least { LeastAreaIsTurned }
    ensures renumbered { ChosenTurnsAreRenumbered }
    ensures turns_renumbered { TurnsAreRenumbered }
    ensures unit { UnitTetrahedronFacesOut }
{}

/// The laws of what is told of turning beside the flags, which takes no step.
pub fn turn_counts_are_sound()
    ensures there { TurnCountsAreThere }
    ensures one { TurnCountsAreOne }
    ensures manifold { ManifoldsAreStraight }
{}

/// The laws of joining mates pair by pair, which takes no step.
pub fn unions_are_sound()
    ensures grow { EldersGrow }
    ensures begin { EldersBegin }
    ensures pass { MatelessSidesPass }
    ensures traced { EldersAreTraced }
{}
