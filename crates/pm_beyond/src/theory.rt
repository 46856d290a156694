//! The theory of what stands beyond the sides of a front's faces (after Hoppe 1997, whose
//! neighbours these are), and of the sets of records that legal moves lead to.
ghost use Rattle.pm_beyond.specs.WalkLaws.{
  OneStandsBeyond,
  WalksGoBack,
  NoTwoShareABeyond,
  EndsAreCarried,
  NoFaceIsMetTwice,
  WalksGoByAncestors,
  TwinsStandInTheFullFront,
};
ghost use Rattle.pm_beyond.specs.ClosedLaws.{
  NeedsAreOlder,
  NeededIsNotCollapsible,
  LegalMovesKeepSetsClosed,
  GreaterRecordsBlock,
  FourFacesAreEnough,
  AnswersAreExact,
  BlockingFacesAreNamed,
  NeedsAreDecided,
};
ghost use Rattle.pm_beyond.specs.RelinkingLaws.{SplitsRelinkTheirNeighbours};
ghost use Rattle.pm_beyond.specs.RelinkingLaws.{CollapsesRelinkTheirNeighbours};
ghost use Rattle.pm_beyond.specs.OpeningLaws.{ToldIsFound, ValidWhereTold, ValidOrOneFails};
ghost use Rattle.pm_beyond.specs.PlanLaws.{
  TargetsAreLeast,
  PlansAreLegal,
  PlansKeepSetsClosed,
  PlansGoOn,
  PlansLeadThere,
  PlansAreShort,
};

/// States the laws of walks through dropped faces. It does nothing, and callers cite its clauses.
pub fn walks_are_sound()
    ensures one_beyond { OneStandsBeyond }
    ensures back { WalksGoBack }
    ensures injective { NoTwoShareABeyond }
    ensures ends { EndsAreCarried }
    ensures no_face_twice { NoFaceIsMetTwice }
    ensures by_ancestors { WalksGoByAncestors }
    ensures full { TwinsStandInTheFullFront }
{}

/// States the laws of closed sets of records and of legal moves between them. It does nothing, and
/// callers cite its clauses.
pub fn closed_sets_are_sound()
    ensures older { NeedsAreOlder }
    ensures needed { NeededIsNotCollapsible }
    ensures moves { LegalMovesKeepSetsClosed }
    ensures greater { GreaterRecordsBlock }
    ensures four_faces { FourFacesAreEnough }
    ensures decided { NeedsAreDecided }
{}

/// States what a split and a collapse change of what stands beyond the sides. It does nothing, and
/// callers cite its clauses.
pub fn relinking_is_sound()
    ensures split { SplitsRelinkTheirNeighbours }
    ensures collapse { CollapsesRelinkTheirNeighbours }
{}

/// States what the answers to moves say. It does nothing, and callers cite its clauses.
pub fn answers_are_sound()
    ensures exact { AnswersAreExact }
    ensures blocking { BlockingFacesAreNamed }
{}

/// States how a hierarchy of the right shape is judged, from its last record down. It does nothing,
/// and callers cite its clauses.
pub fn openings_are_sound()
    ensures found { ToldIsFound }
    ensures told { ValidWhereTold }
    ensures fails { ValidOrOneFails }
{}

/// States the laws of targets and of plans that lead to them. It does nothing, and callers cite its
/// clauses.
pub fn plans_are_sound()
    ensures least { TargetsAreLeast }
    ensures legal { PlansAreLegal }
    ensures closed { PlansKeepSetsClosed }
    ensures on { PlansGoOn }
    ensures there { PlansLeadThere }
    ensures short { PlansAreShort }
{}
