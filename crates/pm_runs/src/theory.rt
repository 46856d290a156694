//! The laws of collapses, of runs of them, and of splits as collapses read backwards.
ghost use Rattle.pm_runs.specs.Laws.{
  MeshesAreSurfaces,
  CollapsesAreMerges,
  SidesAreFound,
  ThirdsAreCommon,
  PairsHaveNoOrder,
  LinkableIsLegal,
  StepsKeepSurfaces,
  StepsMoveNothingElse,
  LegalityIsLocal,
  StepsAreLocal,
  NeighboursAreKept,
  OtherSidesStay,
  FacesAreCounted,
  LegalStepsKeepManifolds,
};
ghost use Rattle.pm_runs.specs.Octahedron.{IsFirstCollapse};
ghost use Rattle.pm_runs.specs.RunLaws.{
  RunsGrow,
  EntriesAreSteps,
  RunsStayProper,
  RunsAreMerges,
  RunsStayManifolds,
  SparedVerticesAreLive,
  RunsAreShort,
  PlanesStay,
  PlanesAreKept,
  KeysAreKept,
  CandidatesAreLocal,
  OneRunToATarget,
  RunsAreBuilt,
};
ghost use Rattle.pm_runs.specs.SplitLaws.{SplitsKeepManifolds};

/// The laws of one collapse, which takes no step. Surfaces keep their soundness, twins are linked
/// anew around the faces that go, and only what is near the two vertices changes.
pub fn steps_are_sound()
    ensures meshes { MeshesAreSurfaces }
    ensures merges { CollapsesAreMerges }
    ensures found { SidesAreFound }
    ensures thirds { ThirdsAreCommon }
    ensures pairs { PairsHaveNoOrder }
    ensures links { LinkableIsLegal }
    ensures kept { StepsKeepSurfaces }
    ensures moved { StepsMoveNothingElse }
    ensures legality { LegalityIsLocal }
    ensures local { StepsAreLocal }
    ensures neighbours { NeighboursAreKept }
    ensures sides { OtherSidesStay }
    ensures counted { FacesAreCounted }
    ensures manifold { LegalStepsKeepManifolds }
    ensures example { IsFirstCollapse }
{}

/// The laws of runs, which takes no step. A run stays a surface without doubles, its vertices keep
/// their planes, and the run to a number of faces has one log.
pub fn runs_are_sound()
    ensures grow { RunsGrow }
    ensures entries { EntriesAreSteps }
    ensures proper { RunsStayProper }
    ensures merges { RunsAreMerges }
    ensures manifold { RunsStayManifolds }
    ensures live { SparedVerticesAreLive }
    ensures short { RunsAreShort }
    ensures planes { PlanesStay }
    ensures counts { PlanesAreKept }
    ensures keys { KeysAreKept }
    ensures local { CandidatesAreLocal }
    ensures one { OneRunToATarget }
    ensures built { RunsAreBuilt }
{}

/// States the law of vertex splits. It does nothing, and callers cite its clause.
pub fn splits_are_sound()
    ensures { SplitsKeepManifolds }
{}
