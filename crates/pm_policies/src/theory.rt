//! The laws of runs by a policy.
ghost use Rattle.pm_policies.specs.Laws.{
  PlanesAreTaken,
  PlanesStayBy,
  PlanesAreOfFirstSurfaces,
  PlanesAreFew,
  KeysAreKeptBy,
  CandidatesAreLocalBy,
  OneRunByAPolicy,
  RunsByAreBuilt,
  SomeRunByAPolicy,
  PlainRunIsTheRun,
  PlainKeepingIsKeeping,
};

/// States the laws of runs by a policy. What a vertex stands for never changes, so the key of a
/// pair depends on its two ends alone. Such a run has one log and takes none of the vertices that
/// the policy keeps, and the run to a number of faces is that of one policy. It does nothing, and
/// callers cite its clauses.
pub fn policies_are_sound()
    ensures taken { PlanesAreTaken }
    ensures planes { PlanesStayBy }
    ensures first { PlanesAreOfFirstSurfaces }
    ensures few { PlanesAreFew }
    ensures keys { KeysAreKeptBy }
    ensures local { CandidatesAreLocalBy }
    ensures one { OneRunByAPolicy }
    ensures built { RunsByAreBuilt }
    ensures some { SomeRunByAPolicy }
    ensures plain { PlainRunIsTheRun }
    ensures keeping { PlainKeepingIsKeeping }
{}
