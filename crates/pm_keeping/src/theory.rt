//! The laws of runs that keep some vertices.
ghost use Rattle.pm_keeping.specs.Laws.{
  OneRunKeeping,
  KeepingNoneIsTheRun,
  RunsKeepingAreBuilt,
};

/// States the laws of runs that keep some vertices. Such a run has one log, takes none of the
/// vertices that it keeps, and where it keeps none it is the run to a number of faces. It does
/// nothing, and callers cite its clauses.
pub fn keeping_is_sound()
    ensures one { OneRunKeeping }
    ensures none { KeepingNoneIsTheRun }
    ensures built { RunsKeepingAreBuilt }
{}
