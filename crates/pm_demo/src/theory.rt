//! The law that a size has a summary, and one.
ghost use Rattle.pm_demo.specs.Summary.{OneSummary, SomeSummary};

/// States that each grid has a summary, and only one. It does nothing, and callers cite its
/// clauses.
pub fn summaries_are_sound()
    ensures some { SomeSummary }
    ensures one { OneSummary }
{}
