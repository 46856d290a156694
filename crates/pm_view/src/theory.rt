//! The laws of wanted nodes.
ghost use Rattle.pm_view.specs.Laws.{WantingPassesUp, UnwantedForAReason, OneToleranceIsPlain};

/// States the laws of wanted nodes, which hold for every hierarchy of the right shape and every
/// view. It does nothing, and callers cite its clauses.
pub fn wanted_nodes_are_sound()
    ensures up { WantingPassesUp }
    ensures reasons { UnwantedForAReason }
    ensures plain { OneToleranceIsPlain }
{}
