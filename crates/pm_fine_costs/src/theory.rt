//! What the definition of the policy gives.
ghost use Rattle.pm_fine_costs.specs.Rows.{AreRoundRows};

/// The planes round a vertex of a small mesh, worked by hand; it takes no step.
pub fn planes_round_are_right()
    ensures { AreRoundRows }
{}
