//! Positions are what they are for.
ghost use Rattle.pm_arrays.specs.Laws.{PositionsAreSound};

/// The node at a corner of a face is active, and stands at its position among the active nodes.
pub fn positions_are_sound()
    ensures { PositionsAreSound }
{}
