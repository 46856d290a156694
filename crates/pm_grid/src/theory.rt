//! The laws of grids.
ghost use Rattle.pm_grid.specs.Laws.{GridsAreManifolds, GridsAreCounted, GridsAreWellFormed};

/// States the laws of grids: each is an oriented manifold and well formed, with (n + 1) (n + 1)
/// points and 2 n n faces. It does nothing, and callers cite its clauses.
pub fn grids_are_sound()
    ensures manifold { GridsAreManifolds }
    ensures counted { GridsAreCounted }
    ensures formed { GridsAreWellFormed }
{}
