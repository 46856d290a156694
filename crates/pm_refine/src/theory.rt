//! The law of views by deviations.
ghost use Rattle.pm_refine.specs.Showing.{ShownTrianglesAreNear};

/// States how near to the input the target of a view by deviations is, for every hierarchy of the
/// right shape. It does nothing, and callers cite its clause.
pub fn deviation_views_are_sound()
    ensures near { ShownTrianglesAreNear }
{}
