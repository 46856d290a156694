//! The run by the fine policy.
ghost use Rattle.std.specs.Prelude.{IfOk};
ghost use Rattle.pm_keeping.specs.Keeping.{kept_in};
ghost use Rattle.pm_policies.specs.PolicyRuns.{IsRunBy};
ghost use Rattle.pm_fine_costs.specs.FinePolicy.{fine_keeping};

use crate::FineTable;
use crate::table::OutOfMemory;
use pm_base::Log;
use pm_simplify::simplify_by;
use pm_twins::Surface;
use std::alloc::Global;

/// Collapses a surface, which is used up, to so many faces by the fine policy: the pair whose
/// planes have the least sum of squared values at the best of both ends, their midpoint and a
/// fourth place goes first. No pair with a kept vertex is collapsed, nor weighed. Vertices whose
/// flags are set are kept, and those past the list of flags aren't, so with a flag for each vertex
/// of the surface no merged vertex is.
pub fn simplify_fine(
    alloc: Global,
    surface: Surface,
    kept: &[bool],
    target_faces: u32,
) -> Result<Log, OutOfMemory>
    ensures run { IfOk result (λ log.
        IsRunBy (fine_keeping (kept_in kept.now)) surface target_faces log.items) }
{
    let costs = FineTable::new(alloc, &surface)?;
    simplify_by(alloc, surface, costs, kept, target_faces)
}
