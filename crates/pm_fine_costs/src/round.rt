//! The planes that a vertex takes: those of the faces round it.
ghost use Rattle.std.specs.Prelude.{◌≡◌, ◌≤◌, true};
ghost use Rattle.pm_base.specs.Sides.{Stands};
ghost use Rattle.pm_quadric.specs.Sums.{StandsFor};
ghost use Rattle.pm_runs.specs.Surfaces.{is_live as is_live_in};
ghost use Rattle.pm_fine.specs.Normals.{doubled};
ghost use Rattle.pm_shrink.specs.Shrinking.{net_at};
ghost use Rattle.pm_fine_costs.specs.FinePolicy.{corner_planes, planes_round};
ghost use Rattle.pm_fine_costs.specs.CornerPlanes.{corner_of};

use crate::corner::{Corner, CornerNormals};
use pm_base::Side;
use pm_fine::FineQuadric;
use pm_shrink::Shrink;

/// A corner of a face that is there.
pub(crate) fn corner_of(shrink: &Shrink, side: Side) -> Corner
    requires { Stands (net_at shrink.now) side.0 }
    ensures { result ≡ corner_of shrink.now.surface side.0 }
{
    shrink.invariant();
    let (next, before) = (side.next(), side.prev());
    Corner {
        at: shrink.place(shrink.vertex_at(side)),
        next: shrink.place(shrink.vertex_at(next)),
        last: shrink.place(shrink.vertex_at(before)),
        is_open_after: shrink.across(side).is_none(),
        is_open_before: shrink.across(before).is_none(),
    }
}

// The quadric of the planes at a corner, with four times their weight.
fn corner_quadric(shrink: &Shrink, side: Side) -> FineQuadric
    requires { Stands (net_at shrink.now) side.0 }
    ensures stands { StandsFor result
        (corner_planes doubled shrink.now.surface ((net_at shrink.now).from side.0) side.0) }
    ensures few { result.count ≤ 3 }
{
    let corner = corner_of(shrink, side);
    CornerNormals::of(&corner).doubled().quadric_at(corner.at)
}

/// The quadric of the planes that a live vertex takes, in O(d) for d faces round it.
pub(crate) fn taken_at(shrink: &Shrink, v: u32) -> FineQuadric
    requires { is_live_in shrink.now.surface v ≡ true }
    ensures { StandsFor result (planes_round doubled shrink.now.surface v) }
{
    shrink.invariant();
    let mut quadric = FineQuadric::zero();
    let mut at = shrink.first_corner(v);
    while let Some(corner) = at {
        quadric = quadric.plus(&corner_quadric(shrink, corner));
        at = shrink.next_corner(corner);
    }
    quadric
}
