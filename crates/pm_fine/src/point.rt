//! The quadric of a point, whose value grows with the distance from it.
ghost use Rattle.std.specs.Prelude.{◌≡◌};
ghost use Rattle.pm_quadric.specs.Sums.{StandsFor};
ghost use Rattle.pm_fine.specs.FinePlanes.{point_planes};

use crate::{FineNormal, FinePlane, FineQuadric};
use pm_base::Point;

/// The quadric of the three planes through a point along the axes, whose normals are 2 long. Its
/// value at another point is four times the squared distance.
pub fn point_quadric(p: Point) -> FineQuadric
    ensures stands { StandsFor result (point_planes p) }
    ensures three { result.count ≡ 3 }
{
    let z = FineQuadric::of_plane(&FinePlane::through(FineNormal::new(0, 0, 2), p));
    let y = z.with_plane(&FinePlane::through(FineNormal::new(0, 2, 0), p));
    y.with_plane(&FinePlane::through(FineNormal::new(2, 0, 0), p))
}
