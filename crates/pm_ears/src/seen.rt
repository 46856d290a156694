//! The axes along which a triangle of a polygon's fan is seen with an area.
ghost use Rattle.std.specs.Prelude.{◌≡◌, ◌+◌, ◌<◌, ◌≤◌, length};
ghost use Rattle.pm_base.specs.declared.limits.TheConstants.{MOST_FACES};
ghost use Rattle.pm_ears.specs.Counted.{fan_triangle};
ghost use Rattle.pm_ears.specs.Fans.{has_area as has_area_of};
ghost use Rattle.pm_ears.specs.Planes.{spots_along, is_seen as is_seen_along};
ghost use Rattle.pm_ears.specs.Planes.{first_seen as first_seen_of};

use crate::plane::{Axis, Plane, spot_at};
use crate::spots::{Triangle, twice_area};
use pm_base::Point;

// The triangle of the first corner, corner i and the next, as it is seen along an axis.
fn seen_triangle(axis: Axis, points: &[Point], i: usize) -> Triangle
    requires few { length points.now ≤ MOST_FACES + 2 }
    requires i { i + 1 < length points.now }
    ensures { result ≡ fan_triangle (spots_along axis points.now) i }
{
    let plane = Plane {
        across: axis,
        mirrored: false,
    };
    Triangle {
        a: spot_at(plane, 0, points[0]),
        b: spot_at(plane, i as u32, points[i]),
        c: spot_at(plane, (i + 1) as u32, points[i + 1]),
    }
}

// Whether a triangle has an area.
fn has_area(t: Triangle) -> bool
    ensures { result ≡ has_area_of t }
{
    twice_area(t) != 0
}

// Whether a triangle of the fan is seen with an area along an axis.
fn is_seen(axis: Axis, points: &[Point]) -> bool
    requires { length points.now ≤ MOST_FACES + 2 }
    ensures { result ≡ is_seen_along axis points.now }
{
    for i in 1..points.len().saturating_sub(1) {
        if has_area(seen_triangle(axis, points, i)) {
            return true;
        }
    }
    false
}

// The first axis along which one is; X where there is none.
#[tactic(auto, unfolding(crate::specs::Planes::first_seen))]
pub(crate) fn first_seen(points: &[Point]) -> Axis
    requires { length points.now ≤ MOST_FACES + 2 }
    ensures { result ≡ first_seen_of points.now }
{
    if is_seen(Axis::X, points) {
        Axis::X
    } else if is_seen(Axis::Y, points) {
        Axis::Y
    } else if is_seen(Axis::Z, points) {
        Axis::Z
    } else {
        Axis::X
    }
}
