//! The place of a collapsed pair: the least of three candidates, which keeps it on the whole-number
//! grid. Garland and Heckbert (1997) solve for the least of all places, and fall back on these
//! three where that fails.
ghost use Rattle.std.specs.Prelude.{◌≡◌, ◌<◌, ◌≤◌, ◌^◌, List, pos, ◌+ℤ◌, unsigned_abs};
ghost use Rattle.std.specs.Int.{int_div_euclid};
ghost use Rattle.pm_base.specs.declared.limits.TheConstants.{GREATEST_COORDINATE};
ghost use Rattle.pm_quadric.specs.Planes.{Plane, squares_of};
ghost use Rattle.pm_quadric.specs.Sums.{StandsFor};
ghost use Rattle.pm_quadric.specs.Candidates.{midpoint, least_place, IsLeastPlace};

use crate::Quadric;
use pm_base::Point;

// Half the sum of two coordinates, rounded down.
fn middle(t: i32, u: i32) -> i32
    requires t_small { unsigned_abs t ≤ GREATEST_COORDINATE }
    requires u_small { unsigned_abs u ≤ GREATEST_COORDINATE }
    ensures value { result ≡ int_div_euclid (t +ℤ u) (pos 2) }
    ensures small { unsigned_abs result ≤ GREATEST_COORDINATE }
{
    (t + u).div_euclid(2)
}

fn midpoint_of(t: Point, u: Point) -> Point
    ensures { result ≡ midpoint t u }
{
    match Point::new(
        middle(t.x(), u.x()),
        middle(t.y(), u.y()),
        middle(t.z(), u.z()),
    ) {
        Some(place) => place,
        None => t,
    }
}

/// The first of t, u and their midpoint at which the quadric's value is least, and that value. The
/// midpoint's coordinates are rounded down.
pub fn best_place(q: &Quadric, t: Point, u: Point) -> (Point, u128)
    ensures place { (fs : List Plane) → StandsFor q.now fs
        → result.0 ≡ least_place (squares_of fs) t u }
    ensures least { (fs : List Plane) → StandsFor q.now fs
        → IsLeastPlace (squares_of fs) result.0 t u }
    ensures value { (fs : List Plane) → StandsFor q.now fs → result.1 ≡ squares_of fs result.0 }
    ensures small { result.1 < 2 ^ 124 }
{
    let m = midpoint_of(t, u);
    let at_t = q.value(t);
    let at_u = q.value(u);
    let at_m = q.value(m);
    if at_t <= at_u && at_t <= at_m {
        (t, at_t)
    } else if at_u <= at_m {
        (u, at_u)
    } else {
        (m, at_m)
    }
}
