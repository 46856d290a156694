//! The place of a collapsed pair: the least of its ends, their midpoint and a fourth place.
ghost use Rattle.std.specs.Prelude.{◌≡◌, ◌<◌, ◌≤◌, ◌^◌, List, ◌∷◌, pos, ◌+ℤ◌, unsigned_abs};
ghost use Rattle.std.specs.Int.{int_div_euclid};
ghost use Rattle.pm_base.specs.declared.limits.TheConstants.{GREATEST_COORDINATE};
ghost use Rattle.pm_quadric.specs.Planes.{Plane, squares_of};
ghost use Rattle.pm_quadric.specs.Sums.{StandsFor};
ghost use Rattle.pm_quadric.specs.Candidates.{midpoint};
ghost use Rattle.pm_fine.specs.FinePlaces.{lesser, others_of, fine_place_of, IsLeastOf};
ghost use Rattle.pm_fine.specs.Fourth.{best_fine_place_of};

use crate::FineQuadric;
use crate::fourth::fourth_place;
use pm_base::Point;

// Half the sum of two coordinates, rounded down.
fn middle(t: i32, u: i32) -> i32
    requires t_small { unsigned_abs t ≤ GREATEST_COORDINATE }
    requires u_small { unsigned_abs u ≤ GREATEST_COORDINATE }
    ensures value { result ≡ int_div_euclid (t +ℤ u) (pos 2) }
    ensures small { unsigned_abs result ≤ GREATEST_COORDINATE }
{
    (t + u).div_euclid(2)
}

pub(crate) fn midpoint_of(t: Point, u: Point) -> Point
    ensures { result ≡ midpoint t u }
{
    match Point::new(
        middle(t.x(), u.x()),
        middle(t.y(), u.y()),
        middle(t.z(), u.z()),
    ) {
        Some(place) => place,
        None => t,
    }
}

// The lesser of two places, of which the first has this value, and its own value.
fn lesser(q: &FineQuadric, a: Point, at_a: u128, b: Point) -> (Point, u128)
    requires known { (fs : List Plane) → StandsFor q.now fs → at_a ≡ squares_of fs a }
    requires small { at_a < 2 ^ 115 }
    ensures place { (fs : List Plane) → StandsFor q.now fs → result.0 ≡ lesser (squares_of fs) a b }
    ensures value { (fs : List Plane) → StandsFor q.now fs → result.1 ≡ squares_of fs result.0 }
    ensures small { result.1 < 2 ^ 115 }
{
    let at_b = q.value_at(b);
    if at_b < at_a { (b, at_b) } else { (a, at_a) }
}

// The first least of the candidates, and its value.
fn first_least(q: &FineQuadric, t: Point, u: Point, fourth: Option<Point>) -> (Point, u128)
    ensures place { (fs : List Plane) → StandsFor q.now fs
        → result.0 ≡ fine_place_of (squares_of fs) t u fourth }
    ensures value { (fs : List Plane) → StandsFor q.now fs → result.1 ≡ squares_of fs result.0 }
    ensures small { result.1 < 2 ^ 115 }
{
    let (end, at_end) = lesser(q, t, q.value_at(t), u);
    let (third, at_third) = lesser(q, end, at_end, midpoint_of(t, u));
    match fourth {
        Some(place) => lesser(q, third, at_third, place),
        None => (third, at_third),
    }
}

/// The first of t, u, their midpoint and the fourth place, if there is one, at which the quadric's
/// value is least, and that value. The midpoint's coordinates are rounded down.
pub fn least_place(q: &FineQuadric, t: Point, u: Point, fourth: Option<Point>) -> (Point, u128)
    ensures place { (fs : List Plane) → StandsFor q.now fs
        → result.0 ≡ fine_place_of (squares_of fs) t u fourth }
    ensures least { (fs : List Plane) → StandsFor q.now fs
        → IsLeastOf (squares_of fs) result.0 (t ∷ others_of t u fourth) }
    ensures value { (fs : List Plane) → StandsFor q.now fs → result.1 ≡ squares_of fs result.0 }
    ensures small { result.1 < 2 ^ 115 }
{
    first_least(q, t, u, fourth)
}

/// The first of t, u, their midpoint and the fourth candidate, if there is one, at which the
/// quadric's value is least, and that value.
pub fn best_fine_place(q: &FineQuadric, t: Point, u: Point) -> (Point, u128)
    ensures place { (fs : List Plane) → StandsFor q.now fs → result.0 ≡ best_fine_place_of fs t u }
    ensures value { (fs : List Plane) → StandsFor q.now fs → result.1 ≡ squares_of fs result.0 }
    ensures small { result.1 < 2 ^ 115 }
{
    least_place(q, t, u, fourth_place(q, t, u))
}
