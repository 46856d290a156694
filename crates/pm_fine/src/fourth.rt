//! The fourth candidate for the place of a pair: about where the quadric is least of all places.
//! Garland and Heckbert (1997) solve for that place. Here numbers are cut to so few digits that 128
//! bits hold each product, and the place is rounded to the grid.
ghost use Rattle.std.specs.Prelude.{◌≡◌, true, ◌<◌, ◌≤◌, ◌+◌, ◌*◌, ◌^◌, ◌+ℤ◌, unsigned_abs, List};
ghost use Rattle.std.specs.Int.{int_shr};
ghost use Rattle.pm_base.specs.declared.limits.TheConstants.{GREATEST_COORDINATE};
ghost use Rattle.pm_quadric.specs.Planes.{Plane};
ghost use Rattle.pm_quadric.specs.Sums.{sums_of, StandsFor};
ghost use Rattle.pm_fine.specs.Rounded.{near};
ghost use Rattle.pm_fine.specs.Within.{IsMatrixWithin, IsVectorWithin};
ghost use Rattle.pm_fine.specs.Fourth.{is_near, apart_of, placed};
ghost use Rattle.pm_fine.specs.Fourth.{quotients_place, solved_place, fourth_place_of};
ghost use Rattle.pm_fine.specs.FourthLaws.{LeastWhereLevel, CofactorsSolve, LeastIsFound};
ghost use Rattle.pm_fine.specs.FourthLaws.{FourthIsAPlace, AreFourthPlaces};

use crate::FineQuadric;
use crate::matrix::{Matrix, Vector, digits_above, short};
use crate::place::midpoint_of;
use crate::rounding::{inverse_of, near};
use pm_base::Point;

// The greatest difference of a coordinate of m from that of t.
fn apart(m: Point, t: Point) -> u32
    ensures value { result ≡ apart_of m t }
    ensures small { result ≤ 65534 }
{
    let x = m.x().abs_diff(t.x());
    let y = m.y().abs_diff(t.y());
    let z = m.z().abs_diff(t.z());
    x.max(y).max(z)
}

// A coordinate moved by a quotient.
fn plus(x: i32, by: i32) -> i32
    requires x_small { unsigned_abs x ≤ GREATEST_COORDINATE }
    requires by_small { unsigned_abs by ≤ 2 ^ 20 }
    ensures { result ≡ x +ℤ by }
{
    x + by
}

// The place that is so far from m, if it is one.
fn moved(m: Point, x: i32, y: i32, z: i32) -> Option<Point>
    requires x_small { unsigned_abs x ≤ 2 ^ 20 }
    requires y_small { unsigned_abs y ≤ 2 ^ 20 }
    requires z_small { unsigned_abs z ≤ 2 ^ 20 }
    ensures { result ≡ placed (record { x = m.x +ℤ x; y = m.y +ℤ y; z = m.z +ℤ z }) }
{
    Point::new(plus(m.x(), x), plus(m.y(), y), plus(m.z(), z))
}

// The quotient of a number without its last digits to the nearest whole number, by about the
// inverse of the divisor.
fn quotient(a: i128, digits: u32, divisor: u64, inverse: u64) -> i32
    requires digits { digits < 128 }
    requires some { 0 < divisor }
    requires kept { divisor < 2 ^ 42 }
    requires a_small { unsigned_abs a ≤ 262137 * (divisor + 1) * 2 ^ digits }
    ensures value { result ≡ near (int_shr a digits) divisor }
    ensures small { unsigned_abs result ≤ 2 ^ 20 }
{
    near(short(a, digits) as i64, divisor, inverse) as i32
}

// Whether no quotient of a vector and a determinant is greater than four times the reach and one.
fn is_near(reach: u32, n: &Vector, det: i128) -> bool
    requires reach { reach ≤ 65534 }
    requires small { unsigned_abs det < 2 ^ 102 }
    ensures value { result ≡ is_near reach n.now det }
    ensures some { result ≡ true → 0 < unsigned_abs det }
    ensures bounds { result ≡ true → IsVectorWithin (262137 * unsigned_abs det) n.now }
{
    let most = (4 * u128::from(reach) + 1) * det.unsigned_abs();
    0 < det && n.is_within(most)
}

// The place that is the quotients of a vector and a determinant from m.
fn quotients_place(m: Point, reach: u32, n: &Vector, det: i128) -> Option<Point>
    requires reach { reach ≤ 65534 }
    requires small { unsigned_abs det < 2 ^ 102 }
    ensures { result ≡ quotients_place m reach n.now det }
{
    if !is_near(reach, n, det) {
        return None;
    }
    let size = det.unsigned_abs();
    let digits = digits_above(42, size);
    let divisor = (size >> digits) as u64;
    let inverse = inverse_of(divisor);
    let x = quotient(n.x, digits, divisor, inverse);
    let y = quotient(n.y, digits, divisor, inverse);
    let z = quotient(n.z, digits, divisor, inverse);
    moved(m, x, y, z)
}

// The place where the gradient is 0: with half of it at m, it is from m the x with A x = - g.
fn solved_place(m: Point, reach: u32, a: &Matrix, g: &Vector) -> Option<Point>
    requires reach { reach ≤ 65534 }
    requires matrix { IsMatrixWithin (2 ^ 33) a.now }
    ensures { result ≡ solved_place m reach a.now g.now }
{
    if !g.is_within(4_503_599_627_370_495) {
        return None;
    }
    let cofactors = a.cofactors();
    let det = a.determinant(&cofactors);
    let n = cofactors.times(&g.reversed());
    quotients_place(m, reach, &n, det)
}

/// About where a quadric's value is least of all places: the fourth candidate for the place of the
/// pair of t and u. There is none where the determinant is not above 0, as for planes along one
/// line; where that place is no point of the grid, or further from the midpoint than four times the
/// ends and one; and where the value is too steep at the midpoint. It takes no loop and no memory.
pub fn fourth_place(q: &FineQuadric, t: Point, u: Point) -> Option<Point>
    ensures value { result ≡ fourth_place_of q.now t u }
    ensures lists { (fs : List Plane) → StandsFor q.now fs
        → result ≡ fourth_place_of (sums_of fs) t u }
{
    let m = midpoint_of(t, u);
    let matrix = q.matrix();
    let digits = matrix.digits();
    let reach = apart(m, t).max(apart(m, u));
    let gradient = q.half_gradient(m).short(digits);
    solved_place(m, reach, &matrix.short(digits), &gradient)
}

/// What the definition of the fourth candidate gives; it takes no step. Where the gradient is 0, a
/// value is least of all places. The cofactors solve by Cramer's rule. So such a place is the
/// fourth candidate, where it is near and no number loses a digit. Each fourth candidate is a
/// place, and there are rows worked by hand.
pub fn fourth_places_are_sound()
    ensures least { LeastWhereLevel }
    ensures rule { CofactorsSolve }
    ensures found { LeastIsFound }
    ensures places { FourthIsAPlace }
    ensures rows { AreFourthPlaces }
{}
