//! Places between two places.
ghost use Rattle.std.specs.Prelude.{◌≡◌, ◌<◌, ◌≤◌, ◌*◌, pos, ◌+ℤ◌, ◌*ℤ◌, unsigned_abs};
ghost use Rattle.std.specs.Int.{int_div_euclid};
ghost use Rattle.pm_morph.specs.Interpolation.{interpolated, place_between};
ghost use Rattle.pm_base.specs.declared.limits.TheConstants.{GREATEST_COORDINATE};
ghost use Rattle.pm_morph.specs.declared.limits.TheConstants.{MOST_PARTS};

use pm_base::Point;

// A coordinate times its weight.
fn weighed(weight: u32, coordinate: i32) -> i64
    requires most { weight ≤ MOST_PARTS }
    requires small { unsigned_abs coordinate ≤ GREATEST_COORDINATE }
    ensures value { result ≡ pos weight *ℤ coordinate }
    ensures small { unsigned_abs result ≤ 2147385345 }
{
    i64::from(weight) * i64::from(coordinate)
}

// The sum of two such products.
fn sum_of(x: i64, y: i64) -> i64
    requires x_small { unsigned_abs x ≤ 2147385345 }
    requires y_small { unsigned_abs y ≤ 2147385345 }
    ensures { result ≡ x +ℤ y }
{
    x + y
}

// The weighted mean of two coordinates, rounded down, from their weighted sum and the sum of the
// weights.
#[tactic(auto, using(crate::proofs::InterpolationLaws::part_small))]
fn part_of(sum: i64, b: u32) -> i32
    requires some { 0 < b }
    requires most { b ≤ MOST_PARTS }
    requires small { unsigned_abs sum ≤ b * GREATEST_COORDINATE }
    ensures value { result ≡ int_div_euclid sum (pos b) }
    ensures small { unsigned_abs result ≤ GREATEST_COORDINATE }
{
    sum.div_euclid(i64::from(b)) as i32
}

// A coordinate at a/b of the way from the elder's to the node's own, rounded down.
#[tactic(auto, using(crate::proofs::InterpolationLaws::way_small))]
fn interpolated(a: u32, b: u32, elder: i32, own: i32) -> i32
    requires some { 0 < b }
    requires most { b ≤ MOST_PARTS }
    requires within { a ≤ b }
    requires elder_small { unsigned_abs elder ≤ GREATEST_COORDINATE }
    requires own_small { unsigned_abs own ≤ GREATEST_COORDINATE }
    ensures value { result ≡ interpolated a b elder own }
    ensures small { unsigned_abs result ≤ GREATEST_COORDINATE }
{
    part_of(sum_of(weighed(b - a, elder), weighed(a, own)), b)
}

/// The place at a/b of the way from the elder's place to the node's own, with each coordinate
/// rounded down.
pub(crate) fn place_between(a: u32, b: u32, elder: &Point, own: &Point) -> Point
    requires some { 0 < b }
    requires most { b ≤ MOST_PARTS }
    requires within { a ≤ b }
    ensures { result ≡ place_between a b elder.now own.now }
{
    match Point::new(
        interpolated(a, b, elder.x(), own.x()),
        interpolated(a, b, elder.y(), own.y()),
        interpolated(a, b, elder.z(), own.z()),
    ) {
        Some(place) => place,
        None => *own,
    }
}
