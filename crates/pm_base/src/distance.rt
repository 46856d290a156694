//! Distances by whole numbers alone: squared, or rounded up to the next whole number.
ghost use Rattle.std.specs.Prelude.{◌≡◌, ◌-ℤ◌, ◌<◌, ◌≤◌, ◌+◌, ◌*◌, ℕ, unsigned_abs};
ghost use Rattle.pm_base.specs.declared.limits.TheConstants.{GREATEST_COORDINATE};
ghost use Rattle.pm_base.specs.Place.{Place};
ghost use Rattle.pm_base.specs.Geometry.{Direction, dot_of, dist2_of, square_of, norm2_of, plus_of};
ghost use Rattle.pm_base.specs.Rounded.{distance_of};

use crate::Point;

// The square of the difference of two coordinates.
fn square(x: i32, y: i32) -> u64
    requires x_small { unsigned_abs x ≤ GREATEST_COORDINATE }
    requires y_small { unsigned_abs y ≤ GREATEST_COORDINATE }
    ensures value { result ≡ square_of (unsigned_abs (x -ℤ y)) }
    ensures small { result ≤ 4294705156 }
{
    let apart = u64::from(x.abs_diff(y));
    apart * apart
}

/// The squared distance of two points. It is at most 12,884,115,468.
pub fn dist2(p: Point, q: Point) -> u64
    ensures value { result ≡ dist2_of p q }
    ensures small { result ≤ 12884115468 }
{
    square(p.x(), q.x()) + square(p.y(), q.y()) + square(p.z(), q.z())
}

// The least whole number whose square is at least n.
fn root_of(n: u64) -> u64
    requires { n ≤ 12884115468 }
    ensures enough { n ≤ result * result }
    ensures least { (m : ℕ) → n ≤ m * m → result ≤ m }
    ensures small { result ≤ 113509 }
{
    let root = n.isqrt();
    if root * root < n { root + 1 } else { root }
}

/// The distance of two points, rounded up: the least whole number whose square is at least the
/// squared distance.
pub fn dist_up(p: Point, q: Point) -> u32
    ensures value { result ≡ distance_of p q }
    ensures enough { dist2_of p q ≤ result * result }
    ensures least { (n : ℕ) → dist2_of p q ≤ n * n → result ≤ n }
    ensures small { result ≤ 113509 }
{
    root_of(dist2(p, q)) as u32
}

/// A law on distances, which takes no step: where the way from p to q is at most `a` long and that
/// from q to r at most `b`, both in the measure whose square is m, the way from p to r is at most
/// `a + b` long. It is shorter where one of the two is. No root is taken.
pub fn distances_add()
    ensures at_most { (p q r : Place) (a b m : ℕ) → dist2_of p q ≤ a * a * m
        → dist2_of q r ≤ b * b * m → dist2_of p r ≤ (a + b) * (a + b) * m }
    ensures first { (p q r : Place) (a b m : ℕ) → dist2_of p q < a * a * m
        → dist2_of q r ≤ b * b * m → dist2_of p r < (a + b) * (a + b) * m }
    ensures second { (p q r : Place) (a b m : ℕ) → dist2_of p q ≤ a * a * m
        → dist2_of q r < b * b * m → dist2_of p r < (a + b) * (a + b) * m }
{}

/// The same law on vectors, and the inequality of Cauchy and Schwarz from which it follows.
pub fn lengths_add()
    ensures product { (u v : Direction)
        → unsigned_abs (dot_of u v) * unsigned_abs (dot_of u v) ≤ norm2_of u * norm2_of v }
    ensures at_most { (u v : Direction) (a b m : ℕ) → norm2_of u ≤ a * a * m
        → norm2_of v ≤ b * b * m → norm2_of (plus_of u v) ≤ (a + b) * (a + b) * m }
    ensures first { (u v : Direction) (a b m : ℕ) → norm2_of u < a * a * m → norm2_of v ≤ b * b * m
        → norm2_of (plus_of u v) < (a + b) * (a + b) * m }
    ensures second { (u v : Direction) (a b m : ℕ) → norm2_of u ≤ a * a * m → norm2_of v < b * b * m
        → norm2_of (plus_of u v) < (a + b) * (a + b) * m }
{}
