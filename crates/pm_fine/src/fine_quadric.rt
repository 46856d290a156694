//! Exact quadrics of fine planes: ten sums about the origin, as those of faces' planes, for more
//! planes with smaller numbers.
ghost use Rattle.std.specs.Prelude.{ℕ, ◌≡◌, ◌<◌, ◌≤◌, ◌+◌, ◌^◌, List, [], ◌∷◌, ◌++◌, length, ◌+ℤ◌};
ghost use Rattle.std.specs.Prelude.{◌*ℤ◌, unsigned_abs};
ghost use Rattle.pm_base.specs.Place.{IsPlace};
ghost use Rattle.pm_quadric.specs.Planes.{Plane, squares_of};
ghost use Rattle.pm_quadric.specs.Sums.{plus_sums, StandsFor};
ghost use Rattle.pm_quadric.specs.Expanded.{squares_part, mixed_part, linear_part, polynomial};
ghost use Rattle.pm_fine.specs.FineSums.{IsFineQuadric, StandsForFine};
ghost use Rattle.pm_fine.specs.Within.{IsMatrixWithin};
ghost use Rattle.pm_fine.specs.Fourth.{half, matrix_of, half_gradient};

use crate::FinePlane;
use crate::matrix::{Matrix, Vector, half};
use crate::terms::{add_four, add_three, double, linear, pair, quadratic};
use pm_base::Point;
use std::marker::Model;

/// The greatest number of planes that a fine quadric can stand for. A mesh of 1,048,576 faces and
/// as many vertices has three for each corner, three for each vertex, and what two vertices take.
pub const MOST_FINE_PLANES: u32 = 33_554_432;

// Clauses and definitions cite the limit by its name, so its value is said here.
const _: () = prove!(MOST_FINE_PLANES == 33_554_432);

/// The sums, over a list of fine planes, of the ten coefficients of the squared plane value, and
/// the number of planes. The quadric stands for each list that has these sums, and the type keeps
/// that there is one of at most `MOST_FINE_PLANES` planes. No call takes memory.
#[derive(Clone, Copy, Debug, PartialEq, Eq)]
pub struct FineQuadric {
    xx: i128,
    xy: i128,
    xz: i128,
    x: i128,
    yy: i128,
    yz: i128,
    y: i128,
    zz: i128,
    z: i128,
    one: i128,
    count: u32,
}

impl Model for FineQuadric {
    ghost use Rattle.pm_quadric.specs.Sums.{Sums};
    ghost use Rattle.pm_fine.specs.FineSums.{IsFineQuadric};

    ghost Value = { Sums };

    ghost view = { λ q. record {
      xx = q.xx;
      xy = q.xy;
      xz = q.xz;
      x = q.x;
      yy = q.yy;
      yz = q.yz;
      y = q.y;
      zz = q.zz;
      z = q.z;
      one = q.one;
      count = q.count;
    } };

    ghost invariant = { λ q. IsFineQuadric (record {
      xx = q.xx;
      xy = q.xy;
      xz = q.xz;
      x = q.x;
      yy = q.yy;
      yz = q.yz;
      y = q.y;
      zz = q.zz;
      z = q.z;
      one = q.one;
      count = q.count;
    }) };

    ghost inverse = { λ q. record {
      xx = q.xx;
      xy = q.xy;
      xz = q.xz;
      x = q.x;
      yy = q.yy;
      yz = q.yz;
      y = q.y;
      zz = q.zz;
      z = q.z;
      one = q.one;
      count = q.count;
    } };
}

// Half the slope along an axis at a place, from a row of the matrix and the sum of that axis alone.
fn half_slope(a: i128, b: i128, c: i128, sum: i128, m: Point) -> i128
    requires a_small { unsigned_abs a ≤ 2 ^ 80 }
    requires b_small { unsigned_abs b ≤ 2 ^ 80 }
    requires c_small { unsigned_abs c ≤ 2 ^ 80 }
    requires sum_small { unsigned_abs sum ≤ 2 ^ 97 }
    ensures { result ≡ a *ℤ m.x +ℤ b *ℤ m.y +ℤ c *ℤ m.z +ℤ half sum }
{
    add_four(
        linear(a, m.x()),
        linear(b, m.y()),
        linear(c, m.z()),
        half(sum),
    )
}

impl FineQuadric {
    /// The quadric of no plane.
    pub fn zero() -> FineQuadric
        ensures { StandsFor result [] }
    {
        FineQuadric {
            xx: 0,
            xy: 0,
            xz: 0,
            x: 0,
            yy: 0,
            yz: 0,
            y: 0,
            zz: 0,
            z: 0,
            one: 0,
            count: 0,
        }
    }

    /// The quadric of one plane.
    pub fn of_plane(f: &FinePlane) -> FineQuadric
        ensures { StandsFor result (f.now ∷ []) }
    {
        let (a, b, c, d) = (f.a(), f.b(), f.c(), f.d());
        FineQuadric {
            xx: pair(a, a),
            xy: double(a, b),
            xz: double(a, c),
            x: double(a, d),
            yy: pair(b, b),
            yz: double(b, c),
            y: double(b, d),
            zz: pair(c, c),
            z: double(c, d),
            one: pair(d, d),
            count: 1,
        }
    }

    /// The number of planes.
    pub fn planes(&self) -> u32
        ensures value { result ≡ self.now.count }
        ensures lists { (fs : List Plane) → StandsFor self.now fs → result ≡ length fs }
        ensures stands { StandsForFine self.now }
        ensures small { result ≤ MOST_FINE_PLANES }
    {
        self.count
    }

    /// Both quadrics together: it stands for the planes of this one and then those of the other.
    pub fn plus(&self, other: &FineQuadric) -> FineQuadric
        requires { self.now.count + other.now.count ≤ MOST_FINE_PLANES }
        ensures sums { result ≡ plus_sums self.now other.now }
        ensures lists { (fs gs : List Plane) → StandsFor self.now fs → StandsFor other.now gs
            → StandsFor result (fs ++ gs) }
    {
        FineQuadric {
            xx: self.xx + other.xx,
            xy: self.xy + other.xy,
            xz: self.xz + other.xz,
            x: self.x + other.x,
            yy: self.yy + other.yy,
            yz: self.yz + other.yz,
            y: self.y + other.y,
            zz: self.zz + other.zz,
            z: self.z + other.z,
            one: self.one + other.one,
            count: self.count + other.count,
        }
    }

    /// The quadric with one plane more, which comes first.
    pub fn with_plane(&self, f: &FinePlane) -> FineQuadric
        requires { self.now.count < MOST_FINE_PLANES }
        ensures { (fs : List Plane) → StandsFor self.now fs → StandsFor result (f.now ∷ fs) }
    {
        FineQuadric::of_plane(f).plus(self)
    }

    /// Takes one plane more, which comes first.
    pub fn add_plane(&mut self, f: &FinePlane)
        requires { self.old.count < MOST_FINE_PLANES }
        ensures { (fs : List Plane) → StandsFor self.old fs → StandsFor self.new (f.now ∷ fs) }
    {
        *self = self.with_plane(f);
    }

    // The terms with a square of one coordinate.
    fn squares_at(&self, p: Point) -> i128
        ensures value { result ≡ squares_part self.now p }
        ensures small { unsigned_abs result ≤ 2 ^ 124 }
        ensures in_range { IsPlace p }
    {
        let (x, y, z) = (p.x(), p.y(), p.z());
        add_three(
            quadratic(self.xx, x, x),
            quadratic(self.yy, y, y),
            quadratic(self.zz, z, z),
        )
    }

    // The terms with two coordinates.
    fn mixed_at(&self, p: Point) -> i128
        ensures value { result ≡ mixed_part self.now p }
        ensures small { unsigned_abs result ≤ 2 ^ 124 }
    {
        let (x, y, z) = (p.x(), p.y(), p.z());
        add_three(
            quadratic(self.xy, x, y),
            quadratic(self.xz, x, z),
            quadratic(self.yz, y, z),
        )
    }

    // The terms with one coordinate.
    fn linear_at(&self, p: Point) -> i128
        ensures value { result ≡ linear_part self.now p }
        ensures small { unsigned_abs result ≤ 2 ^ 124 }
    {
        add_three(
            linear(self.x, p.x()),
            linear(self.y, p.y()),
            linear(self.z, p.z()),
        )
    }

    // The whole polynomial, which is a sum of squares and so never below 0.
    #[tactic(auto, unfolding(pm_quadric::specs::Expanded::polynomial))]
    fn polynomial_at(&self, p: Point) -> i128
        ensures value { result ≡ polynomial self.now p }
        ensures in_range { IsPlace p }
        ensures quadric { IsFineQuadric self.now }
    {
        let squares = self.squares_at(p);
        let mixed = self.mixed_at(p);
        let linear = self.linear_at(p);
        add_four(squares, mixed, linear, self.one)
    }

    /// The sum of the squares of its planes' values at `p`. The time doesn't depend on the number
    /// of planes.
    pub fn value_at(&self, p: Point) -> u128
        ensures lists { (fs : List Plane) → StandsFor self.now fs → result ≡ squares_of fs p }
        ensures small { result < 2 ^ 115 }
    {
        self.polynomial_at(p).unsigned_abs()
    }

    // The matrix of its terms with two coordinates.
    pub(crate) fn matrix(&self) -> Matrix
        ensures value { result ≡ matrix_of self.now }
        ensures small { IsMatrixWithin (2 ^ 80) result }
        ensures balanced { (m : ℕ) → unsigned_abs result.xx ≤ m → unsigned_abs result.yy ≤ m
            → unsigned_abs result.zz ≤ m → IsMatrixWithin m result }
    {
        Matrix {
            xx: self.xx,
            xy: half(self.xy),
            xz: half(self.xz),
            yy: self.yy,
            yz: half(self.yz),
            zz: self.zz,
        }
    }

    // Half the gradient of its value at a place.
    pub(crate) fn half_gradient(&self, m: Point) -> Vector
        ensures { result ≡ half_gradient self.now m }
    {
        let a = self.matrix();
        Vector {
            x: half_slope(a.xx, a.xy, a.xz, self.x, m),
            y: half_slope(a.xy, a.yy, a.yz, self.y, m),
            z: half_slope(a.xz, a.yz, a.zz, self.z, m),
        }
    }
}
