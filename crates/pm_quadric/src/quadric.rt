//! Quadrics after Garland and Heckbert (1997). They sum squared distances to planes. Here the
//! planes' normals are not made unit, so that every number is whole and every sum exact.
ghost use Rattle.std.specs.Prelude.{◌≡◌, ◌<◌, ◌≤◌, ◌+◌, ◌^◌, List, [], ◌∷◌, ◌++◌, length};
ghost use Rattle.std.specs.Prelude.{unsigned_abs};
ghost use Rattle.pm_base.specs.Place.{IsPlace};
ghost use Rattle.pm_quadric.specs.Planes.{Plane, plane_of, squares_of};
ghost use Rattle.pm_quadric.specs.Sums.{plus_sums, StandsFor};
ghost use Rattle.pm_quadric.specs.Expanded.{squares_part, mixed_part, linear_part, polynomial};
ghost use Rattle.pm_quadric.specs.Quadrics.{IsQuadric, StandsForFaces};

use crate::plane::{double, offset, pair};
use crate::terms::{add_four, add_three, linear, quadratic};
use pm_base::{Point, cross};
use std::marker::Model;

/// The greatest number of planes that a quadric can stand for: three for each of 1,048,576 faces,
/// one at each corner.
pub const MOST_PLANES: u32 = 3_145_728;

// Clauses and definitions cite the limit by its name, so its value is said here.
const _: () = prove!(MOST_PLANES == 3_145_728);

/// The sums, over a list of planes of faces, of the ten coefficients of the squared plane value,
/// and the number of planes. The quadric stands for each list that has these sums, and the type
/// keeps that there is one of at most `MOST_PLANES` planes.
///
/// A face's normal is as long as twice the face's area, so a plane's value at a point is the
/// point's distance from the plane times that, with a sign. No call takes memory.
#[derive(Clone, Copy, Debug, PartialEq, Eq)]
pub struct Quadric {
    xx: i128,
    xy: i128,
    xz: i128,
    x: i128,
    yy: i128,
    yz: i128,
    y: i128,
    zz: i128,
    z: i128,
    one: i128,
    count: u32,
}

impl Model for Quadric {
    ghost use Rattle.pm_quadric.specs.Sums.{Sums};
    ghost use Rattle.pm_quadric.specs.Quadrics.{IsQuadric};

    ghost Value = { Sums };

    ghost view = { λ q. record {
      xx = q.xx;
      xy = q.xy;
      xz = q.xz;
      x = q.x;
      yy = q.yy;
      yz = q.yz;
      y = q.y;
      zz = q.zz;
      z = q.z;
      one = q.one;
      count = q.count;
    } };

    ghost invariant = { λ q. IsQuadric (record {
      xx = q.xx;
      xy = q.xy;
      xz = q.xz;
      x = q.x;
      yy = q.yy;
      yz = q.yz;
      y = q.y;
      zz = q.zz;
      z = q.z;
      one = q.one;
      count = q.count;
    }) };

    ghost inverse = { λ q. record {
      xx = q.xx;
      xy = q.xy;
      xz = q.xz;
      x = q.x;
      yy = q.yy;
      yz = q.yz;
      y = q.y;
      zz = q.zz;
      z = q.z;
      one = q.one;
      count = q.count;
    } };
}

impl Quadric {
    /// The quadric of no plane.
    pub fn zero() -> Quadric
        ensures { StandsFor result [] }
    {
        Quadric {
            xx: 0,
            xy: 0,
            xz: 0,
            x: 0,
            yy: 0,
            yz: 0,
            y: 0,
            zz: 0,
            z: 0,
            one: 0,
            count: 0,
        }
    }

    /// The quadric of the plane of the face with corners a, b and c. Corners in one line give the
    /// plane of zeros, whose value is 0 everywhere.
    pub fn of_face(a: Point, b: Point, c: Point) -> Quadric
        ensures { StandsFor result (plane_of a b c ∷ []) }
    {
        let n = cross(a, b, c);
        let d = offset(n, a);
        Quadric {
            xx: pair(n.x, n.x),
            xy: double(n.x, n.y),
            xz: double(n.x, n.z),
            x: double(n.x, d),
            yy: pair(n.y, n.y),
            yz: double(n.y, n.z),
            y: double(n.y, d),
            zz: pair(n.z, n.z),
            z: double(n.z, d),
            one: pair(d, d),
            count: 1,
        }
    }

    /// The number of planes.
    pub fn planes(&self) -> u32
        ensures value { result ≡ self.now.count }
        ensures lists { (fs : List Plane) → StandsFor self.now fs → result ≡ length fs }
        ensures stands { StandsForFaces self.now }
        ensures small { result ≤ MOST_PLANES }
    {
        self.count
    }

    /// Both quadrics together: it stands for the planes of this one and then those of the other.
    pub fn plus(&self, other: &Quadric) -> Quadric
        requires { self.now.count + other.now.count ≤ MOST_PLANES }
        ensures sums { result ≡ plus_sums self.now other.now }
        ensures lists { (fs gs : List Plane) → StandsFor self.now fs → StandsFor other.now gs
            → StandsFor result (fs ++ gs) }
    {
        Quadric {
            xx: self.xx + other.xx,
            xy: self.xy + other.xy,
            xz: self.xz + other.xz,
            x: self.x + other.x,
            yy: self.yy + other.yy,
            yz: self.yz + other.yz,
            y: self.y + other.y,
            zz: self.zz + other.zz,
            z: self.z + other.z,
            one: self.one + other.one,
            count: self.count + other.count,
        }
    }

    // The terms with a square of one coordinate.
    fn squares_at(&self, p: Point) -> i128
        ensures value { result ≡ squares_part self.now p }
        ensures small { unsigned_abs result ≤ 2 ^ 124 }
        ensures in_range { IsPlace p }
    {
        let (x, y, z) = (p.x(), p.y(), p.z());
        add_three(
            quadratic(self.xx, x, x),
            quadratic(self.yy, y, y),
            quadratic(self.zz, z, z),
        )
    }

    // The terms with two coordinates.
    fn mixed_at(&self, p: Point) -> i128
        ensures value { result ≡ mixed_part self.now p }
        ensures small { unsigned_abs result ≤ 2 ^ 124 }
    {
        let (x, y, z) = (p.x(), p.y(), p.z());
        add_three(
            quadratic(self.xy, x, y),
            quadratic(self.xz, x, z),
            quadratic(self.yz, y, z),
        )
    }

    // The terms with one coordinate.
    fn linear_at(&self, p: Point) -> i128
        ensures value { result ≡ linear_part self.now p }
        ensures small { unsigned_abs result ≤ 2 ^ 124 }
    {
        add_three(
            linear(self.x, p.x()),
            linear(self.y, p.y()),
            linear(self.z, p.z()),
        )
    }

    // The whole polynomial, which is a sum of squares and so never below 0.
    #[tactic(auto, unfolding(crate::specs::Expanded::polynomial))]
    fn polynomial_at(&self, p: Point) -> i128
        ensures value { result ≡ polynomial self.now p }
        ensures in_range { IsPlace p }
        ensures quadric { IsQuadric self.now }
    {
        let squares = self.squares_at(p);
        let mixed = self.mixed_at(p);
        let linear = self.linear_at(p);
        add_four(squares, mixed, linear, self.one)
    }

    /// The sum of the squares of its planes' values at `p`. The time doesn't depend on the number
    /// of planes.
    pub fn value(&self, p: Point) -> u128
        ensures lists { (fs : List Plane) → StandsFor self.now fs → result ≡ squares_of fs p }
        ensures small { result < 2 ^ 124 }
    {
        self.polynomial_at(p).unsigned_abs()
    }
}
