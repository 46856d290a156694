//! The normals of faces added up, and the volume between the faces and a place.
ghost use Rattle.std.specs.Prelude.{◌≡◌, true, false, ◌<◌, ◌≤◌, ◌*◌, ◌^◌, ◌+ℤ◌, ◌-ℤ◌};
ghost use Rattle.std.specs.Prelude.{unsigned_abs, IfSome, IfNone, OnSome};
ghost use Rattle.pm_base.specs.declared.limits.TheConstants.{GREATEST_COORDINATE};
ghost use Rattle.pm_base.specs.Place.{is_place};
ghost use Rattle.pm_base.specs.Geometry.{IsNormal, square_of, norm2_of};
ghost use Rattle.pm_fine.specs.Normals.{IsWithin, way_of};
ghost use Rattle.pm_fine_costs.specs.Volumes.{no_faces, plus_faces, face_of, normal_of, moved_by};
ghost use Rattle.pm_fine_costs.specs.Volumes.{IsSmall};

use crate::corner::Corner;
use crate::moved::{moved, point};
use pm_base::{Normal, Point, cross, dot};

/// Of some faces the sum of their normals, and six times the volume between them and a place.
#[derive(Clone, Copy)]
pub(crate) struct FaceSum {
    x: i128,
    y: i128,
    z: i128,
    volume: i128,
}

// How far x is above y.
fn above(x: i32, y: i32) -> i64
    requires x_small { unsigned_abs x ≤ GREATEST_COORDINATE }
    requires y_small { unsigned_abs y ≤ GREATEST_COORDINATE }
    ensures value { result ≡ x -ℤ y }
    ensures small { unsigned_abs result ≤ 65534 }
{
    i64::from(x) - i64::from(y)
}

// The way from one point to another.
fn way(p: Point, q: Point) -> Normal
    ensures x { result.x ≡ (way_of p q).x }
    ensures y { result.y ≡ (way_of p q).y }
    ensures z { result.z ≡ (way_of p q).z }
    ensures short { IsWithin 65534 (way_of p q) }
    ensures small { IsNormal (way_of p q) }
{
    Normal {
        x: above(q.x(), p.x()),
        y: above(q.y(), p.y()),
        z: above(q.z(), p.z()),
    }
}

fn sum(a: i128, b: i128) -> i128
    requires a_small { unsigned_abs a ≤ 2 ^ 80 }
    requires b_small { unsigned_abs b ≤ 2 ^ 80 }
    ensures { result ≡ a +ℤ b }
{
    a + b
}

// The square of a number of a sum of normals.
fn square(a: i128) -> u128
    requires { unsigned_abs a ≤ 2 ^ 54 }
    ensures value { result ≡ square_of (unsigned_abs a) }
    ensures small { result ≤ 2 ^ 108 }
{
    let size = a.unsigned_abs();
    size * size
}

impl FaceSum {
    /// That of no face.
    pub(crate) fn zero() -> FaceSum
        ensures { result ≡ no_faces }
    {
        FaceSum {
            x: 0,
            y: 0,
            z: 0,
            volume: 0,
        }
    }

    /// That of the face of a corner.
    pub(crate) fn of(corner: &Corner, p: Point) -> FaceSum
        ensures value { result ≡ face_of corner.now p }
        ensures small { IsSmall 1 result }
    {
        let n = cross(corner.at, corner.next, corner.last);
        FaceSum {
            x: i128::from(n.x),
            y: i128::from(n.y),
            z: i128::from(n.z),
            volume: dot(n, way(corner.at, p)),
        }
    }

    /// That of both.
    pub(crate) fn plus(&self, other: &FaceSum) -> FaceSum
        requires first { IsSmall 4194304 self.now }
        requires second { IsSmall 4194304 other.now }
        ensures { result ≡ plus_faces self.now other.now }
    {
        FaceSum {
            x: sum(self.x, other.x),
            y: sum(self.y, other.y),
            z: sum(self.z, other.z),
            volume: sum(self.volume, other.volume),
        }
    }

    /// The squared length of the sum of the normals.
    pub(crate) fn norm2(&self) -> u128
        requires { IsSmall 2097152 self.now }
        ensures value { result ≡ norm2_of (normal_of self.now) }
        ensures small { result ≤ 3 * 2 ^ 108 }
    {
        square(self.x) + square(self.y) + square(self.z)
    }

    /// A place moved along that sum until the volume is 0, and none exactly where that is out of
    /// range. `norm2` is the sum's squared length.
    pub(crate) fn moved(&self, p: Point, norm2: u128) -> Option<Point>
        requires small { IsSmall 2097152 self.now }
        requires norm2 { norm2 ≡ norm2_of (normal_of self.now) }
        requires norm2_small { norm2 ≤ 3 * 2 ^ 108 }
        requires some { 0 < norm2 }
        ensures some { IfSome result (λ q. q ≡ moved_by self.now p) }
        ensures in_range { OnSome result (is_place (moved_by self.now p) ≡ true) }
        ensures none { IfNone result (is_place (moved_by self.now p) ≡ false) }
    {
        let x = moved(p.x(), self.x, self.volume, norm2);
        let y = moved(p.y(), self.y, self.volume, norm2);
        let z = moved(p.z(), self.z, self.volume, norm2);
        point(x, y, z)
    }
}
