//! Triangles that rounding made flat or turned over, as seen on a grid 4,096 times as fine.
ghost use Rattle.std.specs.Prelude.{◌≡◌, ◌≤◌, ◌^◌, pos, ◌+ℤ◌, ◌-ℤ◌, ◌*ℤ◌, ◌&&◌, length, IfOk};
ghost use Rattle.std.specs.Prelude.{unsigned_abs};
ghost use Rattle.std.specs.Ordering.{int_eq};
ghost use Rattle.std.specs.List.{All};
ghost use Rattle.pm_base.specs.declared.limits.TheConstants.{MOST_FACES};
ghost use Rattle.pm_base.specs.Geometry.{IsNormal, cross_of, dot_of};
ghost use Rattle.obj_prepare.specs.Named.{AreVerticesBelow, IsWithinMesh};
ghost use Rattle.obj_prepare.specs.Placing.{IsSized};
ghost use Rattle.obj_fit.specs.Fine.{normal_over, is_flattened, is_overturned};
ghost use Rattle.obj_fit.specs.Fine.{flattened_count, overturned_count};
ghost use Rattle.obj_fit.specs.Fine.{rounded_faces as rounded_faces_of};

use crate::fine::{FinePoint, fine_places};
use obj_prepare::{ExactPoint, Fit};
use pm_base::{Corners, Normal, Point, cross};
use std::alloc::{AllocError, Global};

/// What rounding did to triangles.
#[derive(Clone, Copy, Debug, PartialEq, Eq)]
pub struct RoundedFaces {
    /// Triangles that it made flat.
    pub flattened: u32,
    /// Triangles that it turned over.
    pub overturned: u32,
}

// How far x is above y.
fn above(x: i32, y: i32) -> i64
    requires x_small { unsigned_abs x ≤ 2 ^ 27 }
    requires y_small { unsigned_abs y ≤ 2 ^ 27 }
    ensures value { result ≡ x -ℤ y }
    ensures small { unsigned_abs result ≤ 2 ^ 28 }
{
    i64::from(x) - i64::from(y)
}

// The product of two differences of coordinates.
fn product(a: i64, b: i64) -> i64
    requires a_small { unsigned_abs a ≤ 2 ^ 28 }
    requires b_small { unsigned_abs b ≤ 2 ^ 28 }
    ensures value { result ≡ a *ℤ b }
    ensures small { unsigned_abs result ≤ 2 ^ 56 }
{
    a * b
}

// The difference of two such products.
fn minus(a: i64, b: i64) -> i64
    requires a_small { unsigned_abs a ≤ 2 ^ 56 }
    requires b_small { unsigned_abs b ≤ 2 ^ 56 }
    ensures value { result ≡ a -ℤ b }
    ensures small { unsigned_abs result ≤ 2 ^ 57 }
{
    a - b
}

// The determinant of two rows.
fn minor(a: i64, b: i64, c: i64, d: i64) -> i64
    requires a_small { unsigned_abs a ≤ 2 ^ 28 }
    requires b_small { unsigned_abs b ≤ 2 ^ 28 }
    requires c_small { unsigned_abs c ≤ 2 ^ 28 }
    requires d_small { unsigned_abs d ≤ 2 ^ 28 }
    ensures value { result ≡ a *ℤ d -ℤ b *ℤ c }
    ensures small { unsigned_abs result ≤ 2 ^ 57 }
{
    minus(product(a, d), product(b, c))
}

// The normal of a triangle over fine places.
fn fine_cross(a: FinePoint, b: FinePoint, c: FinePoint) -> Normal
    ensures x { result.x ≡ (cross_of a b c).x }
    ensures y { result.y ≡ (cross_of a b c).y }
    ensures z { result.z ≡ (cross_of a b c).z }
    ensures x_small { unsigned_abs result.x ≤ 2 ^ 57 }
    ensures y_small { unsigned_abs result.y ≤ 2 ^ 57 }
    ensures z_small { unsigned_abs result.z ≤ 2 ^ 57 }
{
    let bx = above(b.x(), a.x());
    let by = above(b.y(), a.y());
    let bz = above(b.z(), a.z());
    let cx = above(c.x(), a.x());
    let cy = above(c.y(), a.y());
    let cz = above(c.z(), a.z());
    Normal {
        x: minor(by, bz, cy, cz),
        y: minor(bz, bx, cz, cx),
        z: minor(bx, by, cx, cy),
    }
}

// The product of a number of a normal and one of a fine normal.
fn wide(a: i64, b: i64) -> i128
    requires a_small { unsigned_abs a ≤ 8589410312 }
    requires b_small { unsigned_abs b ≤ 2 ^ 57 }
    ensures value { result ≡ a *ℤ b }
    ensures small { unsigned_abs result ≤ 2 ^ 91 }
{
    i128::from(a) * i128::from(b)
}

fn add_three(a: i128, b: i128, c: i128) -> i128
    requires a_small { unsigned_abs a ≤ 2 ^ 91 }
    requires b_small { unsigned_abs b ≤ 2 ^ 91 }
    requires c_small { unsigned_abs c ≤ 2 ^ 91 }
    ensures { result ≡ a +ℤ b +ℤ c }
{
    a + b + c
}

// Whether a normal is 0.
fn is_zero(n: Normal) -> bool
    ensures { result ≡ (int_eq n.x (pos 0) && int_eq n.y (pos 0) && int_eq n.z (pos 0)) }
{
    n.x == 0 && n.y == 0 && n.z == 0
}

// The normal of a triangle over places.
fn normal_over(places: &[Point], face: Corners) -> Normal
    requires { AreVerticesBelow (length places.now) face }
    ensures x { result.x ≡ (normal_over places.now face).x }
    ensures y { result.y ≡ (normal_over places.now face).y }
    ensures z { result.z ≡ (normal_over places.now face).z }
    ensures small { IsNormal (normal_over places.now face) }
{
    let a = places[face.a as usize];
    let b = places[face.b as usize];
    let c = places[face.c as usize];
    cross(a, b, c)
}

// The normal of a triangle over fine places.
fn fine_normal_over(fine: &[FinePoint], face: Corners) -> Normal
    requires { AreVerticesBelow (length fine.now) face }
    ensures x { result.x ≡ (normal_over fine.now face).x }
    ensures y { result.y ≡ (normal_over fine.now face).y }
    ensures z { result.z ≡ (normal_over fine.now face).z }
    ensures x_small { unsigned_abs result.x ≤ 2 ^ 57 }
    ensures y_small { unsigned_abs result.y ≤ 2 ^ 57 }
    ensures z_small { unsigned_abs result.z ≤ 2 ^ 57 }
{
    let a = fine[face.a as usize];
    let b = fine[face.b as usize];
    let c = fine[face.c as usize];
    fine_cross(a, b, c)
}

fn is_flattened(fine: &[FinePoint], places: &[Point], face: Corners) -> bool
    requires fine { AreVerticesBelow (length fine.now) face }
    requires placed { AreVerticesBelow (length places.now) face }
    ensures { result ≡ is_flattened fine.now places.now face }
{
    is_zero(normal_over(places, face)) && !is_zero(fine_normal_over(fine, face))
}

// The product of the normals of a triangle over places and over fine places.
fn normals_product(fine: &[FinePoint], places: &[Point], face: Corners) -> i128
    requires fine { AreVerticesBelow (length fine.now) face }
    requires placed { AreVerticesBelow (length places.now) face }
    ensures { result ≡ dot_of (normal_over places.now face) (normal_over fine.now face) }
{
    let n = normal_over(places, face);
    let m = fine_normal_over(fine, face);
    add_three(wide(n.x, m.x), wide(n.y, m.y), wide(n.z, m.z))
}

fn is_overturned(fine: &[FinePoint], places: &[Point], face: Corners) -> bool
    requires fine { AreVerticesBelow (length fine.now) face }
    requires placed { AreVerticesBelow (length places.now) face }
    ensures { result ≡ is_overturned fine.now places.now face }
{
    normals_product(fine, places, face) < 0
}

// How many triangles were made flat.
#[tactic(auto, unfolding(crate::specs::Fine::flattened_count))]
fn count_flattened(fine: &[FinePoint], places: &[Point], faces: &[Corners]) -> u32
    requires fine { All (AreVerticesBelow (length fine.now)) faces.now }
    requires placed { All (AreVerticesBelow (length places.now)) faces.now }
    requires few { length faces.now ≤ MOST_FACES }
    ensures { result ≡ flattened_count fine.now places.now faces.now }
{
    let mut n = 0;
    for face in faces {
        if is_flattened(fine, places, *face) {
            n += 1;
        }
    }
    n
}

// How many triangles were turned over.
#[tactic(auto, unfolding(crate::specs::Fine::overturned_count))]
fn count_overturned(fine: &[FinePoint], places: &[Point], faces: &[Corners]) -> u32
    requires fine { All (AreVerticesBelow (length fine.now)) faces.now }
    requires placed { All (AreVerticesBelow (length places.now)) faces.now }
    requires few { length faces.now ≤ MOST_FACES }
    ensures { result ≡ overturned_count fine.now places.now faces.now }
{
    let mut n = 0;
    for face in faces {
        if is_overturned(fine, places, *face) {
            n += 1;
        }
    }
    n
}

/// How many triangles of three vertices rounding made flat and turned over. O(V + F) for V points
/// and F triangles; where points stand as they are nothing is done.
pub(crate) fn rounded_faces(
    alloc: Global,
    fit: &Fit,
    points: &[ExactPoint],
    places: &[Point],
    faces: &[Corners],
) -> Result<RoundedFaces, AllocError>
    requires sized { IsSized fit.now }
    requires within { IsWithinMesh (length points.now) faces.now }
    requires placed { length places.now ≡ length points.now }
    ensures { IfOk result
        (λ r. r ≡ rounded_faces_of fit.now points.now places.now faces.now) }
{
    match fit {
        Fit::Standing => Ok(RoundedFaces {
            flattened: 0,
            overturned: 0,
        }),
        Fit::Scaled(size, b) => {
            let fine = fine_places(alloc, *size, b, points)?;
            Ok(RoundedFaces {
                flattened: count_flattened(&fine, places, faces),
                overturned: count_overturned(&fine, places, faces),
            })
        }
    }
}
