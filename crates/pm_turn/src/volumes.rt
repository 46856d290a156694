//! Volumes: the determinants of faces' corners, which are exact.
ghost use Rattle.std.specs.Prelude.{◌≡◌, ◌<◌, ◌≤◌, ◌^◌, ◌+ℤ◌, ◌*ℤ◌, length, unsigned_abs};
ghost use Rattle.pm_base.specs.Sides.{net_of};
ghost use Rattle.pm_turn.specs.Choice.{ArePlaced, determinant_of, volume_at};
ghost use Rattle.pm_turn.specs.Sums.{face_volume};

use pm_base::{Corners, Point, cross};

// The product of a coordinate and a number of a normal.
fn product(a: i32, n: i64) -> i128
    requires a_small { unsigned_abs a ≤ 32767 }
    requires n_small { unsigned_abs n ≤ 8589410312 }
    ensures value { result ≡ a *ℤ n }
    ensures small { unsigned_abs result ≤ 2 ^ 49 }
{
    i128::from(a) * i128::from(n)
}

// The sum of three such products.
fn add_three(a: i128, b: i128, c: i128) -> i128
    requires a_small { unsigned_abs a ≤ 2 ^ 49 }
    requires b_small { unsigned_abs b ≤ 2 ^ 49 }
    requires c_small { unsigned_abs c ≤ 2 ^ 49 }
    ensures value { result ≡ a +ℤ b +ℤ c }
    ensures small { unsigned_abs result ≤ 2 ^ 51 }
{
    a + b + c
}

// The determinant of three points: the corner a times the face's normal.
#[tactic(auto, unfolding(crate::specs::Choice::determinant_of))]
fn determinant(a: Point, b: Point, c: Point) -> i128
    ensures value { result ≡ determinant_of a b c }
    ensures small { unsigned_abs result ≤ 2 ^ 51 }
{
    let normal = cross(a, b, c);
    add_three(
        product(a.x(), normal.x),
        product(a.y(), normal.y),
        product(a.z(), normal.z),
    )
}

// The determinant of a face's corners, once it is turned if told so.
fn volume(face: Corners, places: &[Point], turned: bool) -> i128
    requires a { face.a < length places.now }
    requires b { face.b < length places.now }
    requires c { face.c < length places.now }
    ensures value { result ≡ face_volume places.now turned face }
    ensures small { unsigned_abs result ≤ 2 ^ 51 }
{
    let a = places[face.a as usize];
    let b = places[face.b as usize];
    let c = places[face.c as usize];
    if turned {
        determinant(a, c, b)
    } else {
        determinant(a, b, c)
    }
}

/// The determinant of face `face`, once it is turned if told so.
#[tactic(auto, using(crate::proofs::Summing::volume_by_corners))]
pub(crate) fn volume_of(faces: &[Corners], places: &[Point], face: usize, turned: bool) -> i128
    requires in_range { face < length faces.now }
    requires placed { ArePlaced (net_of faces.now) places.now }
    ensures value { result ≡ volume_at (net_of faces.now) places.now turned face }
    ensures small { unsigned_abs result ≤ 2 ^ 51 }
{
    volume(faces[face], places, turned)
}
