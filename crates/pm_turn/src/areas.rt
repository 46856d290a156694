//! Areas: the numbers of faces' normals without their signs, which are exact.
ghost use Rattle.std.specs.Prelude.{◌≡◌, ◌<◌, ◌^◌, length};
ghost use Rattle.pm_base.specs.Sides.{net_of};
ghost use Rattle.pm_turn.specs.Choice.{ArePlaced, area_of as area_of_places, area_at};
ghost use Rattle.pm_turn.specs.Sums.{face_area};

use pm_base::{Corners, Point, cross};

// The numbers of the normal of three points without their signs, added up.
#[tactic(auto, unfolding(crate::specs::Choice::area_of))]
fn area_between(a: Point, b: Point, c: Point) -> u64
    ensures value { result ≡ area_of_places a b c }
    ensures small { result < 2 ^ 35 }
{
    let normal = cross(a, b, c);
    normal.x.unsigned_abs() + normal.y.unsigned_abs() + normal.z.unsigned_abs()
}

// The area of a face.
fn area(face: Corners, places: &[Point]) -> u64
    requires a { face.a < length places.now }
    requires b { face.b < length places.now }
    requires c { face.c < length places.now }
    ensures value { result ≡ face_area places.now face }
    ensures small { result < 2 ^ 35 }
{
    area_between(
        places[face.a as usize],
        places[face.b as usize],
        places[face.c as usize],
    )
}

/// The area of face `face`.
#[tactic(auto, using(crate::proofs::Summing::area_by_corners))]
pub(crate) fn area_of(faces: &[Corners], places: &[Point], face: usize) -> u64
    requires in_range { face < length faces.now }
    requires placed { ArePlaced (net_of faces.now) places.now }
    ensures value { result ≡ area_at (net_of faces.now) places.now face }
    ensures small { result < 2 ^ 35 }
{
    area(faces[face], places)
}
