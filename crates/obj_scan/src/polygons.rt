//! Polygons cut into triangles.
ghost use Rattle.std.specs.Prelude.{ℕ, ◌≡◌, ◌<◌, ◌≤◌, ◌++◌, length, OnOk};
ghost use Rattle.std.specs.List.{All};
ghost use Rattle.obj_scan.specs.Polygons.{is_place_before, before_least, begun_least, fan};
ghost use Rattle.obj_scan.specs.Polygons.{triangles};

use crate::OutOfMemory;
use obj_prepare::ExactPoint;
use pm_base::Corners;

// Whether a point comes before another: by x, then y, then z.
#[tactic(auto, unfolding(crate::specs::Polygons::is_place_before))]
fn is_before(p: &ExactPoint, q: &ExactPoint) -> bool
    ensures { result ≡ is_place_before p.now q.now }
{
    p.x() < q.x() || p.x() <= q.x() && (p.y() < q.y() || p.y() <= q.y() && p.z() < q.z())
}

// How many corners stand before the first whose point none comes before.
fn before_least(points: &[ExactPoint], corners: &[u32]) -> usize
    requires { All (λ (c : ℕ). c < length points.now) corners.now }
    ensures value { result ≡ before_least points.now corners.now corners.now }
    ensures within { result ≤ length corners.now }
{
    let mut least = 0;
    for (i, c) in corners.iter().enumerate() {
        if is_before(&points[*c as usize], &points[corners[least] as usize]) {
            least = i;
        }
    }
    least
}

// Turns a polygon so that it begins at its least corner.
#[tactic(auto, unfolding(crate::specs::Polygons::begun_least))]
fn begin_at_least(points: &[ExactPoint], corners: &mut Vec<u32>)
    requires { All (λ (c : ℕ). c < length points.now) corners.old.items }
    ensures { corners.new.items ≡ begun_least points.now corners.old.items }
{
    let least = before_least(points, corners);
    corners.rotate_left(least);
}

// Puts down the triangles of a corner and each two neighbours after it.
#[tactic(auto, using(crate::proofs::PolygonLaws::fan_next))]
fn push_fan(faces: &mut Vec<Corners>, a: u32, rest: &[u32]) -> Result<(), OutOfMemory>
    ensures { OnOk result (faces.new.items ≡ faces.old.items ++ fan a rest.now) }
{
    for i in 1..rest.len() {
        let (b, c) = (rest[i - 1], rest[i]);
        faces.push(Corners { a, b, c })?;
    }
    Ok(())
}

/// Puts down the triangles of a polygon, whose corners may be turned. The time is linear in its
/// corners.
#[tactic(auto, unfolding(crate::specs::Polygons::triangles))]
pub fn push_polygon(
    points: &[ExactPoint],
    faces: &mut Vec<Corners>,
    corners: &mut Vec<u32>,
) -> Result<(), OutOfMemory>
    requires { All (λ (c : ℕ). c < length points.now) corners.old.items }
    ensures { OnOk result (faces.new.items ≡ faces.old.items
        ++ triangles points.now corners.old.items) }
{
    if corners.len() != 3 {
        begin_at_least(points, corners);
    }
    match corners.as_slice() {
        [a, rest @ ..] => push_fan(faces, *a, rest),
        [] => Ok(()),
    }
}
