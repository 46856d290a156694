//! Where a pair is put: so that the volume under the faces round it stays as it is (Lindstrom and
//! Turk 1998).
ghost use Rattle.std.specs.Prelude.{◌≡◌, true, nat_le, ◌*◌, if◌then◌else◌};
ghost use Rattle.pm_base.specs.Geometry.{dist2_of};
ghost use Rattle.pm_base.specs.Sides.{Stands};
ghost use Rattle.pm_runs.specs.Surfaces.{place_at, is_live as is_live_in};
ghost use Rattle.pm_shrink.specs.Shrinking.{net_at};
ghost use Rattle.pm_fine_costs.specs.Corners.{corners_round};
ghost use Rattle.pm_fine_costs.specs.Volumes.{IsSmall, total_of, has_other, has_but, face_but};
ghost use Rattle.pm_fine_costs.specs.Volumes.{volume_place};

use crate::face_sum::FaceSum;
use crate::round::corner_of;
use pm_base::{Point, Side, dist2};
use pm_shrink::Shrink;

// Whether another corner of the face of a corner is at a vertex.
fn has_other(shrink: &Shrink, side: Side, v: u32) -> bool
    requires { Stands (net_at shrink.now) side.0 }
    ensures { result ≡ has_other shrink.now.surface v side.0 }
{
    shrink.invariant();
    let (to, third) = (shrink.vertex_at(side.next()), shrink.vertex_at(side.prev()));
    to == v || third == v
}

// Whether the face of a corner is left out: where another corner is at `but`.
fn has_but(shrink: &Shrink, side: Side, but: Option<u32>) -> bool
    requires { Stands (net_at shrink.now) side.0 }
    ensures { result ≡ has_but shrink.now.surface but side.0 }
{
    match but {
        None => false,
        Some(v) => has_other(shrink, side, v),
    }
}

// That of the face of a corner, and of none where it is left out.
fn face_but(shrink: &Shrink, side: Side, but: Option<u32>, p: Point) -> FaceSum
    requires { Stands (net_at shrink.now) side.0 }
    ensures value { result ≡ face_but shrink.now.surface but p side.0 }
    ensures small { IsSmall 1 result }
{
    if has_but(shrink, side, but) {
        return FaceSum::zero();
    }
    FaceSum::of(&corner_of(shrink, side), p)
}

// That of the faces at a vertex without `but`.
fn faces_but(shrink: &Shrink, v: u32, but: Option<u32>, p: Point) -> FaceSum
    requires { is_live_in shrink.now.surface v ≡ true }
    ensures value { result ≡ total_of (face_but shrink.now.surface but p)
        (corners_round shrink.now.surface v) }
    ensures small { IsSmall 1048576 result }
{
    shrink.invariant();
    let mut sum = FaceSum::zero();
    let mut at = shrink.first_corner(v);
    while let Some(corner) = at {
        sum = sum.plus(&face_but(shrink, corner, but, p));
        at = shrink.next_corner(corner);
    }
    sum
}

// The place q, and p where q is farther from it than twice the length of the pair.
fn if_near(shrink: &Shrink, a: u32, b: u32, p: Point, q: Point) -> Point
    requires a_live { is_live_in shrink.now.surface a ≡ true }
    requires b_live { is_live_in shrink.now.surface b ≡ true }
    ensures { result ≡ (if nat_le (dist2_of q p)
        (4 * dist2_of (place_at shrink.now.surface a) (place_at shrink.now.surface b))
        then q else p) }
{
    if dist2(q, p) <= 4 * dist2(shrink.place(a), shrink.place(b)) {
        q
    } else {
        p
    }
}

/// Where a pair with a place is put. O(d) for d faces round it.
pub(crate) fn volume_place(shrink: &Shrink, a: u32, b: u32, p: Point) -> Point
    requires a_live { is_live_in shrink.now.surface a ≡ true }
    requires b_live { is_live_in shrink.now.surface b ≡ true }
    ensures { result ≡ volume_place shrink.now.surface a b p }
{
    let first = faces_but(shrink, a, None, p);
    let second = faces_but(shrink, b, Some(a), p);
    let sum = first.plus(&second);
    let norm2 = sum.norm2();
    if norm2 == 0 {
        return p;
    }
    match sum.moved(p, norm2) {
        Some(q) => if_near(shrink, a, b, p, q),
        None => p,
    }
}
