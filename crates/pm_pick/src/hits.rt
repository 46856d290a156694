//! Where a ray meets a face. The ray passes the three sides of a face that it hits on one hand: the
//! volumes that it spans with them have one sign. All by whole numbers, without a division.
ghost use Rattle.std.specs.Prelude.{◌≡◌, ◌≤◌, ◌<◌, ◌^◌, ◌+◌, pos, ℕ, int_le};
ghost use Rattle.std.specs.Prelude.{unsigned_abs, IfSome, IfNone, Some, None};
ghost use Rattle.pm_base.specs.Geometry.{cross_of, dot_of, IsNormal};
ghost use Rattle.pm_forest.specs.Faces.{face_count, corners_of};
ghost use Rattle.pm_forest.specs.Meshes.{leaf_place};
ghost use Rattle.pm_pick.specs.Rays.{IsWithin};
ghost use Rattle.pm_pick.specs.Hits.{sign_turned, slope_of, height_of, passing, is_hit_at, is_hit};
ghost use Rattle.pm_pick.specs.Hits.{IsHit};
ghost use Rattle.pm_pick.specs.Picks.{HitsFace, MissesFace};

use crate::Ray;
use crate::ways::{Way, dot_of, product_of};
use pm_base::{FaceId, NodeId, Point, cross};
use pm_forest::Hierarchy;
use pm_view::Steps;
use std::sync::ledger::Ledger;

/// Where a ray hits a face: at the fraction `s / q` of its way, where `q` is above 0. The fraction
/// isn't reduced.
#[derive(Clone, Copy, Debug, PartialEq, Eq)]
pub struct Hit {
    pub face: FaceId,
    pub s: u64,
    pub q: u64,
}

// The normal of a face.
fn normal(a: Point, b: Point, c: Point) -> Way
    ensures x { result.x ≡ (cross_of a b c).x }
    ensures y { result.y ≡ (cross_of a b c).y }
    ensures z { result.z ≡ (cross_of a b c).z }
    ensures small { IsWithin (2 ^ 51) result }
    ensures face { IsNormal (cross_of a b c) }
{
    let normal = cross(a, b, c);
    Way {
        x: normal.x,
        y: normal.y,
        z: normal.z,
    }
}

// x, negated where n is below 0.
fn turned(n: i128, x: i128) -> i128
    requires { unsigned_abs x ≤ 2 ^ 78 }
    ensures { result ≡ sign_turned n x }
{
    if n < 0 { -x } else { x }
}

// Whether a number that is turned with the slope isn't below 0.
fn is_up(slope: i128, x: i128) -> bool
    requires { unsigned_abs x ≤ 2 ^ 78 }
    ensures { result ≡ int_le (pos 0) (sign_turned slope x) }
{
    turned(slope, x) >= 0
}

impl Ray {
    #[tactic(auto, unfolding(crate::specs::Hits::slope_of))]
    fn slope(&self, a: Point, b: Point, c: Point) -> i128
        ensures value { result ≡ slope_of a b c self.now }
        ensures fits { unsigned_abs result < 2 ^ 64 }
        ensures small { unsigned_abs result ≤ 2 ^ 78 }
    {
        dot_of(normal(a, b, c), self.way())
    }

    #[tactic(auto, unfolding(crate::specs::Hits::height_of))]
    fn height(&self, a: Point, b: Point, c: Point) -> i128
        ensures value { result ≡ height_of a b c self.now }
        ensures fits { unsigned_abs result < 2 ^ 64 }
        ensures small { unsigned_abs result ≤ 2 ^ 78 }
    {
        dot_of(normal(a, b, c), self.way_to(a))
    }

    #[tactic(auto, unfolding(crate::specs::Hits::passing))]
    fn passing(&self, p: Point, q: Point) -> i128
        ensures value { result ≡ passing p q self.now }
        ensures small { unsigned_abs result ≤ 2 ^ 78 }
    {
        dot_of(product_of(self.way_to(p), self.way_to(q)), self.way())
    }

    // Whether the height, turned with the slope, isn't below 0.
    fn is_ahead(&self, slope: i128, a: Point, b: Point, c: Point) -> bool
        ensures { result ≡ int_le (pos 0) (sign_turned slope (height_of a b c self.now)) }
    {
        is_up(slope, self.height(a, b, c))
    }

    // Whether the ray passes a side on the hand that the slope tells.
    fn is_inside(&self, slope: i128, p: Point, q: Point) -> bool
        ensures { result ≡ int_le (pos 0) (sign_turned slope (passing p q self.now)) }
    {
        is_up(slope, self.passing(p, q))
    }

    // Whether the ray hits a face whose slope this is, where the slope isn't 0.
    fn is_hit_at(&self, slope: i128, a: Point, b: Point, c: Point) -> bool
        ensures { result ≡ is_hit_at slope a b c self.now }
    {
        self.is_ahead(slope, a, b, c)
            && self.is_inside(slope, b, c)
            && self.is_inside(slope, c, a)
            && self.is_inside(slope, a, b)
    }

    // Whether the ray hits a face.
    #[tactic(auto, unfolding(crate::specs::Hits::is_hit))]
    fn is_hit(&self, a: Point, b: Point, c: Point) -> bool
        ensures { result ≡ is_hit a b c self.now }
    {
        let slope = self.slope(a, b, c);
        slope.unsigned_abs() > 0 && self.is_hit_at(slope, a, b, c)
    }

    // The hit of a face.
    fn hit_at(&self, f: FaceId, a: Point, b: Point, c: Point) -> Option<Hit>
        ensures some { IfSome result (λ x. (x.face.0 ≡ f.0) × IsHit a b c self.now x.s x.q) }
        ensures none { IfNone result ((s q : ℕ) → IsHit a b c self.now s q → ⊥) }
    {
        if !self.is_hit(a, b, c) {
            return None;
        }
        let s = self.height(a, b, c).unsigned_abs() as u64;
        let q = self.slope(a, b, c).unsigned_abs() as u64;
        Some(Hit { face: f, s, q })
    }
}

// The places of a face's corners.
fn corners(h: &Hierarchy, f: FaceId) -> (Point, Point, Point)
    requires { f.0 < face_count h.now }
    ensures a { result.0 ≡ leaf_place h.now (corners_of h.now f.0).a }
    ensures b { result.1 ≡ leaf_place h.now (corners_of h.now f.0).b }
    ensures c { result.2 ≡ leaf_place h.now (corners_of h.now f.0).c }
{
    h.invariant();
    let face = h.face_at(f);
    (
        h.place(h.leaf_node(face.a)),
        h.place(h.leaf_node(face.b)),
        h.place(h.leaf_node(face.c)),
    )
}

/// Where the ray hits a face of the input, on whichever hand; none exactly where it doesn't, as
/// where the ray lies in the face's plane. It counts one step, and takes no memory.
pub fn face_hit<L: Ledger>(h: &Hierarchy, f: FaceId, ray: &Ray, steps: &mut Steps<L>) -> Option<Hit>
    requires { f.0 < face_count h.now }
    ensures some { IfSome result (λ x. (x.face.0 ≡ f.0) × HitsFace h.now ray.now f.0 x.s x.q) }
    ensures none { IfNone result (MissesFace h.now ray.now f.0) }
    ensures cost { steps.new ≡ steps.old + 1 }
{
    steps.tick();
    let (a, b, c) = corners(h, f);
    ray.hit_at(f, a, b, c)
}
