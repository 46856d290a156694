//! The planes at a corner of a face: that of the face, and those that stand on open sides.
ghost use Rattle.std.specs.Prelude.{◌≡◌, ◌≤◌, ◌<◌, ◌^◌, ◌++◌, List, IfSome, option_map};
ghost use Rattle.pm_quadric.specs.Planes.{Plane};
ghost use Rattle.pm_quadric.specs.Sums.{StandsFor};
ghost use Rattle.pm_fine.specs.declared.fine_quadric.TheConstants.{MOST_FINE_PLANES};
ghost use Rattle.pm_fine.specs.Normals.{IsWithin, halved as halved_of, doubled as doubled_of};
ghost use Rattle.pm_fine_costs.specs.CornerPlanes.{open_normal, normals_of, weighed};
ghost use Rattle.pm_fine_costs.specs.CornerPlanes.{some_plane, planes_with};

use pm_base::{Point, cross};
use pm_fine::{FineNormal, FinePlane, FineQuadric, area_normal, border_normal};

/// A corner of a face.
#[derive(Clone, Copy)]
pub(crate) struct Corner {
    pub(crate) at: Point,
    /// The places of the next corner of the face and of the one before.
    pub(crate) next: Point,
    pub(crate) last: Point,
    /// Whether nothing stands across the side to the next corner, and across that from the one
    /// before.
    pub(crate) is_open_after: bool,
    pub(crate) is_open_before: bool,
}

/// The normals of the planes at a corner.
#[derive(Clone, Copy)]
pub(crate) struct CornerNormals {
    face: FineNormal,
    after: Option<FineNormal>,
    before: Option<FineNormal>,
}

// The normal of the plane on a side from a to b of a face whose third corner is c, if the side is
// open.
fn open_normal(a: Point, b: Point, c: Point, is_open: bool) -> Option<FineNormal>
    ensures value { result ≡ open_normal a b c is_open }
    ensures small { IfSome result (IsWithin (2 ^ 26)) }
{
    if !is_open {
        return None;
    }
    Some(border_normal(a, b, cross(a, b, c)))
}

// A normal of half the length, if there is one.
fn halved(n: Option<FineNormal>) -> Option<FineNormal>
    ensures { result ≡ option_map halved_of n }
{
    match n {
        None => None,
        Some(n) => Some(n.halved()),
    }
}

// A normal of twice the length, if there is one.
fn doubled(n: Option<FineNormal>) -> Option<FineNormal>
    requires { IfSome n (IsWithin (2 ^ 26)) }
    ensures { result ≡ option_map doubled_of n }
{
    match n {
        None => None,
        Some(n) => Some(n.doubled()),
    }
}

// The quadric with one plane more, which comes first, if there is a normal.
fn with_plane(quadric: FineQuadric, n: Option<FineNormal>, p: Point) -> FineQuadric
    requires { quadric.count < MOST_FINE_PLANES }
    ensures { (fs : List Plane) → StandsFor quadric fs → StandsFor result (some_plane n p ++ fs) }
{
    match n {
        None => quadric,
        Some(n) => quadric.with_plane(&FinePlane::through(n, p)),
    }
}

impl CornerNormals {
    pub(crate) fn of(corner: &Corner) -> CornerNormals
        ensures value { result ≡ normals_of corner.now }
        ensures face { IsWithin (2 ^ 26) result.face }
        ensures after { IfSome result.after (IsWithin (2 ^ 26)) }
        ensures before { IfSome result.before (IsWithin (2 ^ 26)) }
    {
        let (at, next, last) = (corner.at, corner.next, corner.last);
        CornerNormals {
            face: area_normal(cross(at, next, last)),
            after: open_normal(at, next, last, corner.is_open_after),
            before: open_normal(last, at, next, corner.is_open_before),
        }
    }

    /// Those of the planes that weigh a quarter as much.
    pub(crate) fn halved(&self) -> CornerNormals
        ensures { result ≡ weighed halved_of self.now }
    {
        CornerNormals {
            face: self.face.halved(),
            after: halved(self.after),
            before: halved(self.before),
        }
    }

    /// Those of the planes that weigh four times as much.
    pub(crate) fn doubled(&self) -> CornerNormals
        requires face { IsWithin (2 ^ 26) self.now.face }
        requires after { IfSome self.now.after (IsWithin (2 ^ 26)) }
        requires before { IfSome self.now.before (IsWithin (2 ^ 26)) }
        ensures { result ≡ weighed doubled_of self.now }
    {
        CornerNormals {
            face: self.face.doubled(),
            after: doubled(self.after),
            before: doubled(self.before),
        }
    }

    // The quadric of the planes with these normals through a place, whichever sides are open.
    fn with_sides(&self, p: Point) -> FineQuadric
        ensures stands { StandsFor result (planes_with self.now p) }
        ensures few { result.count ≤ 3 }
    {
        let before = with_plane(FineQuadric::zero(), self.before, p);
        let sides = with_plane(before, self.after, p);
        sides.with_plane(&FinePlane::through(self.face, p))
    }

    /// The quadric of the planes with these normals through a place. Mostly there is the face's
    /// alone.
    pub(crate) fn quadric_at(&self, p: Point) -> FineQuadric
        ensures stands { StandsFor result (planes_with self.now p) }
        ensures few { result.count ≤ 3 }
    {
        if let (None, None) = (self.after, self.before) {
            return FineQuadric::of_plane(&FinePlane::through(self.face, p));
        }
        self.with_sides(p)
    }
}
