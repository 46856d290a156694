//! Which pairs may be collapsed: the link condition with its border cases (Dey, Edelsbrunner, Guha
//! and Nekhayev 1999), and the test for faces that turn over. Only the faces at the two ends are
//! looked at.
ghost use Rattle.std.specs.Prelude.{◌≡◌, ◌≢◌, ◌↔◌, ◌&&◌, ◌≤ℤ◌, pos, true, IsTrue, is_none};
ghost use Rattle.pm_base.specs.Geometry.{cross_of, dot_of};
ghost use Rattle.pm_base.specs.Sides.{next as next_of, prev as prev_of, to as to_of};
ghost use Rattle.pm_base.specs.Sides.{third as third_of, Stands, IsBorder, twin_of};
ghost use Rattle.pm_runs.specs.Surfaces.{is_live as is_live_in, place_at};
ghost use Rattle.pm_runs.specs.Pairs.{HasSide, HaveCommonThirds, AreOnceOnBorder, ShareNoTriangle};
ghost use Rattle.pm_runs.specs.Pairs.{AreNotAlone, StaysUpright, StayUpright, IsLegalPair};
ghost use Rattle.pm_shrink.specs.Shrinking.{net_at};
ghost use Rattle.pm_shrink.specs.Walks.{IsStray, IsAloneAlong, StayUprightAt};

use crate::Shrink;
use pm_base::{Point, Side, cross, dot};

impl Shrink {
    /// Whether the pair of two different live vertices may be collapsed to the place. The time is
    /// at most the product of the numbers of faces at the two.
    pub fn pair_legal(&self, a: u32, b: u32, place: Point) -> bool
        requires a_live { is_live_in self.now.surface a ≡ true }
        requires b_live { is_live_in self.now.surface b ≡ true }
        requires differ { a ≢ b }
        ensures { IsTrue result ↔ IsLegalPair self.now.surface a b place }
    {
        if !self.is_joined(a, b) {
            return false;
        }
        self.is_linkable(a, b) && self.stay_upright(a, b, place)
    }

    // The link condition of a pair that some face holds.
    fn is_linkable(&self, a: u32, b: u32) -> bool
        requires a_live { is_live_in self.now.surface a ≡ true }
        requires b_live { is_live_in self.now.surface b ≡ true }
        ensures { IsTrue result
            ↔ ((HaveCommonThirds (net_at self.now) a b × ShareNoTriangle (net_at self.now) a b)
            × (AreOnceOnBorder (net_at self.now) a b × AreNotAlone (net_at self.now) a b)) }
    {
        self.keeps_apart(a, b) && self.keeps_border(a, b)
    }

    // The parts that keep sides and faces from coming twice.
    fn keeps_apart(&self, a: u32, b: u32) -> bool
        requires a_live { is_live_in self.now.surface a ≡ true }
        requires b_live { is_live_in self.now.surface b ≡ true }
        ensures { IsTrue result
            ↔ (HaveCommonThirds (net_at self.now) a b × ShareNoTriangle (net_at self.now) a b) }
    {
        self.have_common_thirds(a, b) && self.share_no_triangle(a, b)
    }

    // The parts that speak of borders.
    fn keeps_border(&self, a: u32, b: u32) -> bool
        requires a_live { is_live_in self.now.surface a ≡ true }
        requires b_live { is_live_in self.now.surface b ≡ true }
        ensures { IsTrue result
            ↔ (AreOnceOnBorder (net_at self.now) a b × AreNotAlone (net_at self.now) a b) }
    {
        self.are_once_on_border(a, b) && self.are_not_alone(a, b)
    }

    // (i) The common neighbours are exactly the third corners of the faces that hold both.
    fn have_common_thirds(&self, a: u32, b: u32) -> bool
        requires a_live { is_live_in self.now.surface a ≡ true }
        requires b_live { is_live_in self.now.surface b ≡ true }
        ensures { IsTrue result ↔ HaveCommonThirds (net_at self.now) a b }
    {
        self.stray(a, b).is_none()
    }

    // Whether w is a neighbour of b without being a third corner of a face that holds both a and b.
    pub(crate) fn is_stray(&self, a: u32, b: u32, w: u32) -> bool
        requires a_live { is_live_in self.now.surface a ≡ true }
        requires b_live { is_live_in self.now.surface b ≡ true }
        requires w_live { is_live_in self.now.surface w ≡ true }
        ensures { IsTrue result ↔ IsStray (net_at self.now) a b w }
    {
        // One of the faces at a may hold b itself, which no walk over its corners finds beside it.
        if b == w {
            return false;
        }
        self.is_joined(b, w) && !self.is_third(a, b, w)
    }

    // (ii) If both lie on the border, only one face holds both.
    fn are_once_on_border(&self, a: u32, b: u32) -> bool
        requires a_live { is_live_in self.now.surface a ≡ true }
        requires b_live { is_live_in self.now.surface b ≡ true }
        ensures { IsTrue result ↔ AreOnceOnBorder (net_at self.now) a b }
    {
        self.invariant();
        !self.are_twice_on_border(a, b)
    }

    // Whether both lie on the border, and two faces hold both.
    pub(crate) fn are_twice_on_border(&self, a: u32, b: u32) -> bool
        requires a_live { is_live_in self.now.surface a ≡ true }
        requires b_live { is_live_in self.now.surface b ≡ true }
        ensures { IsTrue result ↔ ((IsBorder (net_at self.now) a × IsBorder (net_at self.now) b)
            × (HasSide (net_at self.now) a b × HasSide (net_at self.now) b a)) }
    {
        self.are_on_border(a, b) && self.are_joined_twice(a, b)
    }

    fn are_on_border(&self, a: u32, b: u32) -> bool
        requires a_live { is_live_in self.now.surface a ≡ true }
        requires b_live { is_live_in self.now.surface b ≡ true }
        ensures { IsTrue result ↔ (IsBorder (net_at self.now) a × IsBorder (net_at self.now) b) }
    {
        self.is_on_border(a) && self.is_on_border(b)
    }

    // Whether two faces hold both.
    fn are_joined_twice(&self, a: u32, b: u32) -> bool
        requires a_live { is_live_in self.now.surface a ≡ true }
        requires b_live { is_live_in self.now.surface b ≡ true }
        ensures { IsTrue result ↔ (HasSide (net_at self.now) a b × HasSide (net_at self.now) b a) }
    {
        self.has_side(a, b) && self.has_side(b, a)
    }

    // Whether some face has a side from p to q.
    fn has_side(&self, p: u32, q: u32) -> bool
        requires p_live { is_live_in self.now.surface p ≡ true }
        requires q_live { is_live_in self.now.surface q ≡ true }
        ensures { IsTrue result ↔ HasSide (net_at self.now) p q }
    {
        self.side_to(p, q).is_some()
    }

    // (iii) If two faces hold both, with third corners v and w, then not both a, v, w and b, v, w
    // are the corners of faces.
    fn share_no_triangle(&self, a: u32, b: u32) -> bool
        requires a_live { is_live_in self.now.surface a ≡ true }
        requires b_live { is_live_in self.now.surface b ≡ true }
        ensures { IsTrue result ↔ ShareNoTriangle (net_at self.now) a b }
    {
        self.shared_triangle(a, b).is_none()
    }

    // (iii) If one face holds both, not both of its other sides are border sides.
    fn are_not_alone(&self, a: u32, b: u32) -> bool
        requires a_live { is_live_in self.now.surface a ≡ true }
        requires b_live { is_live_in self.now.surface b ≡ true }
        ensures { IsTrue result ↔ AreNotAlone (net_at self.now) a b }
    {
        !self.is_alone_along(a, b) && !self.is_alone_along(b, a)
    }

    // Whether a face has a side from p to q, and nothing stands across any of its sides.
    pub(crate) fn is_alone_along(&self, p: u32, q: u32) -> bool
        requires p_live { is_live_in self.now.surface p ≡ true }
        requires q_live { is_live_in self.now.surface q ≡ true }
        ensures { IsTrue result ↔ IsAloneAlong (net_at self.now) p q }
    {
        match self.side_to(p, q) {
            None => false,
            Some(side) => self.is_border_side(side) && self.is_alone_beside(side),
        }
    }

    // Whether nothing stands across the other two sides of a side's face.
    fn is_alone_beside(&self, side: Side) -> bool
        requires { Stands (net_at self.now) side.0 }
        ensures { result ≡ (is_none (twin_of (net_at self.now) (next_of side.0))
            && is_none (twin_of (net_at self.now) (prev_of side.0))) }
    {
        self.is_border_side(self.next_side(side)) && self.is_border_side(self.prev_side(side))
    }

    // (iv) No face that holds exactly one of the two turns over when that corner moves to the
    // place.
    fn stay_upright(&self, a: u32, b: u32, place: Point) -> bool
        requires a_live { is_live_in self.now.surface a ≡ true }
        requires b_live { is_live_in self.now.surface b ≡ true }
        ensures { IsTrue result ↔ StayUpright self.now.surface a b place }
    {
        self.stay_upright_at(a, b, place) && self.stay_upright_at(b, a, place)
    }

    // No face that holds p and not q turns over when p moves to the place.
    fn stay_upright_at(&self, p: u32, q: u32, place: Point) -> bool
        requires { is_live_in self.now.surface p ≡ true }
        ensures { IsTrue result ↔ StayUprightAt self.now.surface p q place }
    {
        self.turned_at(p, q, place).is_none()
    }

    // Whether the face at a corner doesn't turn over when the corner moves to the place: the
    // product of its two normals is then not below 0.
    pub(crate) fn is_upright(&self, corner: Side, place: Point) -> bool
        requires { Stands (net_at self.now) corner.0 }
        ensures { IsTrue result
            ↔ StaysUpright self.now.surface place ((net_at self.now).from corner.0)
            (to_of (net_at self.now) corner.0) (third_of (net_at self.now) corner.0) }
    {
        let was = self.place_of(corner);
        let q = self.place_of(self.next_side(corner));
        let r = self.place_of(self.prev_side(corner));
        is_at_least_zero(dot_of_normals(place, was, q, r))
    }

    // The place of the vertex at a corner.
    fn place_of(&self, corner: Side) -> Point
        requires { Stands (net_at self.now) corner.0 }
        ensures { result ≡ place_at self.now.surface ((net_at self.now).from corner.0) }
    {
        self.place(self.from(corner))
    }
}

fn is_at_least_zero(product: i128) -> bool
    ensures { IsTrue result ↔ (pos 0 ≤ℤ product) }
{
    product >= 0
}

// The product of the two normals of a face of which one corner moves from p to the place.
fn dot_of_normals(place: Point, p: Point, q: Point, r: Point) -> i128
    ensures { result ≡ dot_of (cross_of place q r) (cross_of p q r) }
{
    dot(cross(place, q, r), cross(p, q, r))
}
