//! Walks over the corners at one vertex.
ghost use Rattle.std.specs.Prelude.{◌≡◌, ◌<◌, ◌≤◌, ◌↔◌, ◌||◌, true, IsTrue, All, IfSome};
ghost use Rattle.std.specs.Prelude.{is_none, MatchOption};
ghost use Rattle.std.specs.Option.{option_map};
ghost use Rattle.pm_base.specs.declared.limits.TheConstants.{MOST_SIDES};
ghost use Rattle.pm_base.specs.Sides.{side_count, next as next_of, prev as prev_of, to as to_of};
ghost use Rattle.pm_base.specs.Sides.{third as third_of};
ghost use Rattle.pm_base.specs.Sides.{Stands, NoSideTwice, IsBorder, twin_of};
ghost use Rattle.pm_runs.specs.Surfaces.{is_live as is_live_in};
ghost use Rattle.pm_runs.specs.Pairs.{Joined, IsThird, HasFace};
ghost use Rattle.pm_runs.specs.Steps.{side_from_to};
ghost use Rattle.pm_shrink.specs.Shrinking.{net_at, fan_at, AreCornersAt};
ghost use Rattle.pm_shrink.specs.Walks.{holds_vertex, has_two};

use crate::Shrink;
use pm_base::Side;
use pm_links::Items;

/// How many corners a walk over all of them may have until it counts as long.
pub(crate) const MANY: usize = 32;

impl Shrink {
    // The corners at a live vertex.
    pub(crate) fn corners_at(&self, v: u32) -> Items<'_>
        requires { is_live_in self.now.surface v ≡ true }
        ensures corners { result ≡ fan_at self.now v }
        ensures each { AreCornersAt (net_at self.now) v (fan_at self.now v) }
        ensures stand { All (Stands (net_at self.now)) result }
        ensures start { All (λ e. (net_at self.now).from e ≡ v) result }
        ensures within { All (λ e. e < side_count (net_at self.now)) result }
        ensures small { side_count (net_at self.now) ≤ MOST_SIDES }
    {
        self.tables.corners.items(v)
    }

    // The vertex from which a side runs.
    pub(crate) fn from(&self, side: Side) -> u32
        requires { Stands (net_at self.now) side.0 }
        ensures value { result ≡ (net_at self.now).from side.0 }
        ensures live { is_live_in self.now.surface result ≡ true }
    {
        self.tables.faces.from(side)
    }

    // The side that follows in the same face.
    pub(crate) fn next_side(&self, side: Side) -> Side
        requires { Stands (net_at self.now) side.0 }
        ensures value { result.0 ≡ next_of side.0 }
        ensures stands { Stands (net_at self.now) result.0 }
    {
        self.invariant();
        side.next()
    }

    // The side that comes before in the same face.
    pub(crate) fn prev_side(&self, side: Side) -> Side
        requires { Stands (net_at self.now) side.0 }
        ensures value { result.0 ≡ prev_of side.0 }
        ensures stands { Stands (net_at self.now) result.0 }
    {
        self.next_side(self.next_side(side))
    }

    // The vertex to which a side runs.
    pub(crate) fn to(&self, side: Side) -> u32
        requires { Stands (net_at self.now) side.0 }
        ensures value { result ≡ to_of (net_at self.now) side.0 }
        ensures live { is_live_in self.now.surface result ≡ true }
    {
        self.from(self.next_side(side))
    }

    // The third corner of a side's face.
    pub(crate) fn third(&self, side: Side) -> u32
        requires { Stands (net_at self.now) side.0 }
        ensures value { result ≡ third_of (net_at self.now) side.0 }
        ensures live { is_live_in self.now.surface result ≡ true }
    {
        self.from(self.prev_side(side))
    }

    // Whether nothing stands across a side.
    pub(crate) fn is_border_side(&self, side: Side) -> bool
        requires { Stands (net_at self.now) side.0 }
        ensures { result ≡ is_none (twin_of (net_at self.now) side.0) }
    {
        self.across(side).is_none()
    }

    // Whether nothing stands across one of the two sides of a face at a corner: that which runs
    // from it, and that which runs to it.
    fn is_border_corner(&self, corner: Side) -> bool
        requires { Stands (net_at self.now) corner.0 }
        ensures { result ≡ (is_none (twin_of (net_at self.now) corner.0)
            || is_none (twin_of (net_at self.now) (prev_of corner.0))) }
    {
        self.is_border_side(corner) || self.is_border_side(self.prev_side(corner))
    }

    // The side from p to q, if a face has one. The corners at both are walked at once, so that the
    // fewer ones decide.
    pub(crate) fn side_to(&self, p: u32, q: u32) -> Option<Side>
        requires p_live { is_live_in self.now.surface p ≡ true }
        requires q_live { is_live_in self.now.surface q ≡ true }
        ensures value { option_map (λ s. s.0) result ≡ side_from_to (net_at self.now) p q }
        ensures stands { IfSome result (λ s. Stands (net_at self.now) s.0) }
        ensures once { NoSideTwice (net_at self.now) }
    {
        self.invariant();
        let mut at_p = self.corners_at(p);
        let mut at_q = self.corners_at(q);
        while let (Some(from_p), Some(from_q)) = (at_p.next(), at_q.next()) {
            let (corner_p, corner_q) = (Side(from_p), Side(from_q));
            if self.to(corner_p) == q {
                return Some(corner_p);
            }
            if self.third(corner_q) == p {
                return Some(self.prev_side(corner_q));
            }
        }
        None
    }

    // Whether the face at a corner has w for another corner.
    pub(crate) fn has_other(&self, corner: Side, w: u32) -> bool
        requires { Stands (net_at self.now) corner.0 }
        ensures { result ≡ holds_vertex (net_at self.now) w corner.0 }
    {
        self.to(corner) == w || self.third(corner) == w
    }

    // Whether some face holds both v and w. Where few corners are at v they decide, since those at
    // w are seldom at hand. Else the corners at both are walked at once, so that the fewer ones
    // decide.
    pub(crate) fn is_joined(&self, v: u32, w: u32) -> bool
        requires v_live { is_live_in self.now.surface v ≡ true }
        requires w_live { is_live_in self.now.surface w ≡ true }
        ensures { IsTrue result ↔ Joined (net_at self.now) v w }
    {
        if self.corners_at(v).nth(MANY).is_none() {
            self.is_joined_at(v, w)
        } else {
            self.is_joined_at_either(v, w)
        }
    }

    // The same answer as `is_joined`, by the corners at v.
    fn is_joined_at(&self, v: u32, w: u32) -> bool
        requires { is_live_in self.now.surface v ≡ true }
        ensures { IsTrue result ↔ Joined (net_at self.now) v w }
    {
        for number in self.corners_at(v) {
            if self.has_other(Side(number), w) {
                return true;
            }
        }
        false
    }

    // The same answer as `is_joined`, by the corners at v or those at w, whichever end first.
    fn is_joined_at_either(&self, v: u32, w: u32) -> bool
        requires v_live { is_live_in self.now.surface v ≡ true }
        requires w_live { is_live_in self.now.surface w ≡ true }
        ensures { IsTrue result ↔ Joined (net_at self.now) v w }
    {
        let mut at_v = self.corners_at(v);
        let mut at_w = self.corners_at(w);
        while let (Some(from_v), Some(from_w)) = (at_v.next(), at_w.next()) {
            if self.has_other(Side(from_v), w) || self.has_other(Side(from_w), v) {
                return true;
            }
        }
        false
    }

    // Whether the other two corners of the face at a corner are these, in either order.
    fn has_others(&self, corner: Side, b: u32, c: u32) -> bool
        requires { Stands (net_at self.now) corner.0 }
        ensures { result ≡ has_two (net_at self.now) b c corner.0 }
    {
        let (to, third) = (self.to(corner), self.third(corner));
        (to == b && third == c) || (to == c && third == b)
    }

    // Whether some face has these three corners, in either order.
    pub(crate) fn has_face(&self, a: u32, b: u32, c: u32) -> bool
        requires { is_live_in self.now.surface a ≡ true }
        ensures { IsTrue result ↔ HasFace (net_at self.now) a b c }
    {
        self.face_with(a, b, c).is_some()
    }

    // The corner at a of a face with these three corners, in either order.
    pub(crate) fn face_with(&self, a: u32, b: u32, c: u32) -> Option<Side>
        requires { is_live_in self.now.surface a ≡ true }
        ensures { MatchOption result (HasFace (net_at self.now) a b c → ⊥)
            (λ e. Stands (net_at self.now) e.0 × ((net_at self.now).from e.0 ≡ a)
            × (has_two (net_at self.now) b c e.0 ≡ true)) }
    {
        for number in self.corners_at(a) {
            let corner = Side(number);
            if self.has_others(corner, b, c) {
                return Some(corner);
            }
        }
        None
    }

    // Whether w is the third corner of a face that holds both a and b.
    pub(crate) fn is_third(&self, a: u32, b: u32, w: u32) -> bool
        requires { is_live_in self.now.surface a ≡ true }
        ensures { IsTrue result ↔ IsThird (net_at self.now) a b w }
    {
        self.has_face(a, b, w)
    }

    // Whether a side at the vertex has nothing across it.
    pub(crate) fn is_on_border(&self, v: u32) -> bool
        requires { is_live_in self.now.surface v ≡ true }
        ensures { IsTrue result ↔ IsBorder (net_at self.now) v }
    {
        for number in self.corners_at(v) {
            if self.is_border_corner(Side(number)) {
                return true;
            }
        }
        false
    }
}
