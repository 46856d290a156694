//! A face that turns over, looked for beside the pair's edge. Where many corners are at one vertex,
//! as in the middle of a cap, a face that does is mostly a few steps away, and the list of corners
//! would come to it late.
ghost use Rattle.std.specs.Prelude.{◌≡◌, ◌<◌, true, IfSome};
ghost use Rattle.pm_base.specs.Sides.{Stands, IsTwin};
ghost use Rattle.pm_runs.specs.Surfaces.{is_live as is_live_in};
ghost use Rattle.pm_shrink.specs.Shrinking.{net_at};
ghost use Rattle.pm_shrink.specs.Obstacles.{TurnsOver};
ghost use Rattle.pm_shrink.specs.Walks.{TurnsAt};

use crate::Shrink;
use crate::fan::MANY;
use pm_base::{Point, Side};

// How many faces each way are looked at.
const NEAR: u32 = 16;

// The two ways round a vertex.
#[derive(Clone, Copy)]
enum Way {
    Left,
    Right,
}

impl Shrink {
    // A corner of one of the two whose face doesn't hold the other, lies beside the pair's edge,
    // and turns over.
    pub(crate) fn turned_near(&self, a: u32, b: u32, place: Point) -> Option<Side>
        requires a_live { is_live_in self.now.surface a ≡ true }
        requires b_live { is_live_in self.now.surface b ≡ true }
        ensures { IfSome result (λ e. TurnsOver self.now.surface a b place e.0) }
    {
        if let Some(corner) = self.turned_near_at(a, b, place) {
            return Some(corner);
        }
        self.turned_near_at(b, a, place)
    }

    // Such a corner of p, where many corners are at p and it doesn't stay at its place.
    fn turned_near_at(&self, p: u32, q: u32, place: Point) -> Option<Side>
        requires p_live { is_live_in self.now.surface p ≡ true }
        requires q_live { is_live_in self.now.surface q ≡ true }
        ensures { IfSome result (λ e. Stands (net_at self.now) e.0
            × ((net_at self.now).from e.0 ≡ p)
            × TurnsAt self.now.surface q place e.0) }
    {
        if place == self.place(p) || self.corners_at(p).nth(MANY).is_none() {
            return None;
        }
        let Some(edge) = self.corner_with(p, q) else {
            return None;
        };
        if let Some(corner) = self.turned_along(edge, Way::Left, q, place) {
            return Some(corner);
        }
        self.turned_along(edge, Way::Right, q, place)
    }

    // A corner of p in a face that holds q. The corners at both are walked at once, so that the
    // fewer ones decide.
    fn corner_with(&self, p: u32, q: u32) -> Option<Side>
        requires p_live { is_live_in self.now.surface p ≡ true }
        requires q_live { is_live_in self.now.surface q ≡ true }
        ensures { IfSome result (λ e. Stands (net_at self.now) e.0
            × ((net_at self.now).from e.0 ≡ p)) }
    {
        let mut at_p = self.corners_at(p);
        let mut at_q = self.corners_at(q);
        while let (Some(from_p), Some(from_q)) = (at_p.next(), at_q.next()) {
            let (corner_p, corner_q) = (Side(from_p), Side(from_q));
            if self.has_other(corner_p, q) {
                return Some(corner_p);
            }
            if self.to(corner_q) == p {
                return Some(self.next_side(corner_q));
            }
            if self.third(corner_q) == p {
                return Some(self.prev_side(corner_q));
            }
        }
        None
    }

    // The first of the corners from this one on, one way round its vertex, whose face doesn't hold
    // q and turns over.
    fn turned_along(&self, from: Side, way: Way, q: u32, place: Point) -> Option<Side>
        requires { Stands (net_at self.now) from.0 }
        ensures { IfSome result (λ e. Stands (net_at self.now) e.0
            × ((net_at self.now).from e.0 ≡ (net_at self.now).from from.0)
            × TurnsAt self.now.surface q place e.0) }
    {
        let mut corner = from;
        for _ in 0..NEAR {
            let Some(following) = self.corner_beside(corner, way) else {
                return None;
            };
            if self.turns_over(following, q, place) {
                return Some(following);
            }
            corner = following;
        }
        None
    }

    // The next corner one way round the vertex of this one.
    fn corner_beside(&self, corner: Side, way: Way) -> Option<Side>
        requires { Stands (net_at self.now) corner.0 }
        ensures { IfSome result (λ e. Stands (net_at self.now) e.0
            × ((net_at self.now).from e.0 ≡ (net_at self.now).from corner.0)) }
    {
        match way {
            Way::Left => self.twin(self.prev_side(corner)),
            Way::Right => match self.twin(corner) {
                None => None,
                Some(twin) => Some(self.next_side(twin)),
            },
        }
    }

    // What stands across a side.
    fn twin(&self, side: Side) -> Option<Side>
        requires { Stands (net_at self.now) side.0 }
        ensures { IfSome result (λ twin. IsTwin (net_at self.now) side.0 twin.0) }
    {
        self.across(side)
    }
}
