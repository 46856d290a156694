//! Whether a pair may be collapsed, and if not which face shows why.
ghost use Rattle.std.specs.Prelude.{◌≡◌, ◌<◌, true, IsTrue, IsFalse, MatchOption};
ghost use Rattle.pm_base.specs.Sides.{Stands};
ghost use Rattle.pm_runs.specs.Surfaces.{is_live as is_live_in};
ghost use Rattle.pm_runs.specs.Pairs.{Joined, HaveCommonThirds, ShareNoTriangle, AreNotAlone};
ghost use Rattle.pm_runs.specs.Pairs.{StayUpright};
ghost use Rattle.pm_shrink.specs.Shrinking.{net_at};
ghost use Rattle.pm_shrink.specs.Obstacles.{Strays, TellsTriangle, IsAlone, TurnsOver, Hinders};
ghost use Rattle.pm_shrink.specs.Obstacles.{VerdictTells};
ghost use Rattle.pm_shrink.specs.Walks.{HasStray, KeepsUpright, StayUprightAt, TurnsAt};

use crate::Shrink;
use pm_base::{FaceId, Point, Side};

/// Whether a pair may be collapsed.
#[derive(Clone, Copy, Debug, PartialEq, Eq)]
pub enum Verdict {
    /// It may.
    Legal,
    /// It may not, as long as the three corners of this face are there.
    Waits(FaceId),
    /// It may not, as long as its two vertices are there.
    Barred,
}

impl Shrink {
    /// Whether a pair of neighbours may be collapsed to the place, and if not how long that lasts.
    /// The time is at most the product of the numbers of faces at the two.
    pub fn verdict(&self, a: u32, b: u32, place: Point) -> Verdict
        requires a_live { is_live_in self.now.surface a ≡ true }
        requires b_live { is_live_in self.now.surface b ≡ true }
        requires joined { Joined (net_at self.now) a b }
        ensures { VerdictTells self.now.surface a b place result }
    {
        self.invariant();
        if let Some(side) = self.hindrance(a, b, place) {
            return Verdict::Waits(side.face());
        }
        if self.are_twice_on_border(a, b) {
            Verdict::Barred
        } else {
            Verdict::Legal
        }
    }

    // A side whose face shows why the pair may not be collapsed.
    fn hindrance(&self, a: u32, b: u32, place: Point) -> Option<Side>
        requires a_live { is_live_in self.now.surface a ≡ true }
        requires b_live { is_live_in self.now.surface b ≡ true }
        ensures { MatchOption result
            ((HaveCommonThirds (net_at self.now) a b × ShareNoTriangle (net_at self.now) a b)
            × (AreNotAlone (net_at self.now) a b × StayUpright self.now.surface a b place))
            (λ e. Hinders self.now.surface a b place e.0) }
    {
        // A face that turns over is asked for first: where many corners are at one of the two, most
        // pairs wait for one, and it is found before all neighbours have been compared.
        if let Some(side) = self.turned(a, b, place) {
            return Some(side);
        }
        if let Some(side) = self.stray(a, b) {
            return Some(side);
        }
        if let Some(side) = self.shared_triangle(a, b) {
            return Some(side);
        }
        self.lone_side(a, b)
    }

    // (i) A side that runs from a common neighbour that is no third corner.
    pub(crate) fn stray(&self, a: u32, b: u32) -> Option<Side>
        requires a_live { is_live_in self.now.surface a ≡ true }
        requires b_live { is_live_in self.now.surface b ≡ true }
        ensures { MatchOption result (HaveCommonThirds (net_at self.now) a b)
            (λ e. Stands (net_at self.now) e.0
            × Strays (net_at self.now) a b ((net_at self.now).from e.0)) }
    {
        for number in self.corners_at(a) {
            if let Some(side) = self.stray_at(a, b, Side(number)) {
                return Some(side);
            }
        }
        None
    }

    // Such a side in the face at a corner of a. A neighbour that comes before a in the face follows
    // it in the next face, so that it is asked about here only where there is none.
    fn stray_at(&self, a: u32, b: u32, corner: Side) -> Option<Side>
        requires a_live { is_live_in self.now.surface a ≡ true }
        requires b_live { is_live_in self.now.surface b ≡ true }
        requires corner { Stands (net_at self.now) corner.0 }
        requires at { (net_at self.now).from corner.0 ≡ a }
        ensures { MatchOption result (HasStray (net_at self.now) a b corner.0 → ⊥)
            (λ e. Stands (net_at self.now) e.0
            × Strays (net_at self.now) a b ((net_at self.now).from e.0)) }
    {
        if self.is_stray(a, b, self.to(corner)) {
            return Some(self.next_side(corner));
        }
        let before = self.prev_side(corner);
        if self.is_border_side(before) && self.is_stray(a, b, self.third(corner)) {
            return Some(before);
        }
        None
    }

    // (iii) If two faces hold both, with third corners v and w, and both a, v, w and b, v, w are
    // the corners of faces, a side of the first of these.
    pub(crate) fn shared_triangle(&self, a: u32, b: u32) -> Option<Side>
        requires a_live { is_live_in self.now.surface a ≡ true }
        requires b_live { is_live_in self.now.surface b ≡ true }
        ensures { MatchOption result (ShareNoTriangle (net_at self.now) a b)
            (λ e. Stands (net_at self.now) e.0 × TellsTriangle (net_at self.now) a b e.0) }
    {
        let (Some(left), Some(right)) = (self.side_to(a, b), self.side_to(b, a)) else {
            return None;
        };
        let (v, w) = (self.third(left), self.third(right));
        if !self.has_face(b, v, w) {
            return None;
        }
        self.face_with(a, v, w)
    }

    // (iii) The side of a face that holds both, where nothing stands across any of its sides.
    fn lone_side(&self, a: u32, b: u32) -> Option<Side>
        requires a_live { is_live_in self.now.surface a ≡ true }
        requires b_live { is_live_in self.now.surface b ≡ true }
        ensures { MatchOption result (AreNotAlone (net_at self.now) a b)
            (λ e. Stands (net_at self.now) e.0 × IsAlone (net_at self.now) a b e.0) }
    {
        if self.is_alone_along(a, b) {
            return self.side_to(a, b);
        }
        if self.is_alone_along(b, a) {
            return self.side_to(b, a);
        }
        None
    }

    // (iv) A corner of one of the two whose face doesn't hold the other, and turns over.
    fn turned(&self, a: u32, b: u32, place: Point) -> Option<Side>
        requires a_live { is_live_in self.now.surface a ≡ true }
        requires b_live { is_live_in self.now.surface b ≡ true }
        ensures { MatchOption result (StayUpright self.now.surface a b place)
            (λ e. TurnsOver self.now.surface a b place e.0) }
    {
        if let Some(corner) = self.turned_near(a, b, place) {
            return Some(corner);
        }
        if let Some(corner) = self.turned_at(a, b, place) {
            return Some(corner);
        }
        self.turned_at(b, a, place)
    }

    // A corner of p whose face doesn't hold q, and turns over when p moves to the place. Where p
    // stays at its place none does.
    pub(crate) fn turned_at(&self, p: u32, q: u32, place: Point) -> Option<Side>
        requires { is_live_in self.now.surface p ≡ true }
        ensures { MatchOption result (StayUprightAt self.now.surface p q place)
            (λ e. Stands (net_at self.now) e.0 × ((net_at self.now).from e.0 ≡ p)
            × TurnsAt self.now.surface q place e.0) }
    {
        if place == self.place(p) {
            return None;
        }
        for number in self.corners_at(p) {
            let corner = Side(number);
            if self.turns_over(corner, q, place) {
                return Some(corner);
            }
        }
        None
    }

    // Whether the face at a corner doesn't hold q, and turns over.
    pub(crate) fn turns_over(&self, corner: Side, q: u32, place: Point) -> bool
        requires { Stands (net_at self.now) corner.0 }
        ensures yes { IsTrue result → TurnsAt self.now.surface q place corner.0 }
        ensures no { IsFalse result → KeepsUpright self.now.surface q place corner.0 }
    {
        !self.has_other(corner, q) && !self.is_upright(corner, place)
    }
}
