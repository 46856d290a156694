//! Where a new face stands: the edge, and the corners of the faces on it.
ghost use Rattle.std.specs.Prelude.{◌≡◌};
ghost use Rattle.pm_pack.specs.Pasts.{is_left, own_child, other_child, is_parting, edge_in};
ghost use Rattle.pm_pack.specs.Pasts.{edge};
ghost use Rattle.pm_pack.specs.Hints.{own_corner, other_corner, outer_corners, corner_firsts};
ghost use Rattle.pm_pack.specs.Hints.{split_firsts, input_after, firsts_of};

use super::{Node, Past};
use crate::ring::{Faces, Spoke, next_side};
use arrayvec::ArrayVec;

/// Words that may be the next one.
pub(crate) type Words = ArrayVec<u32, 4>;

impl Past {
    // Whether the new face is the record's left one.
    pub(super) fn is_left(&self) -> bool
        ensures { result ≡ is_left self.now }
    {
        self.word(26) != 2 && self.inner == 0
    }

    // The child under which the new face's inner side starts.
    pub(super) fn own_child(&self) -> Node
        ensures { result ≡ own_child self.now }
    {
        if self.is_left() {
            self.first_child()
        } else {
            self.second_child()
        }
    }

    pub(super) fn other_child(&self) -> Node
        ensures { result ≡ other_child self.now }
    {
        if self.is_left() {
            self.second_child()
        } else {
            self.first_child()
        }
    }

    // The side of the ring on whose edge the new face stands, 0 where there is none.
    pub(super) fn edge(&self) -> u32
        ensures { result ≡ edge self.now }
    {
        let (own, other) = (self.own_child(), self.other_child());
        edge_in(&self.faces, own, other, self.ring.as_slice())
    }

    // The corner under the own child on this edge, and that under the other one.
    #[tactic(auto, unfolding(crate::specs::Hints::own_corner))]
    fn own_corner(&self, side: u32) -> u32
        ensures { result ≡ own_corner self.now side }
    {
        if side == 0 {
            self.own_child().first
        } else {
            self.faces.corner(side)
        }
    }

    #[tactic(auto, unfolding(crate::specs::Hints::other_corner))]
    fn other_corner(&self, side: u32) -> u32
        ensures { result ≡ other_corner self.now side }
    {
        let beyond = self.faces.beyond(side);
        if beyond == 0 {
            self.other_child().first
        } else {
            self.faces.corner(next_side(beyond))
        }
    }

    /// What is guessed of the next word before the last guess.
    #[tactic(auto, unfolding(crate::specs::Hints::firsts_of))]
    pub(crate) fn firsts(&self) -> Words
        ensures { result.items ≡ firsts_of self.now }
    {
        let field = self.spot.field;
        let mut firsts = Words::new();
        if field == 16 {
            return split_firsts(self.word(16));
        } else if field == 27 {
            let edge = self.edge();
            firsts.push(self.own_corner(edge));
            firsts.push(self.other_corner(edge));
            firsts.push(self.faces.corner(next_side(edge)));
            firsts.push(self.faces.corner(self.faces.beyond(edge)));
        } else if field == 28 || field == 29 {
            return self.corner_firsts(self.word(field - 1));
        } else if field == 30 {
            firsts.push(self.input_after(self.faces.beyond(self.edge())));
        }
        firsts
    }

    // What is guessed of a corner, by the one before it.
    #[tactic(auto, unfolding(crate::specs::Hints::corner_firsts))]
    fn corner_firsts(&self, last: u32) -> Words
        ensures { result.items ≡ corner_firsts self.now last }
    {
        let edge = self.edge();
        let mut firsts = Words::new();
        if self.own_child().has_leaf(last) {
            firsts.push(self.other_corner(edge));
        } else if self.other_child().has_leaf(last) {
            firsts.push(self.faces.corner(next_side(edge)));
            firsts.push(self.faces.corner(self.faces.beyond(edge)));
        } else {
            firsts.push(self.own_corner(edge));
        }
        firsts
    }

    // One more than the input word of the side's face.
    pub(super) fn input_after(&self, side: u32) -> u32
        ensures { result ≡ input_after self.now side }
    {
        self.faces.input(side).saturating_add(1)
    }
}

// A new face of these children stands on this side's edge.
#[tactic(auto, unfolding(crate::specs::Pasts::is_parting))]
fn is_parting(faces: &Faces, own: Node, other: Node, spoke: Spoke) -> bool
    ensures { result ≡ is_parting faces.now own other spoke }
{
    let beyond = faces.beyond(spoke.side);
    own.has_leaf(spoke.leaf) && (beyond == 0 || other.has_leaf(faces.corner(next_side(beyond))))
}

// The side of the first such edge of a ring.
fn edge_in(faces: &Faces, own: Node, other: Node, ring: &[Spoke]) -> u32
    ensures { result ≡ edge_in faces.now own other ring.now }
{
    for spoke in ring {
        if is_parting(faces, own, other, *spoke) {
            return spoke.side;
        }
    }
    0
}

// What is guessed of the node that a record splits.
fn split_firsts(last: u32) -> Words
    ensures { result.items ≡ split_firsts last }
{
    let mut firsts = Words::new();
    firsts.push(last.saturating_add(2));
    firsts.push(last.saturating_sub(1));
    firsts.push(last.saturating_add(3));
    firsts
}
