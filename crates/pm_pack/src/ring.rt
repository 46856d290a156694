//! What is known of faces, and the ring of sides round a node.
ghost use Rattle.std.specs.Prelude.{◌≡◌, min, OnOk, length};
ghost use Rattle.pm_pack.specs.Rings.{no_faces, next_side, previous_side, at_side, set_side};
ghost use Rattle.pm_pack.specs.Rings.{input_at, linked, with_face, spoke_at, turned, ring_of};
ghost use Rattle.pm_pack.specs.Rings.{shared, owned, owner, side_before, first_side};

use crate::OutOfMemory;
use arrayvec::ArrayVec;
use std::alloc::Global;
use std::marker::Model;

/// How many sides round a node are looked at, at most.
pub(crate) const MOST: usize = 12;

/// A side that starts at a node, the corner there, and the number of the node that it leads to. A
/// side goes by the number of words that name it, from 1 on, and 0 is none.
#[derive(Clone, Copy, Default)]
pub(crate) struct Spoke {
    pub(crate) side: u32,
    pub(crate) leaf: u32,
    pub(crate) node: u32,
}

/// By side the corner that it starts at, the number of the node over that, and the side beyond it,
/// and by face its input word.
#[derive(Drop)]
pub(crate) struct Faces {
    corners: Vec<u32>,
    nodes: Vec<u32>,
    beyond: Vec<u32>,
    inputs: Vec<u32>,
}

impl Model for Faces {
    ghost use Rattle.pm_pack.specs.Rings as rings;

    ghost Value = { rings.Faces };

    ghost view = { λ f. record {
      corners = f.corners.items;
      nodes = f.nodes.items;
      beyond = f.beyond.items;
      inputs = f.inputs.items;
    } };
}

impl Faces {
    pub(crate) fn new(alloc: Global) -> Faces
        ensures { result ≡ no_faces }
    {
        Faces {
            corners: Vec::new(alloc),
            nodes: Vec::new(alloc),
            beyond: Vec::new(alloc),
            inputs: Vec::new(alloc),
        }
    }

    /// Adds a face, with nothing beyond its sides.
    #[tactic(auto, unfolding(crate::specs::Rings::with_face))]
    pub(crate) fn add(
        &mut self,
        corners: [u32; 3],
        nodes: [u32; 3],
        input: u32,
    ) -> Result<(), OutOfMemory>
        ensures { OnOk result (self.new ≡ with_face self.old corners nodes input) }
    {
        self.corners.extend_from_slice(&corners)?;
        self.nodes.extend_from_slice(&nodes)?;
        self.beyond.extend_from_slice(&[0, 0, 0])?;
        self.inputs.push(input)?;
        Ok(())
    }

    /// Says that two sides stand beyond each other.
    #[tactic(auto, unfolding(crate::specs::Rings::linked))]
    pub(crate) fn link(&mut self, side: u32, other: u32)
        ensures { self.new ≡ linked self.old side other }
    {
        set_side(&mut self.beyond, side, other);
        set_side(&mut self.beyond, other, side);
    }

    /// How many sides there are.
    pub(crate) fn sides(&self) -> u32
        ensures { result ≡ min (length self.now.corners) 4294967295 }
    {
        self.corners.len().min(u32::MAX as usize) as u32
    }

    /// The corner at which a side starts.
    pub(crate) fn corner(&self, side: u32) -> u32
        ensures { result ≡ at_side self.now.corners side }
    {
        at_side(&self.corners, side)
    }

    /// The number of the node to which a side leads.
    pub(crate) fn far(&self, side: u32) -> u32
        ensures { result ≡ at_side self.now.nodes (next_side side) }
    {
        at_side(&self.nodes, next_side(side))
    }

    /// The side beyond this one.
    pub(crate) fn beyond(&self, side: u32) -> u32
        ensures { result ≡ at_side self.now.beyond side }
    {
        at_side(&self.beyond, side)
    }

    /// The input word of the side's face.
    pub(crate) fn input(&self, side: u32) -> u32
        ensures { result ≡ input_at self.now side }
    {
        let face = side.saturating_sub(1) as usize / 3;
        if side > 0 && face < self.inputs.len() {
            self.inputs[face]
        } else {
            0
        }
    }

    /// The side from which the ring of a node begins, by one of its sides.
    pub(crate) fn first_side(&self, start: u32) -> u32
        ensures { result ≡ first_side self.now start }
    {
        let mut side = start;
        for _turn in 0..MOST {
            let before = self.side_before(side);
            if before == 0 || before == start {
                return side;
            }
            side = before;
        }
        side
    }

    // The side before one round the node, none where it is at the border.
    fn side_before(&self, side: u32) -> u32
        ensures { result ≡ side_before self.now side }
    {
        let beyond = self.beyond(side);
        if beyond == 0 { 0 } else { next_side(beyond) }
    }

    /// The sides round the node at which this one starts.
    pub(crate) fn ring(&self, start: u32) -> ArrayVec<Spoke, MOST>
        ensures { result.items ≡ ring_of self.now start }
    {
        let mut ring = ArrayVec::new();
        let mut side = start;
        for _turn in 0..MOST {
            if side == 0 {
                return ring;
            }
            ring.push(self.spoke(side));
            side = self.turned(start, side);
        }
        ring
    }

    #[tactic(auto, unfolding(crate::specs::Rings::spoke_at))]
    fn spoke(&self, side: u32) -> Spoke
        ensures { result ≡ spoke_at self.now side }
    {
        Spoke {
            side,
            leaf: self.corner(side),
            node: self.far(side),
        }
    }

    // The next side round the node, none where the ring began from it.
    #[tactic(auto, unfolding(crate::specs::Rings::turned))]
    fn turned(&self, start: u32, side: u32) -> u32
        ensures { result ≡ turned self.now start side }
    {
        let next = self.beyond(previous_side(side));
        if next == start { 0 } else { next }
    }

    fn own(&mut self, side: u32, node: u32)
        ensures { self.new ≡ owned self.old side node }
    {
        set_side(&mut self.nodes, side, node);
    }

    /// Says that the sides of a ring start at `t` where their corners are before this leaf, and
    /// else at `u`.
    pub(crate) fn share(&mut self, ring: &[Spoke], end: u32, t: u32, u: u32)
        ensures { self.new ≡ shared self.old end t u ring.now }
    {
        for spoke in ring {
            self.own(spoke.side, owner(spoke.leaf, end, t, u));
        }
    }
}

// The one of two nodes under which a leaf is.
fn owner(leaf: u32, end: u32, t: u32, u: u32) -> u32
    ensures { result ≡ owner leaf end t u }
{
    if leaf < end { t } else { u }
}

/// The side after this one in its face.
pub(crate) fn next_side(side: u32) -> u32
    ensures { result ≡ next_side side }
{
    side.saturating_sub(1) / 3 * 3 + side % 3 + 1
}

/// The side before this one in its face.
pub(crate) fn previous_side(side: u32) -> u32
    ensures { result ≡ previous_side side }
{
    side.saturating_sub(1) / 3 * 3 + (side % 3 + 1) % 3 + 1
}

fn at_side(numbers: &[u32], side: u32) -> u32
    ensures { result ≡ at_side numbers.now side }
{
    if side > 0 && side as usize <= numbers.len() {
        numbers[side as usize - 1]
    } else {
        0
    }
}

fn set_side(numbers: &mut Vec<u32>, side: u32, n: u32)
    ensures { numbers.new.items ≡ set_side numbers.old.items side n }
{
    if side > 0 && side as usize <= numbers.len() {
        numbers[side as usize - 1] = n;
    }
}
