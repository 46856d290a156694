//! What was seen of a stream text, and what it lets guess of the next word.
ghost use Rattle.std.specs.Prelude.{◌≡◌, ◌==◌, ◌-◌, ◌≤◌, IfOk, get_or, slice_set};
ghost use Rattle.pm_pack.specs.Planes.{node_at};
ghost use Rattle.pm_pack.specs.Pasts.{end_of, has_leaf, root_made, first_child, second_child};
ghost use Rattle.pm_pack.specs.Pasts.{split_node, word_at};
ghost use Rattle.pm_pack.specs.Units.{word_kept, seen_after};
ghost use Rattle.pm_pack.specs.Hints.{guess_of};
ghost use Rattle.pm_pack.specs.Texts.{nothing_seen};

mod corners;
mod details;
mod guessing;
mod kinds;
mod units;

use crate::OutOfMemory;
use crate::fields::Spot;
use crate::grid::Grid;
use crate::ring::{Faces, MOST, Spoke};
use crate::word::Guess;
use arrayvec::ArrayVec;
use std::alloc::Global;
use std::marker::Model;

// How many fields there are.
const FIELDS: usize = 33;

/// The place of a node as words, its first leaf, how many it has, and the input word of a leaf.
#[derive(Clone, Copy)]
pub(crate) struct Node {
    pub(crate) x: u32,
    pub(crate) y: u32,
    pub(crate) z: u32,
    pub(crate) first: u32,
    pub(crate) width: u32,
    pub(crate) input: u32,
}

const NO_NODE: Node = Node {
    x: 0,
    y: 0,
    z: 0,
    first: 0,
    width: 0,
    input: 0,
};

impl Node {
    // The leaf after those of the node.
    fn end(self) -> u32
        ensures { result ≡ end_of self }
    {
        self.first.saturating_add(self.width)
    }

    fn is_leaf(self) -> bool
        ensures { result ≡ (self.width == 1) }
    {
        self.width == 1
    }

    fn has_leaf(self, leaf: u32) -> bool
        ensures { result ≡ has_leaf self leaf }
    {
        self.first <= leaf && leaf < self.end()
    }
}

/// Where the text is, by field the last word of that field, the nodes and the faces so far, by node
/// a side that starts at it, the sides round the node that the record splits, the side of the
/// record's left face on which its right face stands, and the grid of leaves.
#[derive(Drop)]
pub(crate) struct Past {
    spot: Spot,
    words: Vec<u32>,
    nodes: Vec<Node>,
    faces: Faces,
    starts: Vec<u32>,
    ring: ArrayVec<Spoke, MOST>,
    inner: u32,
    grid: Grid,
}

impl Model for Past {
    ghost use Rattle.pm_pack.specs.Pasts.{Seen};

    ghost Value = { Seen };

    ghost view = { λ p. record {
      spot = p.spot;
      words = p.words.items;
      nodes = p.nodes.items;
      faces = p.faces;
      starts = p.starts.items;
      ring = p.ring.items;
      inner = p.inner;
      grid = p.grid;
    } };
}

impl Past {
    /// Nothing was seen.
    #[tactic(auto, unfolding(crate::specs::Texts::nothing_seen))]
    pub(crate) fn new(alloc: Global) -> Result<Past, OutOfMemory>
        ensures { IfOk result (λ p. p ≡ nothing_seen) }
    {
        Ok(Past {
            spot: Spot::first(),
            words: vec![in alloc; 0; FIELDS]?,
            nodes: Vec::new(alloc),
            faces: Faces::new(alloc),
            starts: Vec::new(alloc),
            ring: ArrayVec::new(),
            inner: 0,
            grid: Grid::new(),
        })
    }

    /// The last guess of the next word.
    #[tactic(auto, unfolding(crate::specs::Hints::guess_of))]
    pub(crate) fn guess(&self) -> Guess
        ensures value { result ≡ guess_of self.now }
        ensures set { result.set ≤ 99 }
    {
        Guess {
            word: self.word_guess(),
            set: 3 * self.spot.field.min(33),
            kind: self.kind(),
            detail: self.detail(),
        }
    }

    /// Takes the next word. O(1) time but for the growth of the nodes and the faces.
    #[tactic(auto, unfolding(crate::specs::Units::seen_after))]
    pub(crate) fn take(&mut self, word: u32) -> Result<(), OutOfMemory>
        ensures { IfOk result (λ _. self.new ≡ seen_after self.old word) }
    {
        let field = self.spot.field;
        self.keep(word);
        self.end_unit(field)
    }

    fn keep(&mut self, word: u32)
        ensures { self.new ≡ word_kept self.old word }
    {
        set_at(&mut self.words, self.spot.field as usize, word);
        self.spot = self.spot.after(word);
    }

    // The last word that is this field.
    fn word(&self, field: u32) -> u32
        ensures { result ≡ word_at self.now field }
    {
        word_at(&self.words, field)
    }

    // The node that the record splits.
    fn split_node(&self) -> Node
        ensures { result ≡ split_node self.now }
    {
        node_at(&self.nodes, self.word(16) as usize)
    }

    fn root_made(&self) -> Node
        ensures { result ≡ root_made self.now }
    {
        let last = node_at(&self.nodes, self.nodes.len().saturating_sub(1));
        Node {
            x: self.word(7),
            y: self.word(8),
            z: self.word(9),
            first: last.end(),
            width: self.word(10),
            input: self.word(11),
        }
    }

    fn first_child(&self) -> Node
        ensures { result ≡ first_child self.now }
    {
        Node {
            x: self.word(18),
            y: self.word(19),
            z: self.word(20),
            first: self.split_node().first,
            width: self.word(17),
            input: self.word(21),
        }
    }

    fn second_child(&self) -> Node
        ensures { result ≡ second_child self.now }
    {
        Node {
            x: self.word(22),
            y: self.word(23),
            z: self.word(24),
            first: self.first_child().end(),
            width: self.second_width(),
            input: self.word(25),
        }
    }

    fn second_width(&self) -> u32
        ensures { result ≡ (split_node self.now).width - word_at self.now 17 }
    {
        self.split_node().width.saturating_sub(self.word(17))
    }
}

fn word_at(words: &[u32], field: u32) -> u32
    ensures { result ≡ get_or words.now field 0 }
{
    if (field as usize) < words.len() {
        words[field as usize]
    } else {
        0
    }
}

/// The node with this number.
pub(crate) fn node_at(nodes: &[Node], i: usize) -> Node
    ensures { result ≡ node_at nodes.now i }
{
    if i < nodes.len() { nodes[i] } else { NO_NODE }
}

fn set_at(numbers: &mut Vec<u32>, i: usize, n: u32)
    ensures { numbers.new.items ≡ slice_set numbers.old.items i n }
{
    if i < numbers.len() {
        numbers[i] = n;
    }
}
