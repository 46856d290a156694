//! What the words before let guess of the next one.
ghost use Rattle.std.specs.Prelude.{◌≡◌};
ghost use Rattle.pm_pack.specs.Hints.{input_guess, mirrored, leveled, root_guess, first_guess};
ghost use Rattle.pm_pack.specs.Hints.{last_input, second_guess, corner_guess, face_guess};
ghost use Rattle.pm_pack.specs.Hints.{word_guess, mirrored_x, mirrored_y, mirrored_z};
ghost use Rattle.pm_pack.specs.Hints.{input_beside, beside};
ghost use Rattle.pm_pack.specs.Planes.{node};

use super::{Node, Past, node_at};
use crate::plane::{normal, way_to};
use crate::ring::Spoke;
use crate::word::{ahead, moved_ahead};

impl Past {
    #[tactic(auto, unfolding(crate::specs::Hints::word_guess))]
    pub(super) fn word_guess(&self) -> u32
        ensures { result ≡ word_guess self.now }
    {
        let field = self.spot.field;
        if field < 16 {
            self.root_guess(field)
        } else if field < 22 {
            self.first_guess(field)
        } else if field < 27 {
            self.second_guess(field)
        } else {
            self.face_guess(field)
        }
    }

    #[tactic(auto, unfolding(crate::specs::Hints::root_guess))]
    fn root_guess(&self, field: u32) -> u32
        ensures { result ≡ root_guess self.now field }
    {
        if field != 11 {
            self.word(field)
        } else if self.word(10) == 1 {
            self.word(11).saturating_add(1)
        } else {
            0
        }
    }

    #[tactic(auto, unfolding(crate::specs::Hints::first_guess))]
    fn first_guess(&self, field: u32) -> u32
        ensures { result ≡ first_guess self.now field }
    {
        let split = self.split_node();
        if field == 16 {
            self.count()
        } else if field == 17 {
            split.width
        } else if field == 18 {
            self.grid.x.near(self.word(17), split.x)
        } else if field == 19 {
            self.grid.y.near(self.word(17), split.y)
        } else if field == 20 {
            let level = self.leveled(self.word(18), self.word(19), split.z);
            self.grid.z.near(self.word(17), level)
        } else {
            self.input_guess(self.first_child(), self.beside(21))
        }
    }

    #[tactic(auto, unfolding(crate::specs::Hints::second_guess))]
    fn second_guess(&self, field: u32) -> u32
        ensures { result ≡ second_guess self.now field }
    {
        let child = self.second_child();
        if field == 22 {
            self.grid.x.near(child.width, self.mirrored_x())
        } else if field == 23 {
            self.grid.y.near(child.width, self.mirrored_y())
        } else if field == 24 {
            let level = self.leveled(self.word(22), self.word(23), self.mirrored_z());
            self.grid.z.near(child.width, level)
        } else if field == 25 {
            self.input_guess(child, self.last_input())
        } else {
            3
        }
    }

    // The mirrored coordinates of t.
    fn mirrored_x(&self) -> u32
        ensures { result ≡ mirrored_x self.now }
    {
        mirrored(self.split_node().x, self.word(18))
    }

    fn mirrored_y(&self) -> u32
        ensures { result ≡ mirrored_y self.now }
    {
        mirrored(self.split_node().y, self.word(19))
    }

    fn mirrored_z(&self) -> u32
        ensures { result ≡ mirrored_z self.now }
    {
        mirrored(self.split_node().z, self.word(20))
    }

    // The height by the plane round the split node, and another word where that is steep.
    #[tactic(auto, unfolding(crate::specs::Hints::leveled))]
    fn leveled(&self, x: u32, y: u32, other: u32) -> u32
        ensures { result ≡ leveled self.now x y other }
    {
        let split = self.split_node();
        let normal = normal(&self.nodes, split, self.ring.as_slice());
        normal.level(split, way_to(split, at_place(x, y)), other)
    }

    #[tactic(auto, unfolding(crate::specs::Hints::face_guess))]
    fn face_guess(&self, field: u32) -> u32
        ensures { result ≡ face_guess self.now field }
    {
        if field == 27 {
            self.split_node().first
        } else if field < 30 {
            self.corner_guess(self.word(field.saturating_sub(1)))
        } else if field == 30 {
            self.input_after(self.edge())
        } else if field == 31 {
            self.faces.beyond(self.edge())
        } else if self.word(31) == 0 {
            self.edge()
        } else {
            self.faces.beyond(self.word(31))
        }
    }

    // A corner after another one.
    #[tactic(auto, unfolding(crate::specs::Hints::corner_guess))]
    fn corner_guess(&self, last: u32) -> u32
        ensures { result ≡ corner_guess self.now last }
    {
        if self.own_child().has_leaf(last) {
            self.other_child().first
        } else if self.other_child().has_leaf(last) {
            self.split_node().first
        } else {
            self.own_child().first
        }
    }

    // The input word that u's follows.
    fn last_input(&self) -> u32
        ensures { result ≡ last_input self.now }
    {
        if self.word(17) == 1 {
            self.word(21)
        } else {
            self.beside(25)
        }
    }

    // The input word of a leaf beside the split node, and the last word of a field where none is.
    fn beside(&self, field: u32) -> u32
        ensures { result ≡ beside self.now field }
    {
        input_beside(&self.nodes, self.ring.as_slice(), self.word(field))
    }

    // An input word: 0 for a node of more than one leaf, else by the grid, and where there is none
    // the one after that of a leaf beside it.
    #[tactic(auto, unfolding(crate::specs::Hints::input_guess))]
    fn input_guess(&self, node: Node, last: u32) -> u32
        ensures { result ≡ input_guess self.now node last }
    {
        if !node.is_leaf() {
            0
        } else if self.grid.is_grid() {
            self.grid.input_by(node)
        } else {
            last.saturating_add(1)
        }
    }
}

// A node at these coordinates.
fn at_place(x: u32, y: u32) -> Node
    ensures { result ≡ node x y 0 0 0 0 }
{
    Node {
        x,
        y,
        z: 0,
        first: 0,
        width: 0,
        input: 0,
    }
}

fn mirrored(over: u32, from: u32) -> u32
    ensures { result ≡ mirrored over from }
{
    moved_ahead(over, ahead(from, over))
}

// The input word of the first leaf to which the sides of a ring lead, and another word where none
// does.
fn input_beside(nodes: &[Node], ring: &[Spoke], other: u32) -> u32
    ensures { result ≡ input_beside nodes.now ring.now other }
{
    for spoke in ring {
        let node = node_at(nodes, spoke.node as usize);
        if node.is_leaf() {
            return node.input;
        }
    }
    other
}
