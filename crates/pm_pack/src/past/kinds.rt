//! Of what kind the next word is.
ghost use Rattle.std.specs.Prelude.{◌≡◌, ◌≤◌};
ghost use Rattle.pm_pack.specs.Kinds.{width_class, place_kind};
ghost use Rattle.pm_pack.specs.Kinds.{coordinate_kind, corner_kind, is_outer, outer_place, turn};
ghost use Rattle.pm_pack.specs.Kinds.{most_leaves, face_kind, kind_of};

use super::Past;
use crate::grid::Axis;

impl Past {
    /// The kind of the next word.
    #[tactic(auto, unfolding(crate::specs::Kinds::kind_of))]
    pub(super) fn kind(&self) -> u32
        ensures { result ≡ kind_of self.now }
    {
        let field = self.spot.field;
        if field < 17 {
            0
        } else if field == 17 {
            width_class(self.split_node().width)
        } else if field > 17 && field < 21 || field > 21 && field < 25 {
            self.coordinate_kind(field)
        } else if field > 26 && field < 30 {
            self.corner_kind()
        } else if field == 30 {
            self.face_kind()
        } else {
            16 * width_class(self.split_node().width) + width_class(self.word(17))
        }
    }

    #[tactic(auto, unfolding(crate::specs::Kinds::coordinate_kind))]
    fn coordinate_kind(&self, field: u32) -> u32
        ensures { result ≡ coordinate_kind self.now field }
    {
        let (first, second) = (self.word(17), self.second_child().width);
        if field == 18 {
            place_kind(self.grid.x, first)
        } else if field == 19 {
            place_kind(self.grid.y, first)
        } else if field == 20 {
            place_kind(self.grid.z, first)
        } else if field == 22 {
            place_kind(self.grid.x, second)
        } else if field == 23 {
            place_kind(self.grid.y, second)
        } else {
            place_kind(self.grid.z, second)
        }
    }

    // How many leaves the children have, and how the faces on the edge are turned.
    #[tactic(auto, unfolding(crate::specs::Kinds::corner_kind))]
    pub(super) fn corner_kind(&self) -> u32
        ensures { result ≡ corner_kind self.now }
    {
        let (own, other) = (
            self.own_child().width.min(3),
            self.other_child().width.min(3),
        );
        let edge = self.edge();
        16 * (16 * own + other) + (edge % 3 * 3 + self.faces.beyond(edge) % 3)
    }

    fn is_outer(&self, leaf: u32) -> bool
        ensures { result ≡ is_outer self.now leaf }
    {
        !(self.first_child().has_leaf(leaf) || self.second_child().has_leaf(leaf))
    }

    // Which corner of the new face is under neither child.
    fn outer_place(&self) -> u32
        ensures value { result ≡ outer_place self.now }
        ensures most { result ≤ 2 }
    {
        if self.is_outer(self.word(27)) {
            0
        } else if self.is_outer(self.word(28)) {
            1
        } else {
            2
        }
    }

    // How a face is turned, and whether its input word is odd.
    fn turn(&self, side: u32) -> u32
        ensures value { result ≡ turn self.now side }
        ensures most { result ≤ 5 }
    {
        side % 3 * 2 + self.faces.input(side) % 2
    }

    // How many leaves the greater child has.
    fn most_leaves(&self) -> u32
        ensures { result ≡ most_leaves self.now }
    {
        self.own_child().width.max(self.other_child().width)
    }

    // How a new face and those on its edge are turned, and how many leaves the children have.
    #[tactic(auto, unfolding(crate::specs::Kinds::face_kind))]
    fn face_kind(&self) -> u32
        ensures { result ≡ face_kind self.now }
    {
        let edge = self.edge();
        let beyond = self.turn(self.faces.beyond(edge));
        4 * (36 * self.outer_place() + 6 * self.turn(edge) + beyond) + self.most_leaves().min(3)
    }
}

// Of a leaf on a grid, of another node there, and off a grid.
fn place_kind(axis: Axis, width: u32) -> u32
    ensures { result ≡ place_kind axis width }
{
    if !axis.is_grid() {
        1024
    } else if width == 1 {
        1
    } else {
        2
    }
}

// How many leaves, roughly.
#[tactic(auto, unfolding(crate::specs::Kinds::width_class))]
fn width_class(width: u32) -> u32
    ensures value { result ≡ width_class width }
    ensures most { result ≤ 11 }
{
    if width < 8 {
        width
    } else if width < 32 {
        8
    } else if width < 256 {
        9
    } else if width < 4096 {
        10
    } else {
        11
    }
}
