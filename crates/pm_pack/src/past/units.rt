//! What the end of a unit makes known.
ghost use Rattle.std.specs.Prelude.{◌≡◌, ◌≤◌, OnOk, get_or, length};
ghost use Rattle.pm_pack.specs.Grids.{capped};
ghost use Rattle.pm_pack.specs.Pasts.{first_child, is_left};
ghost use Rattle.pm_pack.specs.Units.{root_ended, base_ended, split_ended, head_ended};
ghost use Rattle.pm_pack.specs.Units.{face_ended, unit_ended, inner_corner, inner_made, over};
ghost use Rattle.pm_pack.specs.Units.{own_place, other_place, faces_made, starts_made, is_leaf};
ghost use Rattle.pm_pack.specs.Units.{grid_paired, grid_made, faces_shared};

use super::{Node, Past, set_at, word_at};
use crate::OutOfMemory;
use crate::grid::Grid;
use crate::ring::{next_side, previous_side};

impl Past {
    // After a word that is this field.
    #[tactic(auto, unfolding(crate::specs::Units::unit_ended))]
    pub(super) fn end_unit(&mut self, field: u32) -> Result<(), OutOfMemory>
        ensures { OnOk result (self.new ≡ unit_ended field self.old) }
    {
        if field == 11 {
            self.end_root()
        } else if field == 15 {
            self.end_base()
        } else if field == 16 {
            self.end_split();
            Ok(())
        } else if field == 26 {
            self.end_head()
        } else if field == 32 {
            self.end_face()
        } else {
            Ok(())
        }
    }

    #[tactic(auto, unfolding(crate::specs::Units::root_ended))]
    fn end_root(&mut self) -> Result<(), OutOfMemory>
        ensures { OnOk result (self.new ≡ root_ended self.old) }
    {
        let root = self.root_made();
        self.nodes.push(root)?;
        self.starts.push(0)?;
        Ok(())
    }

    #[tactic(auto, unfolding(crate::specs::Units::base_ended))]
    fn end_base(&mut self) -> Result<(), OutOfMemory>
        ensures { OnOk result (self.new ≡ base_ended self.old) }
    {
        let corners = [self.word(12), self.word(13), self.word(14)];
        let input = self.word(15);
        self.faces.add(corners, [0, 0, 0], input)
    }

    // After the node that a record splits.
    #[tactic(auto, unfolding(crate::specs::Units::split_ended))]
    fn end_split(&mut self)
        ensures { self.new ≡ split_ended self.old }
    {
        let start = word_at(&self.starts, self.word(16));
        self.ring = self.faces.ring(self.faces.first_side(start));
    }

    #[tactic(auto, unfolding(crate::specs::Units::head_ended, crate::specs::Units::faces_shared))]
    fn end_head(&mut self) -> Result<(), OutOfMemory>
        ensures { OnOk result (self.new ≡ head_ended self.old) }
    {
        let children = [self.first_child(), self.second_child()];
        let t = self.count();
        self.grid = self.grid_made();
        let end = self.first_child().end();
        (self.faces).share(self.ring.as_slice(), end, t, t.saturating_add(1));
        self.inner = 0;
        self.nodes.extend_from_slice(&children)?;
        self.starts.extend_from_slice(&[0, 0])?;
        Ok(())
    }

    // How many nodes there are.
    pub(super) fn count(&self) -> u32
        ensures { result ≡ capped (length self.now.nodes) }
    {
        self.nodes.len().min(u32::MAX as usize) as u32
    }

    // The grid after the children where both are leaves.
    #[tactic(auto, unfolding(crate::specs::Units::grid_paired))]
    fn grid_paired(&self) -> Grid
        ensures { result ≡ grid_paired self.now }
    {
        let (t, u) = (self.first_child(), self.second_child());
        if t.is_leaf() && u.is_leaf() {
            self.grid.with_pair(t, u, self.word(21), self.word(25))
        } else {
            self.grid
        }
    }

    // The grid after the last leaf of the children.
    #[tactic(auto, unfolding(crate::specs::Units::grid_made))]
    fn grid_made(&self) -> Grid
        ensures { result ≡ grid_made self.now }
    {
        let (t, u) = (self.first_child(), self.second_child());
        let grid = self.grid_paired();
        if u.is_leaf() {
            grid.with_leaf(u, self.word(25))
        } else if t.is_leaf() {
            grid.with_leaf(t, self.word(21))
        } else {
            grid
        }
    }

    #[tactic(auto, unfolding(crate::specs::Units::face_ended, crate::specs::Units::faces_made, crate::specs::Units::starts_made))]
    fn end_face(&mut self) -> Result<(), OutOfMemory>
        ensures { OnOk result (self.new ≡ face_ended self.old) }
    {
        let inner = self.inner_made();
        self.set_starts(inner);
        self.add_face(inner)?;
        self.inner = inner;
        Ok(())
    }

    // Adds the new face, with what stands beyond its sides.
    #[tactic(auto, unfolding(crate::specs::Units::faces_made))]
    fn add_face(&mut self, inner: u32) -> Result<(), OutOfMemory>
        requires { inner ≡ inner_made self.old }
        ensures { OnOk result (self.new ≡ record {
          spot = self.old.spot;
          words = self.old.words;
          nodes = self.old.nodes;
          faces = faces_made self.old;
          starts = self.old.starts;
          ring = self.old.ring;
          inner = self.old.inner;
          grid = self.old.grid;
        }) }
    {
        let corners = [self.word(27), self.word(28), self.word(29)];
        let (input, second, third) = (self.word(30), self.word(31), self.word(32));
        let nodes = [
            self.over(corners[0]),
            self.over(corners[1]),
            self.over(corners[2]),
        ];
        self.faces.add(corners, nodes, input)?;
        self.faces.link(next_side(inner), second);
        self.faces.link(previous_side(inner), third);
        self.faces.link(inner, self.inner);
        Ok(())
    }

    // Sides of the new face start at both children.
    #[tactic(auto, unfolding(crate::specs::Units::starts_made))]
    fn set_starts(&mut self, inner: u32)
        requires { inner ≡ inner_made self.old }
        ensures { self.new ≡ record {
          spot = self.old.spot;
          words = self.old.words;
          nodes = self.old.nodes;
          faces = self.old.faces;
          starts = starts_made self.old;
          ring = self.old.ring;
          inner = self.old.inner;
          grid = self.old.grid;
        } }
    {
        let left = self.is_left();
        let own = self.nodes.len().saturating_sub(if left { 2 } else { 1 });
        let other = self.nodes.len().saturating_sub(if left { 1 } else { 2 });
        set_at(&mut self.starts, own, inner);
        set_at(&mut self.starts, other, next_side(inner));
    }

    // The node over a corner of the new face.
    fn over(&self, leaf: u32) -> u32
        ensures { result ≡ over self.now leaf }
    {
        let count = self.nodes.len();
        let place = if self.first_child().has_leaf(leaf) {
            count.saturating_sub(2)
        } else if self.second_child().has_leaf(leaf) {
            count.saturating_sub(1)
        } else {
            return self.faces.far(self.edge());
        };
        place.min(u32::MAX as usize) as u32
    }

    // The corner from which the inner side starts.
    fn inner_corner(&self) -> u32
        ensures value { result ≡ inner_corner self.now }
        ensures few { result ≤ 2 }
    {
        let own = self.own_child();
        if own.has_leaf(self.word(27)) {
            0
        } else if own.has_leaf(self.word(28)) {
            1
        } else if own.has_leaf(self.word(29)) {
            2
        } else {
            0
        }
    }

    fn inner_made(&self) -> u32
        ensures { result ≡ inner_made self.now }
    {
        self.faces.sides().saturating_add(self.inner_corner() + 1)
    }
}
