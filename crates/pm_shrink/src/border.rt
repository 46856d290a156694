//! What is known of the border without a walk over corners: for each vertex a border side that runs
//! from it, where one was noted and is still one.
ghost use Rattle.std.specs.Prelude.{◌≡◌, IfSome, IsTrue};
ghost use Rattle.pm_base.specs.Sides.{to as to_of, Stands, IsBorder};
ghost use Rattle.pm_shrink.specs.Shrinking.{net_at};
ghost use Rattle.pm_shrink.specs.Obstacles.{IsBarred};

use crate::Shrink;
use pm_base::{Gone, Side};

impl Shrink {
    /// Whether two faces hold the ends of a side, and both ends are known to be on the border, so
    /// that they may not be collapsed as long as they are there. O(1).
    pub fn is_barred(&self, side: Side) -> bool
        requires { Stands (net_at self.now) side.0 }
        ensures { IsTrue result
            → IsBarred (net_at self.now) ((net_at self.now).from side.0)
            (to_of (net_at self.now) side.0) }
    {
        if self.is_border_side(side) {
            return false;
        }
        self.has_rim(self.from(side)) && self.has_rim(self.to(side))
    }

    // Whether a border side that runs from a vertex is known.
    fn has_rim(&self, v: u32) -> bool
        ensures { IsTrue result → IsBorder (net_at self.now) v }
    {
        match self.rims.get(v) {
            None => false,
            Some(side) => self.is_corner_of(side, v) && self.is_border_side(side),
        }
    }

    // Whether a number, which may be any, is that of a corner at a vertex.
    fn is_corner_of(&self, corner: Side, v: u32) -> bool
        ensures { IsTrue result → Stands (net_at self.now) corner.0
            × ((net_at self.now).from corner.0 ≡ v) }
    {
        match self.vertex_of(corner) {
            None => false,
            Some(w) => w == v,
        }
    }

    // The vertex at a corner, if the number, which may be any, is that of one.
    fn vertex_of(&self, corner: Side) -> Option<u32>
        ensures { IfSome result (λ v. Stands (net_at self.now) corner.0
            × ((net_at self.now).from corner.0 ≡ v)) }
    {
        if corner.0 as usize >= 3 * self.tables.faces.len() {
            return None;
        }
        self.tables.corners.head_of(corner.0)
    }

    // Notes a side for the vertex that it runs from, if it is a border side.
    fn note_rim(&mut self, side: Option<Side>)
        ensures { self.new ≡ self.old }
    {
        self.invariant();
        let Some(side) = side else {
            return;
        };
        let Some(v) = self.vertex_of(side) else {
            return;
        };
        if self.is_border_side(side) {
            self.rims.note(v, side);
        }
    }

    // Notes all border sides.
    pub(crate) fn note_all(&mut self)
        ensures { self.new ≡ self.old }
    {
        let sides = 3 * self.tables.faces.len() as u32;
        for number in 0..sides {
            self.note_rim(Some(Side(number)));
        }
    }

    // Notes what stood across the other sides of a dropped face.
    fn note_beside(&mut self, gone: Option<Gone>)
        ensures { self.new ≡ self.old }
    {
        if let Some(gone) = gone {
            self.note_rim(gone.first);
            self.note_rim(gone.second);
        }
    }

    // Notes border sides after a collapse of a and b: what was noted for these runs from the new
    // vertex now, and what stood across the other sides of the dropped faces may be on the border.
    pub(crate) fn note_merged(&mut self, a: u32, b: u32, left: Option<Gone>, right: Option<Gone>)
        ensures { self.new ≡ self.old }
    {
        let (first, second) = (self.rims.get(a), self.rims.get(b));
        self.note_rim(first);
        self.note_rim(second);
        self.note_beside(left);
        self.note_beside(right);
    }
}
