//! The tables of a surface that shrinks, and what a collapse writes to them.
ghost use Rattle.std.specs.Prelude.{◌≡◌, ◌+◌, ◌*◌, ◌<◌, ◌≤◌, length, IfSome};
ghost use Rattle.pm_base.specs.declared.limits.TheConstants.{MOST_FACES, MOST_NODES, MOST_SIDES};
ghost use Rattle.pm_links.specs.Lists.{list_of, IsSound};
ghost use Rattle.pm_runs.specs.Runs.{IsStep};
ghost use Rattle.pm_shrink.specs.Tables.{tables_of, surface_in, surface_past, IsShrink};
ghost use Rattle.pm_shrink.specs.Writes.{with_corners, with_across, unlinked, without_gone};
ghost use Rattle.pm_shrink.specs.Writes.{with_merged, with_next, AreHeld, CanDrop, CanMerge};
ghost use Rattle.pm_shrink.specs.Writes.{HavePlaces};

use crate::faces::FaceTable;
use pm_base::{Collapse, FaceId, Gone, Point, Side};
use pm_links::Links;

/// The faces, corners and places of a surface that shrinks.
#[derive(Drop)]
pub(crate) struct Tables {
    // Each face, and what stands across its sides; of the sides of a dropped face that says
    // nothing.
    pub(crate) faces: FaceTable,
    // Which corners are at each vertex, in faces that are there.
    pub(crate) corners: Links,
    // The place of each live vertex; none where it was merged into another, or isn't made yet.
    pub(crate) places: Vec<Option<Point>>,
    // The number of the next vertex.
    pub(crate) next: u32,
    // How many faces are there.
    pub(crate) face_count: u32,
}

impl Tables {
    /// The collapse of a log's entry that may come next: both ends become the next vertex, and what
    /// goes is dropped.
    pub(crate) fn collapse(&mut self, entry: &Collapse)
        requires kept { IsShrink (tables_of self.old) }
        requires step { IsStep (surface_in (tables_of self.old)) entry.now }
        ensures kept { IsShrink (tables_of self.new) }
        ensures surface { surface_in (tables_of self.new)
            ≡ surface_past (tables_of self.old) entry.now }
    {
        self.drop_face(entry.left);
        self.drop_face(entry.right);
        self.merge_corners(entry.t, entry.s);
        self.merge_corners(entry.u, entry.s);
        self.merge_places(entry.t, entry.u, entry.place);
    }

    // Drops a face, and links what stood across its two other sides.
    fn drop_face(&mut self, gone: Option<Gone>)
        requires { CanDrop (tables_of self.old) gone }
        ensures { tables_of self.new ≡ without_gone (tables_of self.old) gone }
    {
        if let Some(gone) = gone {
            unlink_face(&mut self.corners, gone.face);
            set_across(&mut self.faces, gone.first, gone.second);
            set_across(&mut self.faces, gone.second, gone.first);
            self.faces.drop_face(gone.face);
            self.face_count -= 1;
        }
    }

    // Gives the corners of `from` to `to`.
    fn merge_corners(&mut self, from: u32, to: u32)
        requires { CanMerge (tables_of self.old) from to }
        ensures value { tables_of self.new ≡ with_merged (tables_of self.old) from to }
        ensures sound { IsSound self.new.corners }
    {
        rename(&mut self.faces, &self.corners, from, to);
        self.corners.move_all(from, to);
    }

    // Puts the next vertex at a place, and drops a and b.
    fn merge_places(&mut self, a: u32, b: u32, place: Point)
        requires { HavePlaces (tables_of self.old) a b }
        ensures { tables_of self.new ≡ with_next (tables_of self.old) a b place }
    {
        self.places[a as usize] = None;
        self.places[b as usize] = None;
        self.places[self.next as usize] = Some(place);
        self.next += 1;
    }
}

// Puts the vertex `to` at each corner in the list of `from`.
fn rename(faces: &mut FaceTable, corners: &Links, from: u32, to: u32)
    requires from_in { from < length corners.now.lists }
    requires small { to < MOST_NODES }
    requires corners { corners.now.items ≤ 3 * length faces.old.faces }
    ensures faces { faces.new.faces ≡ with_corners faces.old.faces (list_of corners.now from) to }
    ensures across { faces.new.across ≡ faces.old.across }
{
    for number in corners.items(from) {
        faces.set_corner(Side(number), to);
    }
}

// Takes the three corners of a face out of their lists.
fn unlink_face(corners: &mut Links, face: FaceId)
    requires small { face.0 < MOST_FACES }
    requires held { AreHeld corners.old face.0 }
    ensures { corners.new ≡ unlinked corners.old face.0 }
{
    corners.unlink(face.side(0).0);
    corners.unlink(face.side(1).0);
    corners.unlink(face.side(2).0);
}

// Puts `to` across a side, if there is one.
fn set_across(faces: &mut FaceTable, side: Option<Side>, to: Option<Side>)
    requires there { IfSome side (λ s. s.0 < length faces.old.across) }
    requires small { IfSome to (λ s. s.0 < MOST_SIDES) }
    ensures faces { faces.new.faces ≡ faces.old.faces }
    ensures across { faces.new.across ≡ with_across faces.old.across side to }
{
    if let Some(side) = side {
        faces.set_across(side, to);
    }
}
