//! The faces of a surface, each beside what stands across its sides.
ghost use Rattle.std.specs.Prelude.{◌≡◌, ◌+◌, ◌*◌, ◌<◌, ◌≤◌, ◌≢◌, ℕ, None, Some, length, map};
ghost use Rattle.std.specs.Prelude.{slice_index_or, slice_set, is_some, true, All, IfOk, IfSome};
ghost use Rattle.std.specs.Option.{option_map};
ghost use Rattle.pm_base.specs.declared.limits.TheConstants.{MOST_FACES, MOST_NODES, MOST_SIDES};
ghost use Rattle.pm_base.specs.Sides.{face_of};
ghost use Rattle.pm_shrink.specs.FaceRows.{across_in, side_from};
ghost use Rattle.pm_shrink.specs.Writes.{with_vertex, with_corner, side_number};

use crate::corners::OptionalCorners;
use crate::shrink::OutOfMemory;
use pm_base::{Corners, FaceId, OptionalSide, Side, SideMap};
use std::alloc::Global;
use std::marker::Model;

// A face: its corners, or none where it was dropped, and what stands across its three sides.
#[derive(Clone, Copy)]
struct Row {
    corners: OptionalCorners,
    across: [OptionalSide; 3],
}

impl Row {
    // What stands across side number i.
    fn across(&self, i: u32) -> Option<Side>
        requires { i < 3 }
        ensures { option_map (λ s. s.0) result ≡ across_in self.now i }
    {
        self.across[i as usize].side()
    }

    // Puts a vertex at corner number i, if the face is there.
    fn set_corner(&mut self, i: u32, vertex: u32)
        requires { vertex < MOST_NODES }
        ensures corners { self.new.corners
            ≡ option_map (λ k. with_vertex k i vertex) self.old.corners }
        ensures across { (j : ℕ) → across_in self.new j ≡ across_in self.old j }
    {
        self.corners.set(i, vertex);
    }

    // Puts another side, or none, across side number i.
    fn set_across(&mut self, i: u32, to: OptionalSide)
        requires { i < 3 }
        ensures corners { self.new.corners ≡ self.old.corners }
        ensures here { across_in self.new i ≡ to }
        ensures others { (j : ℕ) → j < 3 → j ≢ i → across_in self.new j ≡ across_in self.old j }
    {
        self.across[i as usize] = to;
    }
}

/// The faces of a surface by number. What stands across the sides of a face lies beside its
/// corners, since what reads the one mostly reads the other next. Contracts see two lists: the
/// corners of each face, or none where it was dropped, and what stands across each side, or none.
#[derive(Drop)]
pub(crate) struct FaceTable {
    rows: Vec<Row>,
}

impl Model for FaceTable {
    ghost use Rattle.pm_shrink.specs.FaceRows.{Faces, row_corners, across_of};

    ghost Value = { Faces };

    ghost view = { λ t.
        record { faces = row_corners t.rows.items; across = across_of t.rows.items } };
}

impl FaceTable {
    /// All faces, and what stands across their sides. The only call that takes memory.
    pub(crate) fn new(
        alloc: Global,
        faces: &[Corners],
        across: SideMap,
    ) -> Result<FaceTable, OutOfMemory>
        requires few { length faces.now ≤ MOST_FACES }
        requires sides { length across ≡ 3 * length faces.now }
        requires small { (e : ℕ) → IfSome (slice_index_or across e None) (λ g. g < MOST_SIDES) }
        requires vertices { All (λ k. k.a < MOST_NODES) faces.now }
        ensures faces { IfOk result (λ t. t.faces ≡ map Some faces.now) }
        ensures across { IfOk result (λ t. t.across ≡ across) }
    {
        let mut rows = Vec::with_capacity(alloc, faces.len())?;
        for face in 0..faces.len() {
            rows.push(row_of(faces[face], &across, face as u32))?;
        }
        Ok(FaceTable { rows })
    }

    /// How many faces there were at first.
    pub(crate) fn len(&self) -> usize
        ensures { result ≡ length self.now.faces }
    {
        self.rows.len()
    }

    /// The vertex from which a side of a face that is there runs.
    pub(crate) fn from(&self, side: Side) -> u32
        requires { is_some (slice_index_or self.now.faces (face_of side.0) None) ≡ true }
        ensures { result ≡ side_from self.now.faces side.0 }
    {
        self.rows[side.face().0 as usize].corners.get(side.0 % 3)
    }

    /// What stands across a side.
    pub(crate) fn across(&self, side: Side) -> Option<Side>
        requires { side.0 < length self.now.across }
        ensures { option_map (λ s. s.0) result ≡ slice_index_or self.now.across side.0 None }
    {
        self.rows[side.face().0 as usize].across(side.0 % 3)
    }

    /// Puts a vertex at a corner.
    pub(crate) fn set_corner(&mut self, corner: Side, vertex: u32)
        requires there { corner.0 < 3 * length self.old.faces }
        requires small { vertex < MOST_NODES }
        ensures faces { self.new.faces ≡ with_corner self.old.faces corner.0 vertex }
        ensures across { self.new.across ≡ self.old.across }
    {
        self.rows[corner.face().0 as usize].set_corner(corner.0 % 3, vertex);
    }

    /// Puts another side, or none, across a side.
    pub(crate) fn set_across(&mut self, side: Side, to: Option<Side>)
        requires there { side.0 < length self.old.across }
        requires small { IfSome to (λ s. s.0 < MOST_SIDES) }
        ensures faces { self.new.faces ≡ self.old.faces }
        ensures across { self.new.across ≡ slice_set self.old.across side.0 (side_number to) }
    {
        self.rows[side.face().0 as usize].set_across(side.0 % 3, OptionalSide::of(to));
    }

    /// Drops a face.
    pub(crate) fn drop_face(&mut self, face: FaceId)
        requires { face.0 < length self.old.faces }
        ensures faces { self.new.faces ≡ slice_set self.old.faces face.0 None }
        ensures across { self.new.across ≡ self.old.across }
    {
        self.rows[face.0 as usize].corners = OptionalCorners::none();
    }
}

// A face with what stands across its sides.
fn row_of(corners: Corners, across: &SideMap, face: u32) -> Row
    requires vertex { corners.a < MOST_NODES }
    requires face { face < MOST_FACES }
    requires sides { 3 * face + 2 < length across.now }
    requires small { (e : ℕ) → IfSome (slice_index_or across.now e None) (λ g. g < MOST_SIDES) }
    ensures corners { result.corners ≡ Some corners }
    ensures across { (i : ℕ) → i < 3
        → across_in result i ≡ slice_index_or across.now (3 * face + i) None }
{
    let first = 3 * face;
    Row {
        corners: OptionalCorners::of(corners),
        across: [
            OptionalSide::of(across.get(Side(first))),
            OptionalSide::of(across.get(Side(first + 1))),
            OptionalSide::of(across.get(Side(first + 2))),
        ],
    }
}
