//! The sides of a mesh are put into lists, each at the vertex that it leaves, and then the vertices
//! are gone through. Of the sides that arrive at one, two that come from the same vertex are one
//! side twice; and a side that leaves it has the one that runs back as its twin.
ghost use Rattle.std.specs.Prelude.{◌≡◌, ◌<◌, ℕ, ◌↔◌, length, IfOk, IfErr, OnOk, MatchOption};
ghost use Rattle.std.specs.Prelude.{IsTrue};
ghost use Rattle.std.specs.Option.{option_map};
ghost use Rattle.pm_base.specs.Meshes.{mesh_of, IsWellFormed};
ghost use Rattle.pm_base.specs.Sides.{Net, net_of, side_count, NoSideTwice, IsTwin, HasNoTwin};
ghost use Rattle.pm_base.specs.Sides.{IsBorder};
ghost use Rattle.pm_twins.specs.Table.{twin_at, border_at, AreTwinsOf, IsBorderOf, IsTableOf};
ghost use Rattle.pm_twins.specs.Faults.{IsTwinsFault};
ghost use Rattle.pm_twins.specs.Whole.{IsWhole};
ghost use Rattle.pm_twins.specs.SideLists.{AreListed};

use crate::OutOfMemory;
use crate::side_lists::{SideLists, list_sides};
use crate::sides::{from, to};
use crate::stamps::{Stamps, pair_leaving, stamp_arriving};
use pm_base::{Corners, FaceId, Mesh, Side, SideMap};
use std::alloc::Global;
use std::marker::Model;

/// Why a mesh has no twins.
#[derive(Clone, Copy, Debug, PartialEq, Eq)]
pub enum TwinsFail {
    /// A directed side stands twice. This is the least face that has one which an earlier face has.
    EdgeTwice(FaceId),
    /// Want of memory.
    OutOfMemory,
}

/// The twin of each side of a mesh, and for each vertex whether it is on the border: four bytes a
/// side and one a vertex.
#[derive(Drop)]
pub struct Twins {
    twins: SideMap,
    border: Vec<bool>,
}

impl Model for Twins {
    ghost use Rattle.pm_twins.specs.Table.{Table};

    ghost Value = { Table };

    ghost view = { λ t. record { twins = t.twins; border = t.border.items } };
}

impl Twins {
    /// The twins of a well-formed mesh. O(F + V) for F faces and V vertices, also where a side
    /// stands twice and where many faces have one vertex: each side is put into a list, stamped
    /// and paired once, with one look at a table for each.
    pub fn of(alloc: Global, mesh: &Mesh) -> Result<Twins, TwinsFail>
        requires { IsWellFormed (mesh_of mesh.now) }
        ensures twins { IfOk result
            (IsTableOf (net_of mesh.now.faces.items) (length mesh.now.points.items)) }
        ensures edge_twice { IfErr result (IsTwinsFault (net_of mesh.now.faces.items)) }
    {
        let faces = mesh.faces.as_slice();
        let vertices = mesh.points.len();
        let Ok(lists) = list_sides(alloc, faces, vertices) else {
            return Err(TwinsFail::OutOfMemory);
        };
        let twins = pair_sides(alloc, faces, lists, vertices)?;
        let Ok(border) = mark_border(alloc, faces, vertices, &twins) else {
            return Err(TwinsFail::OutOfMemory);
        };
        Ok(Twins { twins, border })
    }

    /// The side of another face that joins the same two vertices in the other order. O(1).
    pub fn twin(&self, side: Side) -> Option<Side>
        requires { side.0 < length self.now.twins }
        ensures value { option_map (λ s. s.0) result ≡ twin_at self.now side.0 }
        ensures twin { (m : Net) (n : ℕ) → IsTableOf m n self.now
            → MatchOption result (HasNoTwin m side.0) (λ s. IsTwin m side.0 s.0) }
    {
        self.twins.get(side)
    }

    /// Whether a side at the vertex has no twin. O(1).
    pub fn is_border(&self, vertex: u32) -> bool
        requires { vertex < length self.now.border }
        ensures value { result ≡ border_at self.now vertex }
        ensures border { (m : Net) (n : ℕ) → IsTableOf m n self.now
            → IsTrue result ↔ IsBorder m vertex }
    {
        self.border[vertex as usize]
    }

    /// The twins alone.
    pub fn into_sides(self) -> SideMap
        ensures { result ≡ self.twins }
    {
        self.twins
    }

    // The twin of each side.
    pub(crate) fn as_side_map(&self) -> &SideMap
        ensures { result.now ≡ self.now.twins }
    {
        &self.twins
    }
}

// The twin of each side. The vertices are gone through one by one: the sides that arrive at one are
// stamped, and those that leave it look for their twins among them.
fn pair_sides(
    alloc: Global,
    faces: &[Corners],
    lists: SideLists,
    vertices: usize,
) -> Result<SideMap, TwinsFail>
    requires whole { IsWhole (net_of faces.now) vertices }
    requires listed { AreListed (net_of faces.now) vertices (side_count (net_of faces.now))
        lists.lasts.items lists.links }
    ensures twins { IfOk result (λ twins. AreTwinsOf (net_of faces.now) twins) }
    ensures once { OnOk result (NoSideTwice (net_of faces.now)) }
    ensures edge_twice { IfErr result (IsTwinsFault (net_of faces.now)) }
{
    let SideLists {
        lasts,
        links: mut table,
    } = lists;
    let Ok(mut stamps) = Stamps::none(alloc, vertices) else {
        return Err(TwinsFail::OutOfMemory);
    };
    for vertex in 0..vertices as u32 {
        let last = lasts[vertex as usize].side();
        stamp_arriving(faces, &table, last, vertex, &mut stamps);
        pair_leaving(faces, last, vertex, &stamps, &mut table);
    }
    match stamps.repeat() {
        Some(side) => Err(TwinsFail::EdgeTwice(side.face())),
        None => Ok(table),
    }
}

// A flag for each vertex: whether it is on the border.
fn mark_border(
    alloc: Global,
    faces: &[Corners],
    vertices: usize,
    twins: &SideMap,
) -> Result<Vec<bool>, OutOfMemory>
    requires whole { IsWhole (net_of faces.now) vertices }
    requires twins { AreTwinsOf (net_of faces.now) twins.now }
    ensures { IfOk result (λ border. IsBorderOf (net_of faces.now) vertices border.items) }
{
    let mut border = vec![in alloc; false; vertices]?;
    for number in 0..twins.len() {
        let side = Side(number);
        if twins.get(side).is_none() {
            border[from(faces, side) as usize] = true;
            border[to(faces, side) as usize] = true;
        }
    }
    Ok(border)
}
