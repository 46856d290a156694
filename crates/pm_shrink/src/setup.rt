//! The surface before the first collapse.
ghost use Rattle.std.specs.Prelude.{◌≡◌, ◌+◌, ◌-◌, ◌*◌, ◌<◌, ◌≤◌, ◌++◌, ◌↔◌, ℕ, [], Some, None};
ghost use Rattle.std.specs.Prelude.{true, is_some, length, map, replicate, slice_index_or, IfOk};
ghost use Rattle.pm_base.specs.declared.limits.TheConstants.{MOST_FACES, MOST_NODES};
ghost use Rattle.pm_base.specs.Meshes.{mesh_of, IsWellFormed};
ghost use Rattle.pm_base.specs.Sides.{face_of, net_of};
ghost use Rattle.pm_base.specs.Fans.{IsOrientedManifold};
ghost use Rattle.pm_links.specs.Lists.{list_of, has, IsSound};
ghost use Rattle.pm_runs.specs.Surfaces.{surface_of};
ghost use Rattle.pm_twins.specs.Table.{IsTableOf};
ghost use Rattle.pm_shrink.specs.FaceRows.{side_from};
ghost use Rattle.pm_shrink.specs.Following.{IsAfter};

use crate::Shrink;
use crate::faces::FaceTable;
use crate::rims::RimTable;
use crate::shrink::OutOfMemory;
use crate::tables::Tables;
use pm_base::{Mesh, Point, Side};
use pm_links::Links;
use pm_twins::Twins;
use std::alloc::Global;

impl Shrink {
    /// The whole mesh, which is a well-formed oriented manifold, before the first collapse. All
    /// room for later vertices is taken here. O(V + F) for V points and F faces.
    pub fn new(alloc: Global, mesh: Mesh, twins: Twins) -> Result<Shrink, OutOfMemory>
        requires formed { IsWellFormed (mesh_of mesh) }
        requires manifold { IsOrientedManifold (net_of mesh.faces.items) }
        requires twins { IsTableOf (net_of mesh.faces.items) (length mesh.points.items) twins }
        ensures surface { IfOk result (λ s. s.surface ≡ surface_of (mesh_of mesh)) }
        ensures after { IfOk result (IsAfter (mesh_of mesh) []) }
    {
        let mut shrink = Shrink::filled(alloc, mesh, twins)?;
        shrink.note_all();
        Ok(shrink)
    }

    // The same, but that no border side is noted.
    fn filled(alloc: Global, mesh: Mesh, twins: Twins) -> Result<Shrink, OutOfMemory>
        requires formed { IsWellFormed (mesh_of mesh) }
        requires manifold { IsOrientedManifold (net_of mesh.faces.items) }
        requires twins { IsTableOf (net_of mesh.faces.items) (length mesh.points.items) twins }
        ensures surface { IfOk result (λ s. s.surface ≡ surface_of (mesh_of mesh)) }
        ensures after { IfOk result (IsAfter (mesh_of mesh) []) }
    {
        let triples = mesh.faces.as_slice();
        let points = mesh.points.as_slice();
        let room = 2 * points.len();
        let faces = FaceTable::new(alloc, triples, twins.into_sides())?;
        let places = places_with_room(alloc, points, room)?;
        let corners = corner_lists(alloc, &faces, room)?;
        let rims = RimTable::new(alloc, room)?;
        let tables = Tables {
            faces,
            corners,
            places,
            next: points.len() as u32,
            face_count: triples.len() as u32,
        };
        Ok(Shrink { tables, rims })
    }
}

fn all_there<T: Copy>(alloc: Global, items: &[T]) -> Result<Vec<Option<T>>, OutOfMemory>
    ensures { IfOk result (λ all. all.items ≡ map Some items.now) }
{
    items.iter().map(|item| Some(*item)).collect(alloc)
}

// The places of the points, and none for each vertex that can come later.
fn places_with_room(
    alloc: Global,
    points: &[Point],
    room: usize,
) -> Result<Vec<Option<Point>>, OutOfMemory>
    requires { length points.now ≤ room }
    ensures { IfOk result (λ places. places.items
        ≡ map Some points.now ++ replicate (room - length points.now) None) }
{
    let mut places = all_there(alloc, points)?;
    places.resize(room, None)?;
    Ok(places)
}

// Each corner in the list of its vertex.
fn corner_lists(alloc: Global, faces: &FaceTable, room: usize) -> Result<Links, OutOfMemory>
    requires few { length faces.now.faces ≤ MOST_FACES }
    requires room { room ≤ MOST_NODES }
    requires there { (e : ℕ) → e < 3 * length faces.now.faces
        → is_some (slice_index_or faces.now.faces (face_of e) None) ≡ true }
    requires within { (e : ℕ) → e < 3 * length faces.now.faces
        → side_from faces.now.faces e < room }
    ensures items { IfOk result (λ lists. lists.items ≡ 3 * length faces.now.faces) }
    ensures heads { IfOk result (λ lists. length lists.lists ≡ room) }
    ensures sound { IfOk result IsSound }
    ensures each { IfOk result (λ lists. (v e : ℕ) → (has (list_of lists v) e ≡ true)
        ↔ ((e < 3 * length faces.now.faces) × (side_from faces.now.faces e ≡ v))) }
{
    let sides = 3 * faces.len() as u32;
    let mut lists = Links::new(alloc, sides, room as u32)?;
    for number in 0..sides {
        lists.push_front(faces.from(Side(number)), number);
    }
    Ok(lists)
}
