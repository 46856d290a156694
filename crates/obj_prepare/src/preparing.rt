//! What becomes of triangles over placed vertices.
ghost use Rattle.std.specs.Prelude.{◌≡◌, ◌≤◌, ◌<◌, length, map, IfOk, IfErr};
ghost use Rattle.pm_base.specs.Meshes.{IsWellFormed, mesh_of};
ghost use Rattle.pm_base.specs.Sides.{net_of};
ghost use Rattle.pm_base.specs.Fans.{IsOrientedManifold};
ghost use Rattle.std.specs.List.{All};
ghost use Rattle.obj_prepare.specs.Named.{IsWithinMesh};
ghost use Rattle.obj_prepare.specs.Joining.{place_in_list};
ghost use Rattle.obj_prepare.specs.Prepared.{IsPreparedWith, AreNotes};
ghost use Rattle.obj_prepare.specs.PrepareFails.{IsPrepareFail};
ghost use Rattle.obj_prepare.specs.Pieces.{ArePieces};

use crate::OutOfMemory;
use crate::counting::{count_flat, count_gone, count_joined, count_set};
use crate::fitting::as_they_stand;
use crate::joining::{joined, joined_faces};
use crate::named::named;
use crate::notes::Notes;
use pm_base::{Corners, Items, MOST_VERTICES, Mesh, Point, Points};
use pm_fans::{Split, cut_sides, kept, split_by_fans};
use pm_turn::{Turned, chosen_turns, turned};
use std::alloc::Global;

/// A mesh that is an oriented manifold, and what was done to come there.
#[derive(Drop)]
pub struct Prepared {
    pub mesh: Mesh,
    pub notes: Notes,
}

/// Why there is no such mesh.
#[derive(Clone, Copy, Debug, PartialEq, Eq)]
pub enum PrepareFail {
    /// More than 1,048,576 vertices come out.
    TooMany,
    /// Memory was wanting.
    OutOfMemory,
}

// The joined vertices, the faces over them, those that stay, which of these are turned round and
// what is told of that, all of them as turned, and these with split vertices.
#[derive(Drop)]
struct Pieces {
    names: Vec<u32>,
    renamed: Vec<Corners>,
    stay: Vec<Corners>,
    turns: Turned,
    turned: Vec<Corners>,
    split: Split,
}

fn cut_up(alloc: Global, places: &[Point], faces: &[Corners]) -> Result<Pieces, OutOfMemory>
    requires { IsWithinMesh (length places.now) faces.now }
    ensures { IfOk result (λ p. ArePieces places.now faces.now p.names.items p.renamed.items
        p.stay.items p.turns.flags.items p.turns.counts p.turned.items p.split.faces.items
        p.split.old.items) }
{
    let names = joined(alloc, places, faces)?;
    let renamed = joined_faces(alloc, &names, faces)?;
    let stay = kept(alloc, &renamed)?;
    let turns = chosen_turns(alloc, &stay, places)?;
    let turned = turned(alloc, &stay, &turns.flags)?;
    let split = split_by_fans(alloc, &turned)?;
    Ok(Pieces {
        names,
        renamed,
        stay,
        turns,
        turned,
        split,
    })
}

// What was done, in numbers.
fn count_up(
    alloc: Global,
    places: &[Point],
    faces: &[Corners],
    p: &Pieces,
) -> Result<Notes, OutOfMemory>
    requires within { IsWithinMesh (length places.now) faces.now }
    requires pieces { ArePieces places.now faces.now p.now.names.items p.now.renamed.items
        p.now.stay.items p.now.turns.flags.items p.now.turns.counts p.now.turned.items
        p.now.split.faces.items p.now.split.old.items }
    requires few { length p.now.split.old.items ≤ MOST_VERTICES }
    ensures { IfOk result (λ notes. AreNotes places.now faces.now p.now.names.items
        p.now.turns.flags.items p.now.split.old.items notes) }
{
    let before = named(alloc, places.len(), faces)?;
    let after = named(alloc, places.len(), &p.stay)?;
    let flat = count_flat(&p.renamed);
    Ok(Notes {
        joined: count_joined(&before, &p.names),
        flat,
        double: faces.len() as u32 - flat - p.stay.len() as u32,
        turns: p.turns.counts,
        cut: cut_sides(alloc, &p.turned)?,
        split: p.split.old.len() as u32 - count_set(&after),
        unnamed: places.len() as u32 - count_set(&before),
        gone: count_gone(&before, &p.names, &after),
    })
}

/// A list in the form that a mesh has.
pub(crate) fn held<T: Copy>(alloc: Global, items: &[T]) -> Result<Items<T>, OutOfMemory>
    ensures { IfOk result (λ list. list.items ≡ items.now) }
{
    let mut list = Items::new(alloc);
    list.reserve(items.len())?;
    for item in items {
        list.push(*item)?;
    }
    Ok(list)
}

// The points where the joined vertices stand of which the new ones come.
fn points_of(alloc: Global, places: &[Point], old: &[u32]) -> Result<Points, OutOfMemory>
    requires { All (λ v. v < length places.now) old.now }
    ensures { IfOk result (λ points. points.items ≡ map (place_in_list places.now) old.now) }
{
    let mut points = Points::new(alloc);
    points.reserve(old.len())?;
    for v in old {
        points.push(places[*v as usize])?;
    }
    Ok(points)
}

fn mesh_of_split(alloc: Global, places: &[Point], split: &Split) -> Result<Mesh, OutOfMemory>
    requires { All (λ v. v < length places.now) split.now.old.items }
    ensures points { IfOk result
        (λ m. m.points.items ≡ map (place_in_list places.now) split.now.old.items) }
    ensures faces { IfOk result (λ m. m.faces.items ≡ split.now.faces.items) }
{
    let points = points_of(alloc, places, &split.old)?;
    let faces = held(alloc, &split.faces)?;
    Ok(Mesh { points, faces })
}

/// Makes an oriented manifold of triangles over placed vertices: vertices at one place are joined;
/// triangles go that became edges, and those whose three corners an earlier one has; of those that
/// stay some are turned round, so that neighbours go round the same way, each patch the better way,
/// as `pm_turn::chosen_turns` tells; the surface is cut open along every side that still stands
/// twice or has two twins, and each vertex is split into what is left of its fans. O(F log F) for F
/// triangles.
pub fn prepare(alloc: Global, places: &[Point], faces: &[Corners]) -> Result<Prepared, PrepareFail>
    requires { IsWithinMesh (length places.now) faces.now }
    ensures ok { IfOk result (λ p. IsPreparedWith places.now faces.now (mesh_of p.mesh) p.notes) }
    ensures formed { IfOk result (λ p. IsWellFormed (mesh_of p.mesh)) }
    ensures manifold { IfOk result (λ p. IsOrientedManifold (net_of p.mesh.faces.items)) }
    ensures err { IfErr result (IsPrepareFail places.now faces.now) }
{
    match as_they_stand(alloc, places, faces) {
        Ok(Some(prepared)) => return Ok(prepared),
        Ok(None) => {}
        Err(_) => return Err(PrepareFail::OutOfMemory),
    }
    let Ok(pieces) = cut_up(alloc, places, faces) else {
        return Err(PrepareFail::OutOfMemory);
    };
    if pieces.split.old.len() > MOST_VERTICES as usize {
        return Err(PrepareFail::TooMany);
    }
    let Ok(notes) = count_up(alloc, places, faces, &pieces) else {
        return Err(PrepareFail::OutOfMemory);
    };
    match mesh_of_split(alloc, places, &pieces.split) {
        Ok(mesh) => Ok(Prepared { mesh, notes }),
        Err(_) => Err(PrepareFail::OutOfMemory),
    }
}
