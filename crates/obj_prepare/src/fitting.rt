//! Triangles that need nothing: an oriented manifold of vertices that are all used and stand apart.
ghost use Rattle.std.specs.Prelude.{◌≡◌, true, length, IfOk, IfSome};
ghost use Rattle.std.specs.List.{list_all};
ghost use Rattle.pm_base.specs.Meshes.{IsWellFormed, mesh_of};
ghost use Rattle.pm_base.specs.Sides.{net_of};
ghost use Rattle.pm_base.specs.Fans.{IsOrientedManifold};
ghost use Rattle.obj_prepare.specs.Named.{IsWithinMesh};
ghost use Rattle.obj_prepare.specs.Nothing.{AreAllNamed, AreWhole, mesh_over};
ghost use Rattle.obj_prepare.specs.Nothing.{nothing_done as nothing_done_of};
ghost use Rattle.obj_prepare.specs.Prepared.{IsPreparedWith};

use crate::OutOfMemory;
use crate::apart::are_apart;
use crate::counting::count_flat;
use crate::named::named;
use crate::notes::Notes;
use crate::preparing::{Prepared, held};
use pm_base::{Corners, Mesh, Point};
use pm_turn::{TurnCounts, inside_out_by};
use pm_twins::{Surface, SurfaceFail};
use std::alloc::{AllocError, Global};

// Whether all flags are set.
fn are_set(flags: &[bool]) -> bool
    ensures { result ≡ list_all (λ b. b) flags.now }
{
    flags.iter().all(|set| *set)
}

// Whether each vertex is named by a triangle.
#[tactic(auto, using(crate::proofs::FittingLaws::all_named))]
fn are_named(alloc: Global, vertices: usize, faces: &[Corners]) -> Result<bool, OutOfMemory>
    requires { IsWithinMesh vertices faces.now }
    ensures { IfOk result (λ all. all ≡ true → AreAllNamed vertices faces.now) }
{
    let named = named(alloc, vertices, faces)?;
    Ok(are_set(&named))
}

// Whether triangles name three vertices each and all vertices together, and no two of these stand
// at one place.
#[tactic(auto, using(crate::proofs::FittingLaws::mesh_formed))]
fn are_whole(alloc: Global, places: &[Point], faces: &[Corners]) -> Result<bool, OutOfMemory>
    requires { IsWithinMesh (length places.now) faces.now }
    ensures { IfOk result (λ whole. whole ≡ true → AreWhole places.now faces.now) }
{
    if count_flat(faces) != 0 || !are_named(alloc, places.len(), faces)? {
        return Ok(false);
    }
    are_apart(alloc, places)
}

// The surface of triangles, if they are an oriented manifold.
fn surface_of(
    alloc: Global,
    places: &[Point],
    faces: &[Corners],
) -> Result<Option<Surface>, OutOfMemory>
    requires { IsWellFormed (mesh_over places.now faces.now) }
    ensures { IfOk result (λ surface. IfSome surface (λ s. s ≡ mesh_over places.now faces.now)) }
{
    let points = held(alloc, places)?;
    let faces = held(alloc, faces)?;
    match Surface::of(alloc, Mesh { points, faces }) {
        Ok(surface) => Ok(Some(surface)),
        Err(SurfaceFail::EdgeTwice(_) | SurfaceFail::NotFan(_)) => Ok(None),
        Err(SurfaceFail::OutOfMemory) => Err(AllocError),
    }
}

// What is told where nothing was done, but that so many closed surfaces are inside out.
fn nothing_done(inside_out: u32) -> Notes
    ensures { result ≡ nothing_done_of inside_out }
{
    let turns = TurnCounts {
        turned: 0,
        twisted: 0,
        crowded: 0,
        inside_out,
    };
    Notes {
        joined: 0,
        flat: 0,
        double: 0,
        turns,
        cut: 0,
        split: 0,
        unnamed: 0,
        gone: 0,
    }
}

/// What comes of triangles that need nothing, which is these triangles; none where something is to
/// be done. O(F + V log V) for F triangles over V vertices, without a map.
#[tactic(auto, using(crate::proofs::FittingLaws::whole_placed, crate::proofs::FittingLaws::surface_mated, crate::proofs::FittingLaws::stands_prepared, crate::proofs::FittingLaws::stands_formed))]
pub(crate) fn as_they_stand(
    alloc: Global,
    places: &[Point],
    faces: &[Corners],
) -> Result<Option<Prepared>, OutOfMemory>
    requires { IsWithinMesh (length places.now) faces.now }
    ensures ok { IfOk result
        (λ r. IfSome r (λ p. IsPreparedWith places.now faces.now (mesh_of p.mesh) p.notes)) }
    ensures formed { IfOk result (λ r. IfSome r (λ p. IsWellFormed (mesh_of p.mesh))) }
    ensures manifold { IfOk result
        (λ r. IfSome r (λ p. IsOrientedManifold (net_of p.mesh.faces.items))) }
{
    if !are_whole(alloc, places, faces)? {
        return Ok(None);
    }
    let Some(surface) = surface_of(alloc, places, faces)? else {
        return Ok(None);
    };
    let (mesh, twins) = surface.into_parts();
    let inside_out = inside_out_by(alloc, faces, places, &twins.into_sides())?;
    let notes = nothing_done(inside_out);
    Ok(Some(Prepared { mesh, notes }))
}
