//! What the input's vertices are brought and take.
ghost use Rattle.std.specs.Prelude.{◌≡◌, ◌*◌, ◌<◌, ◌≤◌, ◌+◌, ◌++◌, ℕ, [], length};
ghost use Rattle.std.specs.Prelude.{slice_index_or, slice_set, IfOk};
ghost use Rattle.pm_base.specs.Place.{place_of};
ghost use Rattle.pm_base.specs.Sides.{net_of};
ghost use Rattle.pm_quadric.specs.Sums.{StandsFor, plus_sums, sums_of};
ghost use Rattle.pm_runs.specs.Surfaces.{surface_of};
ghost use Rattle.pm_fine.specs.declared.fine_quadric.TheConstants.{MOST_FINE_PLANES};
ghost use Rattle.pm_fine.specs.Normals.{halved, doubled};
ghost use Rattle.pm_fine_costs.specs.FinePolicy.{planes_round, brought_at};
ghost use Rattle.pm_fine_costs.specs.CornerPlanes.{corner_of, normals_of, weighed, planes_with};
ghost use Rattle.pm_fine_costs.specs.FineCosts.{no_quadrics, with_point};

use crate::corner::{Corner, CornerNormals};
use crate::pair::BothQuadrics;
use crate::table::OutOfMemory;
use pm_base::{Corners, Point, Side};
use pm_fine::point_quadric;
use pm_twins::Surface;
use std::alloc::Global;

// The vertex from which a side runs.
fn vertex_of(faces: &[Corners], side: Side) -> u32
    requires { side.0 < 3 * length faces.now }
    ensures { result ≡ (net_of faces.now).from side.0 }
{
    let face = faces[side.face().0 as usize];
    [face.a, face.b, face.c][side.0 as usize % 3]
}

// The place from which a side runs.
fn place_of(surface: &Surface, side: Side) -> Point
    requires { side.0 < 3 * length surface.now.faces }
    ensures { result ≡ (corner_of (surface_of surface.now) side.0).at }
{
    surface.invariant();
    let mesh = surface.mesh();
    mesh.points.as_slice()[vertex_of(mesh.faces.as_slice(), side) as usize]
}

// A corner of the mesh.
fn corner_of(surface: &Surface, side: Side) -> Corner
    requires { side.0 < 3 * length surface.now.faces }
    ensures { result ≡ corner_of (surface_of surface.now) side.0 }
{
    surface.invariant();
    let (next, before) = (side.next(), side.prev());
    let twins = surface.twins();
    Corner {
        at: place_of(surface, side),
        next: place_of(surface, next),
        last: place_of(surface, before),
        is_open_after: twins.twin(side).is_none(),
        is_open_before: twins.twin(before).is_none(),
    }
}

// Gives a vertex the planes at a corner more.
fn add_corner(quadrics: &mut Vec<BothQuadrics>, v: u32, corner: &Corner)
    requires within { v < length quadrics.old.items }
    requires brought_few { (slice_index_or quadrics.old.items v no_quadrics).brought.count + 3
        ≤ MOST_FINE_PLANES }
    requires all_few { (slice_index_or quadrics.old.items v no_quadrics).all.count + 6
        ≤ MOST_FINE_PLANES }
    ensures { quadrics.new.items ≡ slice_set quadrics.old.items v (record {
      brought = plus_sums (slice_index_or quadrics.old.items v no_quadrics).brought
          (sums_of (planes_with (weighed halved (normals_of corner.now)) corner.now.at));
      all = plus_sums (slice_index_or quadrics.old.items v no_quadrics).all (plus_sums
          (sums_of (planes_with (weighed doubled (normals_of corner.now)) corner.now.at))
          (sums_of (planes_with (weighed halved (normals_of corner.now)) corner.now.at)));
    }) }
{
    let normals = CornerNormals::of(corner);
    let more = normals.halved().quadric_at(corner.at);
    let both = normals.doubled().quadric_at(corner.at).plus(&more);
    let old = &quadrics[v as usize];
    let brought = old.brought.plus(&more);
    let all = old.all.plus(&both);
    quadrics[v as usize] = BothQuadrics { brought, all };
}

// The quadrics of the planes round each point of the mesh, in one pass over its corners.
fn corner_quadrics(alloc: Global, surface: &Surface) -> Result<Vec<BothQuadrics>, OutOfMemory>
    ensures len { IfOk result (λ all. length all.items ≡ length surface.now.points) }
    ensures brought { IfOk result (λ all. (v : ℕ) → v < length surface.now.points
        → StandsFor (slice_index_or all.items v no_quadrics).brought
        (planes_round halved (surface_of surface.now) v)) }
    ensures all { IfOk result (λ all. (v : ℕ) → v < length surface.now.points
        → StandsFor (slice_index_or all.items v no_quadrics).all
        (planes_round doubled (surface_of surface.now) v
        ++ planes_round halved (surface_of surface.now) v)) }
{
    surface.invariant();
    let mesh = surface.mesh();
    let mut quadrics = vec![in alloc; BothQuadrics::zero(); mesh.points.len()]?;
    let faces = mesh.faces.as_slice();
    for number in 0..3 * faces.len() as u32 {
        let side = Side(number);
        add_corner(
            &mut quadrics,
            vertex_of(faces, side),
            &corner_of(surface, side),
        );
    }
    Ok(quadrics)
}

// Gives a vertex the planes of its point more.
fn add_point(quadrics: &mut Vec<BothQuadrics>, v: usize, p: Point)
    requires within { v < length quadrics.old.items }
    requires brought_few { (slice_index_or quadrics.old.items v no_quadrics).brought.count + 3
        ≤ MOST_FINE_PLANES }
    requires all_few { (slice_index_or quadrics.old.items v no_quadrics).all.count + 3
        ≤ MOST_FINE_PLANES }
    ensures { quadrics.new.items ≡ slice_set quadrics.old.items v
        (with_point (slice_index_or quadrics.old.items v no_quadrics) p) }
{
    let more = point_quadric(p);
    let old = &quadrics[v];
    let brought = old.brought.plus(&more);
    let all = old.all.plus(&more);
    quadrics[v] = BothQuadrics { brought, all };
}

// Gives each vertex the planes of its point more.
fn add_points(quadrics: &mut Vec<BothQuadrics>, points: &[Point])
    requires len { length quadrics.old.items ≡ length points.now }
    requires brought_few { (v : ℕ) → v < length points.now
        → (slice_index_or quadrics.old.items v no_quadrics).brought.count + 3
        ≤ MOST_FINE_PLANES }
    requires all_few { (v : ℕ) → v < length points.now
        → (slice_index_or quadrics.old.items v no_quadrics).all.count + 3 ≤ MOST_FINE_PLANES }
    ensures len { length quadrics.new.items ≡ length points.now }
    ensures each { (v : ℕ) → v < length points.now
        → slice_index_or quadrics.new.items v no_quadrics
        ≡ with_point (slice_index_or quadrics.old.items v no_quadrics)
        (slice_index_or points.now v (place_of [])) }
{
    for v in 0..points.len() {
        add_point(quadrics, v, points[v]);
    }
}

/// The quadrics of each point of the mesh: those of the planes round it, and of its own. Linear.
pub(crate) fn first_quadrics(
    alloc: Global,
    surface: &Surface,
) -> Result<Vec<BothQuadrics>, OutOfMemory>
    ensures len { IfOk result (λ all. length all.items ≡ length surface.now.points) }
    ensures brought { IfOk result (λ all. (v : ℕ) → v < length surface.now.points
        → StandsFor (slice_index_or all.items v no_quadrics).brought
        (brought_at surface.now v)) }
    ensures all { IfOk result (λ all. (v : ℕ) → v < length surface.now.points
        → StandsFor (slice_index_or all.items v no_quadrics).all
        (planes_round doubled (surface_of surface.now) v ++ brought_at surface.now v)) }
{
    surface.invariant();
    let mut quadrics = corner_quadrics(alloc, surface)?;
    add_points(&mut quadrics, surface.mesh().points.as_slice());
    Ok(quadrics)
}
