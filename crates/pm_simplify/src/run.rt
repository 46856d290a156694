//! The run of collapses from a mesh to so many faces.
ghost use Rattle.std.specs.Prelude.{◌≡◌, [], OnOk, IfOk, IfErr};
ghost use Rattle.pm_base.specs.Meshes.{mesh_of, IsWellFormed};
ghost use Rattle.pm_base.specs.Sides.{net_of};
ghost use Rattle.pm_base.specs.Fans.{IsOrientedManifold};
ghost use Rattle.pm_runs.specs.Runs.{IsRunTo};
ghost use Rattle.pm_keeping.specs.Keeping.{kept_in, IsRunKeeping};
ghost use Rattle.pm_policies.specs.Policies.{Policy};
ghost use Rattle.pm_policies.specs.PolicyRuns.{IsRunBy};
ghost use Rattle.pm_simplify.specs.Faults.{IsSimplifyFault};

use crate::stepwise::Run;
use pm_base::{FaceId, Log, Mesh};
use pm_costs::{Costs, QuadricTable};
use pm_twins::{Surface, SurfaceFail};
use std::alloc::{AllocError, Global};

/// The answer for want of memory.
pub type OutOfMemory = AllocError;

/// Why a mesh isn't simplified.
#[derive(Clone, Copy, Debug, PartialEq, Eq)]
pub enum SimplifyFail {
    /// A directed side stands twice. This is the least face that has one which an earlier face has.
    EdgeTwice(FaceId),
    /// No side stands twice. The faces at this vertex, the least such, are no fan.
    NotFan(u32),
    /// Want of memory.
    OutOfMemory,
}

/// Collapses the legal pair of least cost, again and again, while more faces than the target are
/// left and a pair may be collapsed. Equal costs go by the pair's vertex numbers. The answer is the
/// log of the collapses; the mesh stays as it is.
///
/// Only a pair that comes up as the least is asked whether it may be collapsed, by the faces at its
/// two ends. Where it may not, it waits until a corner of a face that shows why is merged. A step
/// gives keys to the edges at the new vertex and to those that waited for a face at one of the two
/// ends, each in O(log F) for F faces, but for the passes that the queue makes over all keys, of
/// which there are not many in a run.
pub fn simplify(alloc: Global, mesh: &Mesh, target_faces: u32) -> Result<Log, SimplifyFail>
    requires { IsWellFormed (mesh_of mesh.now) }
    ensures run { IfOk result (λ log. IsRunTo (mesh_of mesh.now) target_faces log.items) }
    ensures manifold { OnOk result (IsOrientedManifold (net_of mesh.now.faces.items)) }
    ensures fault { IfErr result (IsSimplifyFault (net_of mesh.now.faces.items)) }
{
    let Ok(copy) = mesh.copy(alloc) else {
        return Err(SimplifyFail::OutOfMemory);
    };
    let surface = match Surface::of(alloc, copy) {
        Ok(surface) => surface,
        Err(SurfaceFail::EdgeTwice(face)) => return Err(SimplifyFail::EdgeTwice(face)),
        Err(SurfaceFail::NotFan(vertex)) => return Err(SimplifyFail::NotFan(vertex)),
        Err(SurfaceFail::OutOfMemory) => return Err(SimplifyFail::OutOfMemory),
    };
    simplify_surface(alloc, surface, target_faces).map_err(|_| SimplifyFail::OutOfMemory)
}

/// The same of a surface, which is used up: one who needs its mesh afterwards copies that before.
#[tactic(auto, using(crate::proofs::KeepingNone::none_run))]
pub fn simplify_surface(
    alloc: Global,
    surface: Surface,
    target_faces: u32,
) -> Result<Log, OutOfMemory>
    ensures run { IfOk result (λ log. IsRunTo surface target_faces log.items) }
{
    simplify_keeping(alloc, surface, &[], target_faces)
}

/// The same, but no pair with a kept vertex is collapsed, nor weighed. Vertices whose flags are set
/// are kept, and those past the list of flags aren't, so with a flag for each vertex of the surface
/// no merged vertex is.
pub fn simplify_keeping(
    alloc: Global,
    surface: Surface,
    kept: &[bool],
    target_faces: u32,
) -> Result<Log, OutOfMemory>
    ensures run { IfOk result (λ log.
        IsRunKeeping (kept_in kept.now) surface target_faces log.items) }
{
    let costs = QuadricTable::new(alloc, surface.mesh())?;
    simplify_by(alloc, surface, costs, kept, target_faces)
}

/// The same by any policy: that of the costs, which are those of the surface before the first
/// collapse, and of the flags.
pub fn simplify_by<C: Costs + Drop>(
    alloc: Global,
    surface: Surface,
    costs: C,
    kept: &[bool],
    target_faces: u32,
) -> Result<Log, OutOfMemory>
    requires known { (p : Policy) × C.goes_by costs p surface [] × (p.kept ≡ kept_in kept.now) }
    ensures run { IfOk result (λ log. (p : Policy) → C.goes_by costs p surface []
        → p.kept ≡ kept_in kept.now → IsRunBy p surface target_faces log.items) }
{
    let mut flags = Vec::new(alloc);
    flags.extend_from_slice(kept)?;
    let mut run = Run::begin(alloc, surface, costs, flags, target_faces)?;
    // (no run has as many collapses)
    run.go_on(u32::MAX);
    Ok(run.into_log())
}
