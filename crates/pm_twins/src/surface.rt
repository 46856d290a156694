//! A mesh that is an oriented manifold, with the twins of its sides.
ghost use Rattle.std.specs.Prelude.{◌≡◌, length, IfOk, IfErr, OnOk};
ghost use Rattle.pm_base.specs.Meshes.{mesh_of, IsWellFormed};
ghost use Rattle.pm_base.specs.Sides.{net_of};
ghost use Rattle.pm_base.specs.Fans.{IsOrientedManifold};
ghost use Rattle.pm_twins.specs.Table.{IsTableOf};
ghost use Rattle.pm_twins.specs.Surface.{IsSurfaceFault};
ghost use Rattle.pm_twins.specs.declared.surface.SurfaceFail.TheVariants as fails;

use crate::fans::{FansFail, check_fans};
use crate::twins::{Twins, TwinsFail};
use pm_base::{FaceId, Mesh};
use std::alloc::Global;
use std::marker::Model;

/// Why a mesh is no surface.
#[derive(Clone, Copy, Debug, PartialEq, Eq)]
pub enum SurfaceFail {
    /// A directed side stands twice. This is the least face that has one which an earlier face has.
    EdgeTwice(FaceId),
    /// No side stands twice. The faces at this vertex, the least such, are no fan.
    NotFan(u32),
    /// Want of memory.
    OutOfMemory,
}

/// A well-formed mesh that is an oriented manifold, with the twins of its sides. A vertex that no
/// face uses is permitted. Contracts see the mesh.
#[derive(Drop)]
pub struct Surface {
    mesh: Mesh,
    twins: Twins,
}

impl Model for Surface {
    ghost use Rattle.pm_base.specs.Meshes.{Mesh, mesh_of};
    ghost use Rattle.pm_twins.specs.Surface.{IsTwinned};

    ghost Value = { Mesh };

    ghost view = { λ s. mesh_of s.mesh };

    ghost invariant = { λ s. IsTwinned (mesh_of s.mesh) s.twins };
}

impl Surface {
    /// The surface of a well-formed mesh, which is dropped where it is refused. O(F + V) for F
    /// faces and V vertices.
    pub fn of(alloc: Global, mesh: Mesh) -> Result<Surface, SurfaceFail>
        requires { IsWellFormed (mesh_of mesh) }
        ensures mesh { IfOk result (λ s. s ≡ mesh_of mesh) }
        ensures manifold { OnOk result (IsOrientedManifold (net_of mesh.faces.items)) }
        ensures fault { IfErr result (IsSurfaceFault (net_of mesh.faces.items)) }
        ensures refused { IfErr result (λ e. IsOrientedManifold (net_of mesh.faces.items)
            → e ≡ fails.OutOfMemory) }
    {
        let twins = match Twins::of(alloc, &mesh) {
            Ok(twins) => twins,
            Err(TwinsFail::EdgeTwice(face)) => return Err(SurfaceFail::EdgeTwice(face)),
            Err(TwinsFail::OutOfMemory) => return Err(SurfaceFail::OutOfMemory),
        };
        match check_fans(alloc, &mesh, &twins) {
            Ok(()) => Ok(Surface { mesh, twins }),
            Err(FansFail::NotFan(vertex)) => Err(SurfaceFail::NotFan(vertex)),
            Err(FansFail::OutOfMemory) => Err(SurfaceFail::OutOfMemory),
        }
    }

    /// What the type keeps, as a law: the call takes no step.
    pub fn invariant(&self)
        ensures formed { IsWellFormed self.now }
        ensures manifold { IsOrientedManifold (net_of self.now.faces) }
    {
        let _ = &self.mesh;
    }

    /// The mesh.
    pub fn mesh(&self) -> &Mesh
        ensures { mesh_of result.now ≡ self.now }
    {
        &self.mesh
    }

    /// The twins of its sides.
    pub fn twins(&self) -> &Twins
        ensures { IsTableOf (net_of self.now.faces) (length self.now.points) result.now }
    {
        &self.twins
    }

    /// The mesh and the twins of its sides, for one who changes them.
    pub fn into_parts(self) -> (Mesh, Twins)
        ensures mesh { mesh_of result.0 ≡ self }
        ensures twins { IsTableOf (net_of self.faces) (length self.points) result.1 }
        ensures formed { IsWellFormed self }
        ensures manifold { IsOrientedManifold (net_of self.faces) }
    {
        (self.mesh, self.twins)
    }
}
