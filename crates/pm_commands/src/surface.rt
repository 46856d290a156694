//! The mesh of an OBJ text, where it is an oriented manifold.
ghost use Rattle.std.specs.Prelude.{◌≡◌, ◌≤◌, false, None, Ok, IfOk, IfErr, IfSome, OnOk};
ghost use Rattle.pm_base.specs.Meshes.{mesh_of, IsWellFormed};
ghost use Rattle.pm_runs.specs.Runs.{IsStartOfRun};
ghost use Rattle.pm_io.specs.Bytes.{AtEnd};
ghost use Rattle.pm_commands.specs.Input.{Stops};
ghost use Rattle.pm_commands.specs.Surface.{IsNoSurface, IsSurfaceRead, IsSurfaceGiven};

use crate::fault::{Fault, InputFail};
use obj_read::{Worded, read_obj, read_worded};
use pm_base::Mesh;
use pm_io::Source;
use pm_twins::{Surface, SurfaceFail};
use std::alloc::Global;

// The surface of a mesh that a text spells. Faces and vertices are counted from 1 in a fault.
fn surface_of(alloc: Global, mesh: Mesh) -> Result<Surface, InputFail>
    requires { IsWellFormed (mesh_of mesh) }
    ensures mesh { IfOk result (λ s. s ≡ mesh_of mesh) }
    ensures start { OnOk result (IsStartOfRun (mesh_of mesh)) }
    ensures fault { IfErr result (IsNoSurface (mesh_of mesh)) }
{
    match Surface::of(alloc, mesh) {
        Ok(surface) => Ok(surface),
        Err(SurfaceFail::EdgeTwice(face)) => Err(InputFail::Faulty(Fault::EdgeTwice(face.0 + 1))),
        Err(SurfaceFail::NotFan(vertex)) => Err(InputFail::Faulty(Fault::NotFan(vertex + 1))),
        Err(SurfaceFail::OutOfMemory) => Err(InputFail::OutOfMemory),
    }
}

/// Reads an OBJ text with so many decimals a coordinate, and answers its mesh where that is an
/// oriented manifold. A line with a fault is refused as soon as the byte that shows the fault has
/// come; the surface is looked at once the text has ended.
pub fn read_surface<S: Source>(
    alloc: Global,
    digits: u32,
    input: &mut S,
) -> Result<Surface, InputFail>
    requires few { digits ≤ 4 }
    requires not_ended { S.ended input.old ≡ false }
    ensures surface { IfOk result
        (λ m. IfSome (S.left input.old) (λ bytes. IsSurfaceRead digits bytes (Ok m) None)) }
    ensures start { IfOk result IsStartOfRun }
    ensures end { OnOk result (AtEnd (S.left input.new)) }
    ensures count { OnOk result (S.faults input.new ≡ S.faults input.old) }
    ensures err { IfErr result (λ e. Stops (IsSurfaceRead digits) e
        (S.left input.old) (S.left input.new) (S.faults input.old) (S.faults input.new)) }
{
    let mesh = read_obj(alloc, digits, input)?;
    surface_of(alloc, mesh)
}

/// The same of a text that shall have a mesh. One with nothing of a mesh in it, which is hardly an
/// OBJ text, is refused once it has ended: no line is a vertex or a face, and some line has more
/// than blanks and a comment.
pub fn read_given_surface<S: Source>(
    alloc: Global,
    digits: u32,
    input: &mut S,
) -> Result<Surface, InputFail>
    requires few { digits ≤ 4 }
    requires not_ended { S.ended input.old ≡ false }
    ensures surface { IfOk result
        (λ m. IfSome (S.left input.old) (λ bytes. IsSurfaceGiven digits bytes (Ok m) None)) }
    ensures start { IfOk result IsStartOfRun }
    ensures end { OnOk result (AtEnd (S.left input.new)) }
    ensures count { OnOk result (S.faults input.new ≡ S.faults input.old) }
    ensures err { IfErr result (λ e. Stops (IsSurfaceGiven digits) e
        (S.left input.old) (S.left input.new) (S.faults input.old) (S.faults input.new)) }
{
    let Worded { mesh, worded } = read_worded(alloc, digits, input)?;
    let surface = surface_of(alloc, mesh)?;
    if worded && surface.mesh().points.len() == 0 {
        return Err(InputFail::Faulty(Fault::NoMesh));
    }
    Ok(surface)
}
