//! What reads the lines of a text into a mesh.
ghost use Rattle.std.specs.Prelude.{◌≡◌, OnOk};
ghost use Rattle.pm_base.specs.Meshes.{mesh_of};
ghost use Rattle.obj_read.specs.Fits.{with_found};
ghost use Rattle.obj_read.specs.Reading.{HeldMesh, held_of, mesh_rules, IsReadyToRead};

use crate::OutOfMemory;
use crate::fault::ObjFault;
use crate::fields::has_field;
use crate::found::Found;
use crate::judge::line_found;
use obj_lines::{LineFault, LineReader, Lines, TextFail};
use pm_base::Mesh;

/// How many decimals a coordinate has, the mesh so far, and whether a line had a field.
#[derive(Drop)]
pub struct Reader {
    pub digits: u32,
    pub mesh: Mesh,
    pub worded: bool,
}

// Puts what a line gives into the mesh.
fn put(mesh: &mut Mesh, found: Found) -> Result<(), OutOfMemory>
    ensures { OnOk result (mesh_of mesh.new ≡ with_found (mesh_of mesh.old) found) }
{
    match found {
        Found::Nothing => Ok(()),
        Found::Vertex(point) => mesh.points.push(point),
        Found::Face(corners) => mesh.faces.push(corners),
    }
}

impl LineReader for Reader {
    type Fault = ObjFault;

    ghost Held = { HeldMesh };

    ghost held = { held_of };

    ghost rules = { mesh_rules };

    ghost may_take = { λ r number. IsReadyToRead (held_of r) };

    fn too_many(&self) -> ObjFault {
        ObjFault::TooMany
    }

    fn too_long(&self) -> ObjFault {
        ObjFault::LineTooLong
    }

    // Judges what is read of the line, and puts what it gives into the mesh.
    #[tactic(auto, unfolding(crate::specs::Reading::line_taken))]
    fn take_line(&mut self, lines: &Lines, number: u32) -> Result<(), TextFail<ObjFault>> {
        self.worded = self.worded || has_field(lines.line());
        let vertices = self.mesh.points.len() as u32;
        let faces = self.mesh.faces.len() as u32;
        match line_found(self.digits, vertices, faces, lines.line()) {
            Err(fault) => Err(TextFail::Fault(LineFault {
                fault,
                line: number,
            })),
            Ok(found) => match put(&mut self.mesh, found) {
                Ok(()) => Ok(()),
                Err(_) => Err(TextFail::OutOfMemory),
            },
        }
    }

    fn end_fault(&self, _number: u32) -> Option<LineFault<ObjFault>> {
        None
    }
}
