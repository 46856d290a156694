//! Reading a mesh from a source of bytes.
ghost use Rattle.std.specs.Prelude.{◌≡◌, ◌≤◌, false, Ok, IfOk, IfErr, OnOk, IfSome};
ghost use Rattle.pm_base.specs.Meshes.{IsWellFormed, mesh_of};
ghost use Rattle.pm_io.specs.Bytes.{AtEnd};
ghost use Rattle.pm_io.specs.Causes.{HasCause};
ghost use Rattle.obj_read.specs.Fails.{Explains, of_source};
ghost use Rattle.obj_read.specs.Meaning.{meaning_of};
ghost use Rattle.obj_read.specs.Worded.{holds_words};

use crate::fault::ObjFail;
use crate::reader::Reader;
use obj_lines::{TextFail, read_lines};
use pm_base::{Mesh, Points, Triples};
use pm_io::Source;
use std::alloc::Global;

/// A mesh that was read, and whether its text has more than blanks and comments.
#[derive(Drop)]
pub struct Worded {
    pub mesh: Mesh,
    pub worded: bool,
}

/// The same as `read_obj`, and tells a text of blanks and comments alone from one whose lines may
/// all have been skipped.
pub fn read_worded<S: Source>(alloc: Global, digits: u32, source: &mut S) -> Result<Worded, ObjFail>
    requires few { digits ≤ 4 }
    requires not_ended { S.ended source.old ≡ false }
    ensures ok { IfOk result (λ r. IfSome (S.left source.old)
        (λ bytes. meaning_of digits bytes ≡ Ok (mesh_of r.mesh))) }
    ensures worded { IfOk result (λ r. IfSome (S.left source.old)
        (λ bytes. r.worded ≡ holds_words bytes)) }
    ensures mesh { IfOk result (λ r. IsWellFormed (mesh_of r.mesh)) }
    ensures end { OnOk result (AtEnd (S.left source.new)) }
    ensures err { IfErr result (λ e. Explains digits e (S.left source.old) (S.left source.new)) }
    ensures cause { HasCause (S.faults source.old) (S.faults source.new) (of_source result) }
{
    let mut reader = Reader {
        digits,
        mesh: Mesh {
            points: Points::new(alloc),
            faces: Triples::new(alloc),
        },
        worded: false,
    };
    match read_lines(alloc, source, &mut reader) {
        Ok(_) => Ok(Worded {
            mesh: reader.mesh,
            worded: reader.worded,
        }),
        Err(TextFail::Fault(why)) => Err(ObjFail::Fault {
            fault: why.fault,
            line: why.line,
        }),
        Err(TextFail::Read) => Err(ObjFail::Read),
        Err(TextFail::OutOfMemory) => Err(ObjFail::OutOfMemory),
    }
}

/// Reads a source to its end, and answers the mesh that its bytes spell.
///
/// Lines that begin with neither `v` nor `f` are skipped. Coordinates are kept in units of 10 to
/// the power -digits, with at most four digits: they are from -32,767 to 32,767 units, and each
/// decimal past the first so many is a zero. Faces are triangles. All bytes that are held are
/// judged before more are asked for, so a fault is answered as soon as the byte that shows it has
/// come. However the source cuts its bytes, the answer is the same.
///
/// Each byte is looked at a constant number of times. Memory is taken for the window, for one line,
/// and for the mesh.
pub fn read_obj<S: Source>(alloc: Global, digits: u32, source: &mut S) -> Result<Mesh, ObjFail>
    requires few { digits ≤ 4 }
    requires not_ended { S.ended source.old ≡ false }
    ensures ok { IfOk result
        (λ m. IfSome (S.left source.old) (λ bytes. meaning_of digits bytes ≡ Ok (mesh_of m))) }
    ensures mesh { IfOk result (λ m. IsWellFormed (mesh_of m)) }
    ensures end { OnOk result (AtEnd (S.left source.new)) }
    ensures err { IfErr result (λ e. Explains digits e (S.left source.old) (S.left source.new)) }
    ensures cause { HasCause (S.faults source.old) (S.faults source.new) (of_source result) }
{
    let read = read_worded(alloc, digits, source)?;
    Ok(read.mesh)
}
