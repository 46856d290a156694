//! Reads a file to its end, of whichever format it is.
ghost use Rattle.std.specs.Prelude.{◌≡◌, ◌≤◌, true, false, length, Ok, IfOk, IfErr, IfSome, OnOk};
ghost use Rattle.std.specs.Io.KnownBytes.{prepend_known};
ghost use Rattle.pm_io.specs.Bytes.{AtEnd};
ghost use Rattle.pm_io.specs.Causes.{HasCause};
ghost use Rattle.obj_scan.specs.Fails.{scanned_of};
ghost use Rattle.obj_scan.specs.Meaning.{IsWithinLimits};
ghost use Rattle.mesh_scan.specs.declared.format.TheConstants.{FIRST_BYTES};
ghost use Rattle.mesh_scan.specs.Fails.{Explains, of_source};
ghost use Rattle.mesh_scan.specs.Meaning.{meaning_as, mesh_meaning_of};

use crate::fault::{MeshFail, MeshFault, of_text};
use crate::format::{FIRST_BYTES, Format, format_by};
use crate::gather::{gather, gather_rest};
use crate::text::scan_text;
use crate::whole::{scan_ply, scan_stl};
use obj_scan::Scan;
use pm_io::Source;
use std::alloc::Global;

// Reads a file of this format whose first bytes are these, which may be all.
fn scan_as<S: Source>(
    alloc: Global,
    format: Format,
    first: Vec<u8>,
    ended: bool,
    source: &mut S,
) -> Result<Scan, MeshFail>
    requires not_ended { ended ≡ false → S.ended source.old ≡ false }
    requires end { ended ≡ true → AtEnd (S.left source.old) }
    requires few { length first.items ≤ FIRST_BYTES }
    ensures ok { IfOk result (λ s. IfSome (prepend_known first.items (S.left source.old))
        (λ bytes. meaning_as format bytes ≡ Ok (scanned_of s))) }
    ensures within { IfOk result (λ s. IsWithinLimits (scanned_of s)) }
    ensures end { OnOk result (AtEnd (S.left source.new)) }
    ensures err { IfErr result (λ e. Explains (meaning_as format) e
        (prepend_known first.items (S.left source.old)) (S.left source.new)) }
    ensures cause { HasCause (S.faults source.old) (S.faults source.new) (of_source result) }
{
    let mut bytes = first;
    match format {
        Format::Foreign(kind) => Err(MeshFail::Fault(MeshFault::Foreign(kind))),
        Format::Obj => match scan_text(alloc, &bytes, ended, source) {
            Ok(scan) => Ok(scan),
            Err(fail) => Err(of_text(fail)),
        },
        Format::Stl => match gather_rest(source, &mut bytes, ended) {
            Ok(()) => scan_stl(alloc, &bytes),
            Err(fail) => Err(fail),
        },
        Format::Ply => match gather_rest(source, &mut bytes, ended) {
            Ok(()) => scan_ply(alloc, &bytes),
            Err(fail) => Err(fail),
        },
    }
}

/// Reads a source to its end, and answers the points and triangles that its bytes give as an OBJ
/// text, an STL or a PLY file, as their first `FIRST_BYTES` bytes tell.
///
/// An OBJ text is read as `scan_obj` reads it, piece by piece. Other files are held in memory
/// whole. Points of an STL file that are equal are one vertex. Where a PLY file has faces of fewer
/// than three corners, these are counted among the lines and points that are passed over.
///
/// A file of another kind is refused once its first bytes have come, and a line of an OBJ text not
/// before them.
///
/// Linear in the bytes but for the map of an STL file's points.
pub fn scan_mesh<S: Source>(alloc: Global, source: &mut S) -> Result<Scan, MeshFail>
    requires { S.ended source.old ≡ false }
    ensures ok { IfOk result
        (λ s. IfSome (S.left source.old) (λ bytes. mesh_meaning_of bytes ≡ Ok (scanned_of s))) }
    ensures within { IfOk result (λ s. IsWithinLimits (scanned_of s)) }
    ensures end { OnOk result (AtEnd (S.left source.new)) }
    ensures err { IfErr result
        (λ e. Explains mesh_meaning_of e (S.left source.old) (S.left source.new)) }
    ensures cause { HasCause (S.faults source.old) (S.faults source.new) (of_source result) }
{
    let mut first = Vec::new(alloc);
    let ended = match gather(source, &mut first, FIRST_BYTES) {
        Ok(ended) => ended,
        Err(fail) => return Err(fail),
    };
    let format = format_by(&first);
    scan_as(alloc, format, first, ended, source)
}
