//! Files that are read whole, as OBJ texts give their points and triangles.
ghost use Rattle.std.specs.Prelude.{◌≡◌, ◌≤◌, length, Ok, IfOk, IfErr};
ghost use Rattle.pm_base.specs.declared.limits.TheConstants.{MOST_FACES};
ghost use Rattle.obj_scan.specs.Fails.{scanned_of};
ghost use Rattle.obj_scan.specs.Meaning.{IsWithinLimits};
ghost use Rattle.stl_read.specs.Meaning.{triangles_of};
ghost use Rattle.stl_read.specs.Stl.{stl_meaning_of};
ghost use Rattle.ply_read.specs.Meaning.{ply_in};
ghost use Rattle.ply_read.specs.Ply.{ply_meaning_of};
ghost use Rattle.mesh_scan.specs.Fails.{Tells};
ghost use Rattle.mesh_scan.specs.Meaning.{of_stl, of_ply, ply_passed, stl_passed, stl_spot};

use crate::fault::{MeshFail, MeshFault};
use obj_scan::{PassedOver, Scan};
use ply_read::{Ply, PlyFail, Spot, read_ply};
use std::alloc::Global;
use stl_read::{StlFail, StlTriangles, is_text, read_stl};

fn stl_spot(bytes: &[u8], place: usize) -> Spot
    ensures { result ≡ stl_spot bytes.now place }
{
    if is_text(bytes) {
        Spot::Line(place)
    } else {
        Spot::Byte(place)
    }
}

// What is passed over of an STL file.
fn stl_passed(stl: &StlTriangles) -> PassedOver
    requires { length stl.now.faces.items ≤ MOST_FACES }
    ensures { result ≡ stl_passed (triangles_of stl.now) }
{
    PassedOver {
        normals: stl.faces.len() as u32,
        attributes: stl.attributes,
        ..PassedOver::new()
    }
}

// What is passed over of a PLY file.
fn ply_passed(ply: &Ply) -> PassedOver
    ensures { result ≡ ply_passed (ply_in ply.now) }
{
    PassedOver {
        colours: ply.losses.colours,
        textures: ply.losses.textures.saturating_add(ply.losses.face_textures),
        normals: ply.losses.normals,
        elements: ply.short_faces,
        properties: ply.losses.properties,
        other_elements: ply.losses.elements,
        ..PassedOver::new()
    }
}

/// The points and triangles of an STL file. Normals and attributes are passed over.
pub(crate) fn scan_stl(alloc: Global, bytes: &[u8]) -> Result<Scan, MeshFail>
    ensures ok { IfOk result
        (λ s. of_stl bytes.now (stl_meaning_of bytes.now) ≡ Ok (scanned_of s)) }
    ensures within { IfOk result (λ s. IsWithinLimits (scanned_of s)) }
    ensures err { IfErr result (λ e. Tells e (of_stl bytes.now (stl_meaning_of bytes.now))) }
{
    match read_stl(alloc, bytes) {
        Ok(stl) => Ok(Scan {
            passed: stl_passed(&stl),
            points: stl.points,
            inexact: 0,
            faces: stl.faces,
            polygons: Vec::new(alloc),
        }),
        Err(StlFail::Fault(why)) => Err(MeshFail::Fault(MeshFault::Stl(
            why.fault,
            stl_spot(bytes, why.place),
        ))),
        Err(StlFail::OutOfMemory) => Err(MeshFail::OutOfMemory),
    }
}

/// The points and triangles of a PLY file. What else stands there is passed over, and faces of
/// fewer than three corners as lines and points.
pub(crate) fn scan_ply(alloc: Global, bytes: &[u8]) -> Result<Scan, MeshFail>
    ensures ok { IfOk result (λ s. of_ply (ply_meaning_of bytes.now) ≡ Ok (scanned_of s)) }
    ensures within { IfOk result (λ s. IsWithinLimits (scanned_of s)) }
    ensures err { IfErr result (λ e. Tells e (of_ply (ply_meaning_of bytes.now))) }
{
    match read_ply(alloc, bytes) {
        Ok(ply) => Ok(Scan {
            passed: ply_passed(&ply),
            points: ply.points,
            inexact: 0,
            faces: ply.faces,
            polygons: ply.polygons,
        }),
        Err(PlyFail::Fault(why)) => Err(MeshFail::Fault(MeshFault::Ply(why.fault, why.spot))),
        Err(PlyFail::OutOfMemory) => Err(MeshFail::OutOfMemory),
    }
}
