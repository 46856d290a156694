//! A mesh that is an oriented manifold, made of any OBJ, STL or PLY file.
ghost use Rattle.std.specs.Prelude.{◌≡◌, ◌≤◌, length, false, None, Ok, IfOk, IfErr, IfSome, OnOk};
ghost use Rattle.pm_base.specs.declared.limits.TheConstants.{MOST_FACES};
ghost use Rattle.pm_base.specs.Meshes.{IsWellFormed, mesh_of};
ghost use Rattle.pm_io.specs.Bytes.{AtEnd};
ghost use Rattle.obj_scan.specs.Fails.{scanned_of};
ghost use Rattle.obj_scan.specs.Meaning.{IsWithinLimits};
ghost use Rattle.obj_prepare.specs.Placing.{IsSize, IsSized};
ghost use Rattle.obj_prepare.specs.Named.{IsWithinMesh, of_three as of_three_in};
ghost use Rattle.obj_fit.specs.Texts.{notes_text as notes_text_of};
ghost use Rattle.obj_fit.specs.Outcome.{MakesPrepared, IsPreparedText, counts_of, warning_for};
ghost use Rattle.obj_fit.specs.Outcome.{rounded_for};
ghost use Rattle.obj_fit.specs.Fine.{rounded_faces as rounded_faces_of};
ghost use Rattle.obj_fit.specs.Making.{done_of, IsMakeFail};
ghost use Rattle.obj_fit.specs.Scales.{TellsScale};
ghost use Rattle.obj_fit.specs.Fails.{StopsPreparing};

use crate::counts::counts_of;
use crate::fault::{Fault, InputFail};
use crate::laying::{Laid, lay_out};
use crate::notes::{head_line, notes_text};
use crate::rounded::rounded_faces;
use crate::scale::{Scale, scale_of};
use mesh_scan::{MeshFail, scan_mesh};
use obj_prepare::{
    ExactPoint, Fit, LongestAxis, PrepareFail, Prepared, longest_axis, prepare, rounded_count,
};
use obj_scan::Scan;
use pm_base::{Corners, Mesh, Point};
use pm_io::Source;
use std::alloc::{AllocError, Global};

/// A mesh, the line that is written before it and its numbers, and what is said of it.
#[derive(Drop)]
pub struct Made {
    pub head: Vec<u8>,
    /// None where coordinates stand as they stood.
    pub scale: Option<Scale>,
    pub mesh: Mesh,
    pub notes: Vec<u8>,
}

// The longest axis of the box, where points were scaled by it and a tenth of the triangles or more
// became edges.
fn warning_for(
    alloc: Global,
    fit: &Fit,
    points: &[ExactPoint],
    triangles: &[Corners],
    edges: u32,
) -> Result<Option<LongestAxis>, AllocError>
    requires { IsWithinMesh (length points.now) triangles.now }
    ensures { IfOk result (λ w. w ≡ warning_for fit.now points.now triangles.now edges) }
{
    match fit {
        Fit::Standing => Ok(None),
        Fit::Scaled(_, b) => {
            if triangles.len() > 10 * edges as usize {
                return Ok(None);
            }
            let longest = longest_axis(alloc, b, points, triangles)?;
            Ok(Some(longest))
        }
    }
}

// How many vertices were joined by rounding, where so many were joined.
fn rounded_for(
    alloc: Global,
    points: &[ExactPoint],
    places: &[Point],
    triangles: &[Corners],
    joined: u32,
) -> Result<u32, AllocError>
    requires within { IsWithinMesh (length points.now) triangles.now }
    requires placed { length places.now ≡ length points.now }
    ensures { IfOk result (λ n. n ≡ rounded_for points.now places.now triangles.now joined) }
{
    if joined == 0 {
        return Ok(0);
    }
    rounded_count(alloc, points, places, triangles)
}

// What is said of a mesh that was made of triangles.
fn notes_of(
    alloc: Global,
    scan: &Scan,
    laid: &Laid,
    prepared: &Prepared,
) -> Result<Vec<u8>, AllocError>
    requires within { IsWithinLimits (scanned_of scan.now) }
    requires fans { IsWithinMesh (length scan.now.points.items) laid.now.fans.items }
    requires placed { length laid.now.placing.places.items ≡ length scan.now.points.items }
    requires sized { IsSized laid.now.placing.fit }
    requires cut { length laid.now.cut.faces.items ≤ MOST_FACES }
    requires three { laid.now.three.items ≡ of_three_in laid.now.cut.faces.items }
    requires three_within { IsWithinMesh (length scan.now.points.items) laid.now.three.items }
    requires formed { IsWellFormed (mesh_of prepared.now.mesh) }
    ensures { IfOk result
        (λ text. text.items
        ≡ notes_text_of
        (counts_of (scanned_of scan.now) laid.now.cut.faces.items laid.now.cut.overlapping
        (rounded_faces_of laid.now.placing.fit scan.now.points.items
        laid.now.placing.places.items laid.now.three.items) (mesh_of prepared.now.mesh))
        prepared.now.notes
        (rounded_for scan.now.points.items laid.now.placing.places.items laid.now.three.items
        prepared.now.notes.joined) laid.now.placing.fit
        (warning_for laid.now.placing.fit scan.now.points.items laid.now.fans.items
        prepared.now.notes.flat)) }
{
    let fit = &laid.placing.fit;
    let places = &laid.placing.places;
    let faces = rounded_faces(alloc, fit, &scan.points, places, &laid.three)?;
    let counts = counts_of(scan, &laid.cut, &laid.three, faces, &prepared.mesh);
    let done = prepared.notes;
    let rounded = rounded_for(alloc, &scan.points, places, &laid.three, done.joined)?;
    let warning = warning_for(alloc, fit, &scan.points, &laid.fans, done.flat)?;
    notes_text(alloc, counts, &done, rounded, fit, warning)
}

// What is made of points and triangles.
fn make_of(alloc: Global, size: Option<u32>, scan: &Scan) -> Result<Made, InputFail>
    requires size { IsSize size }
    requires within { IsWithinLimits (scanned_of scan.now) }
    ensures made { IfOk result (λ m. MakesPrepared size (scanned_of scan.now) (done_of m)) }
    ensures formed { IfOk result (λ m. IsWellFormed (mesh_of m.mesh)) }
    ensures scale { IfOk result (λ m. TellsScale m.head.items m.scale) }
    ensures err { IfErr result (IsMakeFail size (scanned_of scan.now)) }
{
    let Ok(laid) = lay_out(alloc, size, scan) else {
        return Err(InputFail::OutOfMemory);
    };
    let prepared = match prepare(alloc, &laid.placing.places, &laid.three) {
        Ok(prepared) => prepared,
        Err(PrepareFail::TooMany) => return Err(InputFail::Faulty(Fault::TooMany)),
        Err(PrepareFail::OutOfMemory) => return Err(InputFail::OutOfMemory),
    };
    if prepared.mesh.faces.as_slice().is_empty() {
        return Err(InputFail::Faulty(Fault::NoFaces));
    }
    let Ok(notes) = notes_of(alloc, scan, &laid, &prepared) else {
        return Err(InputFail::OutOfMemory);
    };
    let Ok(head) = head_line(alloc, &laid.placing.fit) else {
        return Err(InputFail::OutOfMemory);
    };
    let scale = scale_of(&laid.placing.fit);
    let mesh = prepared.mesh;
    Ok(Made {
        head,
        scale,
        mesh,
        notes,
    })
}

/// Reads an OBJ, STL or PLY file to its end, and makes a mesh of it. An OBJ line with a fault is
/// refused as soon as the byte that shows the fault has come, and the bytes that tell the format.
pub fn make<S: Source>(alloc: Global, size: Option<u32>, input: &mut S) -> Result<Made, InputFail>
    requires size { IsSize size }
    requires not_ended { S.ended input.old ≡ false }
    ensures made { IfOk result
        (λ m. IfSome (S.left input.old)
        (λ bytes. IsPreparedText size bytes (Ok (done_of m)) None)) }
    ensures formed { IfOk result (λ m. IsWellFormed (mesh_of m.mesh)) }
    ensures scale { IfOk result (λ m. TellsScale m.head.items m.scale) }
    ensures end { OnOk result (AtEnd (S.left input.new)) }
    ensures count { OnOk result (S.faults input.new ≡ S.faults input.old) }
    ensures err { IfErr result
        (λ e. StopsPreparing size e (S.left input.old) (S.left input.new) (S.faults input.old)
        (S.faults input.new)) }
{
    let scan = match scan_mesh(alloc, input) {
        Ok(scan) => scan,
        Err(MeshFail::Fault(fault)) => return Err(InputFail::Faulty(Fault::File(fault))),
        Err(MeshFail::Read) => return Err(InputFail::Read),
        Err(MeshFail::OutOfMemory) => return Err(InputFail::OutOfMemory),
    };
    match make_of(alloc, size, &scan) {
        Ok(made) => Ok(made),
        Err(fail) => Err(fail),
    }
}
