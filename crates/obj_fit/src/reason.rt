//! What is wrong with a file, in words.
ghost use Rattle.std.specs.Prelude.{◌≡◌, ◌≤◌, length};
ghost use Rattle.obj_fit.specs.Reasons.{line_reason, scan_reason, stl_reason, ply_reason};
ghost use Rattle.obj_fit.specs.Reasons.{foreign_reason, file_reason};

use mesh_scan::{Foreign, MeshFault};
use obj_read::ObjFault;
use obj_scan::ScanFault;
use ply_read::PlyFault;
use stl_read::StlFault;

// What is wrong with what is read of a line.
fn line_reason(fault: ObjFault) -> &'static [u8]
    ensures value { result.now ≡ line_reason fault }
    ensures short { length result.now ≤ 40 }
{
    match fault {
        ObjFault::LineTooLong => b"more than 65,536 bytes",
        ObjFault::Continuation => b"continued, but the text ends",
        ObjFault::TooFewFields => b"fewer than three fields",
        ObjFault::BadNumber => b"a field is no number",
        ObjFault::NotWhole => b"a coordinate isn't whole",
        ObjFault::OutOfRange => b"a number is out of range",
        ObjFault::BadIndex => b"there is no such vertex",
        ObjFault::NotTriangle => b"more than three corners",
        ObjFault::TooMany => b"too many vertices, triangles or bytes",
        ObjFault::RepeatedCorner => b"a vertex is named twice",
    }
}

// What is wrong with a line.
fn scan_reason(fault: ScanFault) -> &'static [u8]
    ensures value { result.now ≡ scan_reason fault }
    ensures short { length result.now ≤ 40 }
{
    match fault {
        ScanFault::Line(fault) => line_reason(fault),
        ScanFault::SixteenBits => b"16 bits a letter, not UTF-8",
        ScanFault::LoneReturn => b"a CR inside the line",
        ScanFault::GarbledWord => b"the first word is garbled",
    }
}

// What is wrong with an STL file.
fn stl_reason(fault: StlFault) -> &'static [u8]
    ensures value { result.now ≡ stl_reason fault }
    ensures short { length result.now ≤ 40 }
{
    match fault {
        StlFault::CutOff => b"the file ends early",
        StlFault::MoreBytes => b"bytes follow the last facet",
        StlFault::NotFinite => b"a coordinate is NaN or infinite",
        StlFault::TooLarge => b"a coordinate is above 10^14",
        StlFault::TooManyVertices => b"more than 1,048,576 vertices",
        StlFault::TooManyFaces => b"more than 1,048,576 triangles",
        StlFault::UnexpectedWord => b"not the line that comes next",
        StlFault::BadNumber => b"a coordinate is no number",
    }
}

// What is wrong with a PLY file.
fn ply_reason(fault: PlyFault) -> &'static [u8]
    ensures value { result.now ≡ ply_reason fault }
    ensures short { length result.now ≤ 40 }
{
    match fault {
        PlyFault::NotPly => b"the first line isn't ply",
        PlyFault::CutOff => b"the file ends early",
        PlyFault::UnexpectedLine => b"an unknown line in the header",
        PlyFault::UnknownFormat => b"an unknown format or version",
        PlyFault::UnknownType => b"an unknown type of a property",
        PlyFault::BadNumber => b"no number, or no whole one from 0 on",
        PlyFault::UnexpectedProperty => b"a property out of place",
        PlyFault::MissingProperty => b"x, y, z or vertex_indices is missing",
        PlyFault::UnexpectedElement => b"an element twice, or face before vertex",
        PlyFault::NoVertices => b"there is no element vertex",
        PlyFault::TriangleStrips => b"triangle strips aren't read",
        PlyFault::TooManyVertices => b"more than 1,048,576 vertices",
        PlyFault::TooManyTriangles => b"more than 1,048,576 triangles",
        PlyFault::BadIndex => b"there is no such vertex",
        PlyFault::NotFinite => b"a coordinate is NaN or infinite",
        PlyFault::TooLarge => b"a coordinate is above 10^14",
    }
}

// What a file is that isn't read.
fn foreign_reason(kind: Foreign) -> &'static [u8]
    ensures value { result.now ≡ foreign_reason kind }
    ensures short { length result.now ≤ 40 }
{
    match kind {
        Foreign::Gltf => b"a glTF file, which isn't read",
        Foreign::Off => b"an OFF file, which isn't read",
        Foreign::Fbx => b"an FBX file, which isn't read",
        Foreign::ThreeDs => b"a 3DS file, which isn't read",
        Foreign::Zip => b"a ZIP archive: unpack it",
        Foreign::Gzip => b"a gzip file: unpack it by gunzip",
        Foreign::Png => b"a PNG picture, no mesh",
        Foreign::Jpeg => b"a JPEG picture, no mesh",
        Foreign::Gif => b"a GIF picture, no mesh",
        Foreign::Tiff => b"a TIFF picture, no mesh",
        Foreign::Pdf => b"a PDF document, no mesh",
        Foreign::Json => b"JSON, perhaps glTF, which isn't read",
    }
}

/// What is wrong with a file, in at most 40 bytes.
pub(crate) fn file_reason(fault: MeshFault) -> &'static [u8]
    ensures value { result.now ≡ file_reason fault }
    ensures short { length result.now ≤ 40 }
{
    match fault {
        MeshFault::Obj(fault, _) => scan_reason(fault),
        MeshFault::Stl(fault, _) => stl_reason(fault),
        MeshFault::Ply(fault, _) => ply_reason(fault),
        MeshFault::Foreign(kind) => foreign_reason(kind),
        MeshFault::TooLong => b"more than 1,073,741,824 bytes",
    }
}
