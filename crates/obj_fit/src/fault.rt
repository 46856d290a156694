//! Why nothing is made of a file.
ghost use Rattle.std.specs.Prelude.{◌≡◌, ◌≤◌, length};
ghost use Rattle.obj_fit.specs.Fails.{stl_number, ply_number, file_number, number_of, told};
ghost use Rattle.obj_fit.specs.Fails.{line_at, byte_at, line_of, byte_of};
ghost use Rattle.obj_fit.specs.Reasons.{reason_of};

use crate::reason::file_reason;
use mesh_scan::MeshFault;
use ply_read::{PlyFault, Spot};
use stl_read::StlFault;

fn stl_number(fault: StlFault) -> u32
    ensures { result ≡ stl_number fault }
{
    match fault {
        StlFault::CutOff => 21,
        StlFault::MoreBytes => 22,
        StlFault::NotFinite => 23,
        StlFault::TooLarge => 24,
        StlFault::TooManyVertices => 25,
        StlFault::TooManyFaces => 26,
        StlFault::UnexpectedWord => 27,
        StlFault::BadNumber => 28,
    }
}

fn ply_number(fault: PlyFault) -> u32
    ensures { result ≡ ply_number fault }
{
    match fault {
        PlyFault::NotPly => 41,
        PlyFault::CutOff => 42,
        PlyFault::UnexpectedLine => 43,
        PlyFault::UnknownFormat => 44,
        PlyFault::UnknownType => 45,
        PlyFault::BadNumber => 46,
        PlyFault::UnexpectedProperty => 47,
        PlyFault::MissingProperty => 48,
        PlyFault::UnexpectedElement => 49,
        PlyFault::NoVertices => 50,
        PlyFault::TriangleStrips => 51,
        PlyFault::TooManyVertices => 52,
        PlyFault::TooManyTriangles => 53,
        PlyFault::BadIndex => 54,
        PlyFault::NotFinite => 55,
        PlyFault::TooLarge => 56,
    }
}

fn file_number(fault: MeshFault) -> u32
    ensures { result ≡ file_number fault }
{
    match fault {
        MeshFault::Obj(fault, _) => fault.number(),
        MeshFault::Stl(fault, _) => stl_number(fault),
        MeshFault::Ply(fault, _) => ply_number(fault),
        MeshFault::Foreign(_) => 14,
        MeshFault::TooLong => 15,
    }
}

// The number of a line or byte, up to the greatest that is told.
fn told(n: usize) -> u32
    ensures { result ≡ told n }
{
    u32::try_from(n).unwrap_or(u32::MAX)
}

fn line_at(spot: Spot) -> Option<u32>
    ensures { result ≡ line_at spot }
{
    match spot {
        Spot::Line(n) => Some(told(n)),
        Spot::Byte(_) => None,
    }
}

fn byte_at(spot: Spot) -> Option<u32>
    ensures { result ≡ byte_at spot }
{
    match spot {
        Spot::Line(_) => None,
        Spot::Byte(n) => Some(told(n)),
    }
}

/// A fault of the input.
#[derive(Clone, Copy, Debug, PartialEq, Eq)]
pub enum Fault {
    /// The file has this fault.
    File(MeshFault),
    /// More vertices come out than a mesh may have.
    TooMany,
    /// No face comes out.
    NoFaces,
}

impl Fault {
    /// The number by which programs tell the fault.
    pub fn number(self) -> u32
        ensures { result ≡ number_of self }
    {
        match self {
            Fault::File(fault) => file_number(fault),
            Fault::TooMany => 9,
            Fault::NoFaces => 12,
        }
    }

    /// What is wrong, in at most 40 bytes.
    pub fn reason(self) -> &'static [u8]
        ensures value { result.now ≡ reason_of self }
        ensures short { length result.now ≤ 40 }
    {
        match self {
            Fault::File(fault) => file_reason(fault),
            Fault::TooMany => b"more than 1,048,576 vertices come out",
            Fault::NoFaces => b"no face is left",
        }
    }

    /// The line that has it, counted from 1, where one line has, up to 4,294,967,295.
    pub fn line(self) -> Option<u32>
        ensures { result ≡ line_of self }
    {
        match self {
            Fault::File(MeshFault::Obj(_, line)) => Some(line),
            Fault::File(MeshFault::Stl(_, spot)) => line_at(spot),
            Fault::File(MeshFault::Ply(_, spot)) => line_at(spot),
            Fault::File(MeshFault::Foreign(_)) => None,
            Fault::File(MeshFault::TooLong) => None,
            Fault::TooMany => None,
            Fault::NoFaces => None,
        }
    }

    /// The byte that has it, counted from 0, where one byte has, up to 4,294,967,295.
    pub fn byte(self) -> Option<u32>
        ensures { result ≡ byte_of self }
    {
        match self {
            Fault::File(MeshFault::Obj(_, _)) => None,
            Fault::File(MeshFault::Stl(_, spot)) => byte_at(spot),
            Fault::File(MeshFault::Ply(_, spot)) => byte_at(spot),
            Fault::File(MeshFault::Foreign(_)) => None,
            Fault::File(MeshFault::TooLong) => None,
            Fault::TooMany => None,
            Fault::NoFaces => None,
        }
    }
}

/// Why nothing was made of the input.
#[derive(Clone, Copy, Debug, PartialEq, Eq)]
pub enum InputFail {
    /// It has this fault, or too much or nothing would come of it.
    Faulty(Fault),
    /// A read failed before the bytes that decide what comes of it.
    Read,
    /// Memory was wanting.
    OutOfMemory,
}
