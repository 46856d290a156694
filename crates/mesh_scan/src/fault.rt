//! The faults of a file, and why none was read.
ghost use Rattle.std.specs.Prelude.{◌≡◌};
ghost use Rattle.mesh_scan.specs.Fails.{of_text};

use crate::format::Foreign;
use obj_scan::{ScanFail, ScanFault};
use ply_read::{PlyFault, Spot};
use stl_read::StlFault;

/// What is wrong with a file.
#[derive(Clone, Copy, Debug, PartialEq, Eq)]
pub enum MeshFault {
    /// This line of an OBJ text, counted from 1, has this fault.
    Obj(ScanFault, u32),
    /// An STL file has this fault first, at a line of a text and else at a byte.
    Stl(StlFault, Spot),
    /// A PLY file has this fault first, at a line of its header or of a text, and else at a byte.
    Ply(PlyFault, Spot),
    /// The file is of this kind.
    Foreign(Foreign),
    /// An STL or PLY file has more than 1,073,741,824 bytes.
    TooLong,
}

/// Why a file gave no points and triangles.
#[derive(Clone, Copy, Debug, PartialEq, Eq)]
pub enum MeshFail {
    /// It has this fault.
    Fault(MeshFault),
    /// The source failed, and the bytes taken so far don't decide what the file gives.
    Read,
    /// Memory was wanting.
    OutOfMemory,
}

// The failure of an OBJ text.
pub(crate) fn of_text(fail: ScanFail) -> MeshFail
    ensures { result ≡ of_text fail }
{
    match fail {
        ScanFail::Fault { fault, line } => MeshFail::Fault(MeshFault::Obj(fault, line)),
        ScanFail::Read => MeshFail::Read,
        ScanFail::OutOfMemory => MeshFail::OutOfMemory,
    }
}
