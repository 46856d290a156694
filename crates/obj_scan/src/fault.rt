//! The faults of a text, and why none was read.
ghost use Rattle.std.specs.Prelude.{◌≡◌};
ghost use Rattle.obj_scan.specs.Refusals.{fault_number, of_line};

use obj_lines::{LineFault, TextFail};
use obj_read::{ObjFail, ObjFault};

/// What is wrong with a line.
#[derive(Clone, Copy, Debug, PartialEq, Eq)]
pub enum ScanFault {
    /// What is read of the line has this fault.
    Line(ObjFault),
    /// It is the first line and begins with FF FE or FE FF, as a text of 16 bits a letter does.
    SixteenBits,
    /// A CR stands in the line that doesn't end it.
    LoneReturn,
    /// The first word is `v`, `vt`, `vn` or `f` but for bytes that aren't letters.
    GarbledWord,
}

impl ScanFault {
    /// The number by which programs tell the fault. The faults of what is read have their numbers
    /// in `obj_read`, of which 10 doesn't come here; 12 is that no face comes out.
    pub fn number(self) -> u32
        ensures { result ≡ fault_number self }
    {
        match self {
            ScanFault::Line(fault) => fault.number(),
            ScanFault::SixteenBits => 10,
            ScanFault::LoneReturn => 11,
            ScanFault::GarbledWord => 13,
        }
    }
}

/// Why a text gave no points and triangles.
#[derive(Clone, Copy, Debug, PartialEq, Eq)]
pub enum ScanFail {
    /// The line, counted from 1, is the first with a fault, and has this one first.
    Fault { fault: ScanFault, line: u32 },
    /// The source failed, and the bytes taken so far don't reach the place of the first fault.
    Read,
    /// Memory was wanting.
    OutOfMemory,
}

// The failure of what is read of a line.
pub(crate) fn of_line(fail: ObjFail) -> TextFail<ScanFault>
    ensures { result ≡ of_line fail }
{
    match fail {
        ObjFail::Fault { fault, line } => TextFail::Fault(LineFault {
            fault: ScanFault::Line(fault),
            line,
        }),
        ObjFail::Read => TextFail::Read,
        ObjFail::OutOfMemory => TextFail::OutOfMemory,
    }
}
