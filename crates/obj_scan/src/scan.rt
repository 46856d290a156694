//! Reads a text to its end.
ghost use Rattle.std.specs.Prelude.{◌≡◌, false, Ok, IfOk, IfErr, OnOk, IfSome};
ghost use Rattle.std.specs.Io.KnownBytes.{prepend_known};
ghost use Rattle.pm_io.specs.Bytes.{AtEnd};
ghost use Rattle.pm_io.specs.Causes.{HasCause};
ghost use Rattle.obj_scan.specs.Fails.{ExplainsScan, scanned_of};
ghost use Rattle.obj_scan.specs.Meaning.{scan_meaning_of, IsWithinLimits};
ghost use Rattle.obj_scan.specs.Refusals.{of_source};

use crate::fault::ScanFail;
use crate::passed::PassedOver;
use crate::scanner::Scanner;
use obj_lines::{TextFail, read_lines_after};
use obj_prepare::ExactPoint;
use pm_base::Corners;
use pm_ears::Polygon;
use pm_io::Source;
use std::alloc::Global;

/// What a text spells: points in units of 10^-18, and how many of them aren't exactly what was
/// spelled; triangles, where the fan of each face of more than three corners stands among them, and
/// how much was passed over.
#[derive(Drop)]
pub struct Scan {
    pub points: Vec<ExactPoint>,
    pub inexact: u32,
    pub faces: Vec<Corners>,
    pub polygons: Vec<Polygon>,
    pub passed: PassedOver,
}

/// Reads a source to its end, and answers the points and triangles that its bytes spell.
///
/// A byte order mark at the first byte is passed over; a text that begins as one of 16 bits a
/// letter is refused, and so is a
/// line with a CR that doesn't end it.
///
/// Lines that begin with neither `v` nor `f` are counted by what they are and passed over, but for
/// those whose first word is `v`, `vt`, `vn` or `f` once bytes that aren't letters are dropped:
/// these are refused. A line that ends in a backslash is continued by the next. A coordinate is the
/// nearest whole number of 10^-18, and vertices are counted that aren't exactly what their fields
/// spell. Of a vertex the first three are read; where one number more
/// stands there, which other programs divide by, it is counted if it isn't 1, and passed over; so
/// are colours. A polygon is cut into triangles, begun at the corner whose point is least.
///
/// All bytes that are held are judged before more are asked for, so a fault is answered as soon as
/// the byte that shows it has come. However the source cuts its bytes, the answer is the same.
///
/// Each byte, and each corner, is looked at a constant number of times. Memory is taken for the
/// window, for one line, for lines that are continued, for the corners of one face, and for what is
/// read.
pub fn scan_obj<S: Source>(alloc: Global, source: &mut S) -> Result<Scan, ScanFail>
    requires { S.ended source.old ≡ false }
    ensures ok { IfOk result
        (λ s. IfSome (S.left source.old) (λ bytes. scan_meaning_of bytes ≡ Ok (scanned_of s))) }
    ensures within { IfOk result (λ s. IsWithinLimits (scanned_of s)) }
    ensures end { OnOk result (AtEnd (S.left source.new)) }
    ensures err { IfErr result (λ e. ExplainsScan e (S.left source.old) (S.left source.new)) }
    ensures cause { HasCause (S.faults source.old) (S.faults source.new) (of_source result) }
{
    scan_obj_after(alloc, &[], source)
}

/// Reads bytes that were taken from a source, and then the source to its end, as `scan_obj` reads
/// all of them.
pub fn scan_obj_after<S: Source>(
    alloc: Global,
    first: &[u8],
    source: &mut S,
) -> Result<Scan, ScanFail>
    requires { S.ended source.old ≡ false }
    ensures ok { IfOk result (λ s. IfSome (prepend_known first.now (S.left source.old))
        (λ bytes. scan_meaning_of bytes ≡ Ok (scanned_of s))) }
    ensures within { IfOk result (λ s. IsWithinLimits (scanned_of s)) }
    ensures end { OnOk result (AtEnd (S.left source.new)) }
    ensures err { IfErr result
        (λ e. ExplainsScan e (prepend_known first.now (S.left source.old)) (S.left source.new)) }
    ensures cause { HasCause (S.faults source.old) (S.faults source.new) (of_source result) }
{
    let mut scanner = Scanner::new(alloc);
    match read_lines_after(alloc, first, source, &mut scanner) {
        Ok(_) => Ok(scanner.scan),
        Err(TextFail::Fault(why)) => Err(ScanFail::Fault {
            fault: why.fault,
            line: why.line,
        }),
        Err(TextFail::Read) => Err(ScanFail::Read),
        Err(TextFail::OutOfMemory) => Err(ScanFail::OutOfMemory),
    }
}
