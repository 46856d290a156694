//! The lines of a text, one after the other: what they gave so far, and those that the next one
//! continues.
ghost use Rattle.std.specs.Prelude.{ℕ, ◌≡◌, ◌+◌, ◌-◌, ◌<◌, ◌≤◌, ◌++◌, ◌∷◌, [], length, true};
ghost use Rattle.std.specs.Prelude.{take, Ok, OnOk, IfErr};
ghost use Rattle.std.specs.List.{All};
ghost use Rattle.pm_base.specs.declared.limits.TheConstants.{MOST_FACES, MOST_VERTICES};
ghost use Rattle.obj_lines.specs.Text.{is_continued};
ghost use Rattle.obj_lines.specs.Fails.{IsLineFault as IsTextFault};
ghost use Rattle.obj_read.specs.Fails.{IsLineFault};
ghost use Rattle.obj_read.specs.Fields.{fields};
ghost use Rattle.obj_scan.specs.Fails.{scanned_of};
ghost use Rattle.obj_scan.specs.Judged.{Found, scanned_vertex_line, polygon_line, polygons_after};
ghost use Rattle.obj_scan.specs.Judged.{in_line, inexact_after, other_line, with_scanned};
ghost use Rattle.obj_scan.specs.Reading.{IsScanning, given, scanned_after, held_of, nothing_held};
ghost use Rattle.obj_scan.specs.Reading.{taken};

use crate::OutOfMemory;
use crate::fault::{ScanFault, of_line};
use crate::fields::{face_line, vertex_line};
use crate::passed::{PassedOver, is_garbled, kind_of};
use crate::polygons::push_polygon;
use crate::scan::Scan;
use obj_lines::{LineFault, MOST_LINE_BYTES, TextFail, is_continued};
use obj_read::{ObjFail, ObjFault, is_letter, next_field};
use pm_ears::Polygon;
use std::alloc::Global;

/// What the lines so far gave, how many of them the next one continues, and what these say. The
/// corners are those of the last face: their room is used again.
#[derive(Drop)]
pub struct Scanner {
    pub scan: Scan,
    pub continued: u32,
    pub begun: Vec<u8>,
    pub corners: Vec<u32>,
}

// One more than so many, where a point isn't exact.
fn inexact_after(n: u32, exact: bool) -> u32
    requires { n < MOST_VERTICES }
    ensures { result ≡ inexact_after n exact }
{
    if exact { n } else { n + 1 }
}

// Takes a vertex.
fn take_vertex(scan: &mut Scan, text: &[u8], line: u32) -> Result<(), ObjFail>
    requires scanning { IsScanning line (scanned_of scan.old) }
    ensures ok { OnOk result
        (given (scanned_of scan.old) line
        (in_line (scanned_vertex_line (length scan.old.points.items) (fields text.now)))
        ≡ Ok (scanned_of scan.new)) }
    ensures scanning { OnOk result (IsScanning (line + 1) (scanned_of scan.new)) }
    ensures fault { IfErr result
        (λ e. IsLineFault e line
        (scanned_vertex_line (length scan.old.points.items) (fields text.now))) }
{
    match vertex_line(scan.points.len() as u32, text) {
        Err(fault) => Err(ObjFail::Fault { fault, line }),
        Ok(vertex) => {
            scan.passed.take(line, vertex.passed);
            scan.inexact = inexact_after(scan.inexact, vertex.exact);
            match scan.points.push(vertex.point) {
                Ok(()) => Ok(()),
                Err(_) => Err(ObjFail::OutOfMemory),
            }
        }
    }
}

// Notes where the triangles of a face of more than three corners begin, after so many.
fn note_polygon(polygons: &mut Vec<Polygon>, faces: u32, corners: &[u32]) -> Result<(), OutOfMemory>
    requires { length corners.now ≤ MOST_FACES + 2 }
    ensures { OnOk result
        (polygons.new.items ≡ polygons_after polygons.old.items faces corners.now) }
{
    if corners.len() > 3 {
        polygons.push(Polygon {
            first: faces,
            triangles: (corners.len() - 2) as u32,
        })?;
    }
    Ok(())
}

// Puts down the triangles of a face, and notes where they stand if it has more than three corners.
fn put_face(scan: &mut Scan, corners: &mut Vec<u32>) -> Result<(), OutOfMemory>
    requires within { All (λ (c : ℕ). c < length scan.old.points.items) corners.old.items }
    requires room { length scan.old.faces.items + (length corners.old.items - 2) ≤ MOST_FACES }
    ensures { OnOk result
        ((line : ℕ) → scanned_of scan.new
        ≡ with_scanned (scanned_of scan.old) line (Found.polygon corners.old.items)) }
{
    note_polygon(&mut scan.polygons, scan.faces.len() as u32, corners)?;
    push_polygon(&scan.points, &mut scan.faces, corners)
}

// Takes a face.
fn take_face(scan: &mut Scan, corners: &mut Vec<u32>, text: &[u8], line: u32) -> Result<(), ObjFail>
    requires scanning { IsScanning line (scanned_of scan.old) }
    ensures ok { OnOk result
        (given (scanned_of scan.old) line
        (in_line (polygon_line (length scan.old.points.items) (length scan.old.faces.items)
        (fields text.now))) ≡ Ok (scanned_of scan.new)) }
    ensures scanning { OnOk result (IsScanning (line + 1) (scanned_of scan.new)) }
    ensures fault { IfErr result
        (λ e. IsLineFault e line
        (polygon_line (length scan.old.points.items) (length scan.old.faces.items)
        (fields text.now))) }
{
    let (vertices, faces) = (scan.points.len() as u32, scan.faces.len() as u32);
    face_line(vertices, faces, text, line, corners)?;
    match put_face(scan, corners) {
        Ok(()) => Ok(()),
        Err(_) => Err(ObjFail::OutOfMemory),
    }
}

// Takes a line that is neither a vertex nor a face.
#[tactic(auto, unfolding(crate::specs::Judged::other_line))]
fn take_other(scan: &mut Scan, keyword: &[u8], line: u32) -> Result<(), TextFail<ScanFault>>
    requires scanning { IsScanning line (scanned_of scan.old) }
    ensures ok { OnOk result (given (scanned_of scan.old) line (other_line keyword.now)
        ≡ Ok (scanned_of scan.new)) }
    ensures scanning { OnOk result (IsScanning (line + 1) (scanned_of scan.new)) }
    ensures fault { IfErr result
        (λ e. IsTextFault e (given (scanned_of scan.old) line (other_line keyword.now))) }
{
    if is_garbled(keyword) {
        return Err(TextFail::Fault(LineFault {
            fault: ScanFault::GarbledWord,
            line,
        }));
    }
    scan.passed.take(line, Some(kind_of(keyword)));
    Ok(())
}

// Takes what a text gives.
#[tactic(auto, unfolding(crate::specs::Reading::scanned_after, crate::specs::Judged::scanned_line), using(crate::proofs::ScanLaws::given_fault))]
fn take_text(
    scan: &mut Scan,
    corners: &mut Vec<u32>,
    text: &[u8],
    line: u32,
) -> Result<(), TextFail<ScanFault>>
    requires scanning { IsScanning line (scanned_of scan.old) }
    ensures ok { OnOk result (scanned_after (scanned_of scan.old) line text.now
        ≡ Ok (scanned_of scan.new)) }
    ensures scanning { OnOk result (IsScanning (line + 1) (scanned_of scan.new)) }
    ensures fault { IfErr result
        (λ e. IsTextFault e (scanned_after (scanned_of scan.old) line text.now)) }
{
    let Some((keyword, rest)) = next_field(text) else {
        return Ok(());
    };
    let taken = if is_letter(b'v', keyword) {
        take_vertex(scan, rest, line)
    } else if is_letter(b'f', keyword) {
        take_face(scan, corners, rest, line)
    } else {
        return take_other(scan, keyword, line);
    };
    match taken {
        Ok(()) => Ok(()),
        Err(fail) => Err(of_line(fail)),
    }
}

// Puts down what is read of a line that is continued, with a blank for its backslash.
fn join_continued(begun: &mut Vec<u8>, text: &[u8]) -> Result<(), OutOfMemory>
    requires continued { is_continued text.now ≡ true }
    ensures { OnOk result
        (begun.new.items ≡ take (length (begun.old.items ++ text.now) - 1) (begun.old.items
        ++ text.now) ++ 32 ∷ []) }
{
    let most = text.len().saturating_sub(1);
    begun.extend_from_slice(&text[..most])?;
    begun.push(b' ')?;
    Ok(())
}

impl Scanner {
    /// Before the first line.
    pub fn new(alloc: Global) -> Scanner
        ensures { held_of result ≡ nothing_held }
    {
        Scanner {
            scan: Scan {
                points: Vec::new(alloc),
                inexact: 0,
                faces: Vec::new(alloc),
                polygons: Vec::new(alloc),
                passed: PassedOver::new(),
            },
            continued: 0,
            begun: Vec::new(alloc),
            corners: Vec::new(alloc),
        }
    }

    // Takes what a line gives that isn't continued, with the lines that it continues.
    fn take_joined(&mut self, text: &[u8], line: u32) -> Result<(), TextFail<ScanFault>>
        requires scanning { IsScanning line (scanned_of self.old.scan) }
        ensures ok { OnOk result
            (scanned_after (scanned_of self.old.scan) line (self.old.begun.items ++ text.now)
            ≡ Ok (scanned_of self.new.scan)) }
        ensures scanning { OnOk result (IsScanning (line + 1) (scanned_of self.new.scan)) }
        ensures begun { OnOk result (self.new.begun.items ≡ []) }
        ensures continued { OnOk result (self.new.continued ≡ 0) }
        ensures fault { IfErr result
            (λ e. IsTextFault e
            (scanned_after (scanned_of self.old.scan) line (self.old.begun.items ++ text.now))) }
    {
        self.continued = 0;
        if self.begun.is_empty() {
            return take_text(&mut self.scan, &mut self.corners, text, line);
        }
        if self.begun.extend_from_slice(text).is_err() {
            return Err(TextFail::OutOfMemory);
        }
        match take_text(&mut self.scan, &mut self.corners, &self.begun, line) {
            Err(fail) => Err(fail),
            Ok(()) => {
                self.begun.clear();
                Ok(())
            }
        }
    }

    /// Takes one line more: this is what is read of it, and its number. A fault of what is read has
    /// the number of the first of the lines that go together.
    #[tactic(auto, unfolding(crate::specs::Reading::taken), using(crate::proofs::ScanLaws::ended_fault))]
    pub fn take_content(&mut self, text: &[u8], number: u32) -> Result<(), TextFail<ScanFault>>
        requires continued { self.old.continued < number }
        requires scanning { IsScanning (number - self.old.continued) (scanned_of self.old.scan) }
        ensures ok { OnOk result (taken (number - self.old.continued) (held_of self.old) text.now
            ≡ Ok (held_of self.new)) }
        ensures continued { OnOk result (self.new.continued ≤ number) }
        ensures scanning { OnOk result
            (IsScanning (number + 1 - self.new.continued) (scanned_of self.new.scan)) }
        ensures fault { IfErr result
            (λ e. IsTextFault e (taken (number - self.old.continued) (held_of self.old) text.now)) }
    {
        let line = number - self.continued;
        if self.begun.len() + text.len() > MOST_LINE_BYTES {
            return Err(TextFail::Fault(LineFault {
                fault: ScanFault::Line(ObjFault::LineTooLong),
                line,
            }));
        }
        if !is_continued(text) {
            return self.take_joined(text, line);
        }
        match join_continued(&mut self.begun, text) {
            Err(_) => Err(TextFail::OutOfMemory),
            Ok(()) => {
                self.continued += 1;
                Ok(())
            }
        }
    }
}
