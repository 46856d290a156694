//! Headers.
ghost use Rattle.std.specs.Prelude.{◌≡◌, ◌<◌, ◌+◌, ◌^◌, IfOk, IfErr, OnOk, Ok, length};
ghost use Rattle.obj_read.specs.Fields.{fields};
ghost use Rattle.ply_read.specs.Lines.{lines, one, two, three};
ghost use Rattle.ply_read.specs.Header.{at_start, format_line, with_element, element_of};
ghost use Rattle.ply_read.specs.Header.{element_line, single, list_of, property_of, list_line};
ghost use Rattle.ply_read.specs.Header.{single_line, property_line, after_words, ended};
ghost use Rattle.ply_read.specs.Header.{from_line, header_of};
ghost use Rattle.ply_read.specs.Meaning.{Explains, so_far_of, header_in};

use crate::OutOfMemory;
use crate::declared::{Declared, Element, Encoding, Kind, PlyHeader, Property, Role, ScalarType};
use crate::fault::{PlyFail, PlyFault, Refused, Spot};
use crate::lines::{is_only, is_word, next_line, one, three, two, without_cr};
use crate::names::{encoding_of, kind_of, role_of, type_of};
use crate::opening::{Opening, is_whole_type};
use obj_read::next_field;
use pm_base::MOST_VERTICES;
use pm_io::read_unsigned;
use std::alloc::Global;

/// What the lines so far say.
#[derive(Drop)]
pub(crate) struct HeaderReader {
    pub encoding: Option<Encoding>,
    pub declared: Vec<Declared>,
    pub opening: Opening,
    pub vertices: bool,
    pub faces: bool,
}

fn refused(fault: PlyFault, line: usize) -> PlyFail
    ensures { result ≡ PlyFail.Fault (record { fault = fault; spot = Spot.Line line }) }
{
    PlyFail::Fault(Refused {
        fault,
        spot: Spot::Line(line),
    })
}

fn single(role: Role, item: Option<ScalarType>) -> Option<Property>
    ensures { result ≡ single role item }
{
    let item = item?;
    Some(Property {
        role,
        length: None,
        item,
    })
}

fn list_of(role: Role, count: Option<ScalarType>, item: Option<ScalarType>) -> Option<Property>
    ensures { result ≡ list_of role count item }
{
    let (count, item) = (count?, item?);
    if is_whole_type(count) {
        Some(Property {
            role,
            length: Some(count),
            item,
        })
    } else {
        None
    }
}

impl HeaderReader {
    fn new(alloc: Global) -> HeaderReader
        ensures { so_far_of result ≡ at_start }
    {
        HeaderReader {
            encoding: None,
            declared: Vec::new(alloc),
            opening: Opening::Nothing,
            vertices: false,
            faces: false,
        }
    }

    // Takes what follows `format`.
    fn take_format(&mut self, rest: &[u8], line: usize) -> Result<(), PlyFail>
        ensures ok { OnOk result
            (format_line line (so_far_of self.old) (two (fields rest.now))
            ≡ Ok (so_far_of self.new)) }
        ensures err { IfErr result
            (Explains (format_line line (so_far_of self.old) (two (fields rest.now)))) }
    {
        let Some((format, version)) = two(rest) else {
            return Err(refused(PlyFault::UnexpectedLine, line));
        };
        if !is_word(b"1.0", version) {
            return Err(refused(PlyFault::UnknownFormat, line));
        }
        if self.encoding.is_some() {
            return Err(refused(PlyFault::UnexpectedLine, line));
        }
        match encoding_of(format) {
            Some(encoding) => {
                self.encoding = Some(encoding);
                Ok(())
            }
            None => Err(refused(PlyFault::UnknownFormat, line)),
        }
    }

    // Puts down elements of a kind.
    fn open(&mut self, kind: Kind, count: u32) -> Result<(), OutOfMemory>
        ensures { OnOk result (so_far_of self.new ≡ with_element (so_far_of self.old) kind count) }
    {
        self.opening = Opening::new(kind);
        self.declared
            .push(Declared::Element(Element { kind, count }))?;
        Ok(())
    }

    // Takes elements of a kind.
    #[tactic(auto, unfolding(crate::specs::Header::element_of))]
    fn take_kind(&mut self, kind: Kind, count: u32, line: usize) -> Result<(), PlyFail>
        ensures ok { OnOk result
            (element_of line (so_far_of self.old) kind count ≡ Ok (so_far_of self.new)) }
        ensures err { IfErr result (Explains (element_of line (so_far_of self.old) kind count)) }
    {
        match kind {
            Kind::Vertex => {
                if self.vertices {
                    return Err(refused(PlyFault::UnexpectedElement, line));
                }
                if count > MOST_VERTICES {
                    return Err(refused(PlyFault::TooManyVertices, line));
                }
                self.vertices = true;
            }
            Kind::Face => {
                if self.faces || !self.vertices {
                    return Err(refused(PlyFault::UnexpectedElement, line));
                }
                self.faces = true;
            }
            Kind::Other => {}
        }
        match self.open(kind, count) {
            Ok(()) => Ok(()),
            Err(_) => Err(PlyFail::OutOfMemory),
        }
    }

    // Takes what follows `element`.
    fn take_element(&mut self, rest: &[u8], line: usize) -> Result<(), PlyFail>
        ensures ok { OnOk result
            (element_line line (so_far_of self.old) (two (fields rest.now))
            ≡ Ok (so_far_of self.new)) }
        ensures err { IfErr result
            (Explains (element_line line (so_far_of self.old) (two (fields rest.now)))) }
    {
        let Some((name, count)) = two(rest) else {
            return Err(refused(PlyFault::UnexpectedLine, line));
        };
        if !self.opening.is_complete() {
            return Err(refused(PlyFault::MissingProperty, line));
        }
        if is_word(b"tristrips", name) {
            return Err(refused(PlyFault::TriangleStrips, line));
        }
        match read_unsigned(count, u32::MAX) {
            Some(count) => self.take_kind(kind_of(name), count, line),
            None => Err(refused(PlyFault::BadNumber, line)),
        }
    }

    // Takes a property, if the line has one.
    fn take_property(&mut self, p: Option<Property>, line: usize) -> Result<(), PlyFail>
        ensures ok { OnOk result
            (property_of line (so_far_of self.old) p ≡ Ok (so_far_of self.new)) }
        ensures err { IfErr result (Explains (property_of line (so_far_of self.old) p)) }
    {
        let Some(p) = p else {
            return Err(refused(PlyFault::UnknownType, line));
        };
        let Some(opening) = self.opening.with_property(p) else {
            return Err(refused(PlyFault::UnexpectedProperty, line));
        };
        self.opening = opening;
        match self.declared.push(Declared::Property(p)) {
            Ok(()) => Ok(()),
            Err(_) => Err(PlyFail::OutOfMemory),
        }
    }

    // Takes what follows `property`.
    #[tactic(auto, unfolding(crate::specs::Header::property_line))]
    fn take_property_line(&mut self, rest: &[u8], line: usize) -> Result<(), PlyFail>
        ensures ok { OnOk result
            (property_line line (so_far_of self.old) (fields rest.now)
            ≡ Ok (so_far_of self.new)) }
        ensures err { IfErr result
            (Explains (property_line line (so_far_of self.old) (fields rest.now))) }
    {
        let Some((first, rest)) = next_field(rest) else {
            return Err(refused(PlyFault::UnexpectedLine, line));
        };
        if is_word(b"list", first) {
            match three(rest) {
                Some((count, item, name)) => {
                    let p = list_of(role_of(name), type_of(count), type_of(item));
                    self.take_property(p, line)
                }
                None => Err(refused(PlyFault::UnexpectedLine, line)),
            }
        } else {
            match one(rest) {
                Some(name) => self.take_property(single(role_of(name), type_of(first)), line),
                None => Err(refused(PlyFault::UnexpectedLine, line)),
            }
        }
    }

    // Takes a line.
    #[tactic(auto, unfolding(crate::specs::Header::after_words))]
    fn take(&mut self, text: &[u8], line: usize) -> Result<(), PlyFail>
        ensures ok { OnOk result
            (after_words line (so_far_of self.old) (fields text.now) ≡ Ok (so_far_of self.new)) }
        ensures err { IfErr result
            (Explains (after_words line (so_far_of self.old) (fields text.now))) }
    {
        let Some((word, rest)) = next_field(text) else {
            return Ok(());
        };
        if is_word(b"comment", word) || is_word(b"obj_info", word) {
            Ok(())
        } else if is_word(b"format", word) {
            self.take_format(rest, line)
        } else if is_word(b"element", word) {
            self.take_element(rest, line)
        } else if is_word(b"property", word) {
            self.take_property_line(rest, line)
        } else {
            Err(refused(PlyFault::UnexpectedLine, line))
        }
    }

    // What the lines say, and the bytes after them, where nothing lacks.
    #[tactic(auto, unfolding(crate::specs::Header::ended))]
    fn finish(self, body: &[u8], line: usize) -> Result<(PlyHeader, &[u8]), PlyFail>
        ensures ok { IfOk result
            (λ r. ended line (so_far_of self) body.now ≡ Ok (header_in r.0 r.1.now)) }
        ensures err { IfErr result (Explains (ended line (so_far_of self) body.now)) }
    {
        if !self.opening.is_complete() {
            return Err(refused(PlyFault::MissingProperty, line));
        }
        if !self.vertices {
            return Err(refused(PlyFault::NoVertices, line));
        }
        match self.encoding {
            Some(encoding) => {
                let declared = self.declared;
                Ok((PlyHeader { encoding, declared }, body))
            }
            None => Err(refused(PlyFault::UnknownFormat, line)),
        }
    }
}

// The header whose second line begins here, and the bytes after it.
#[tactic(auto, using(crate::proofs::LineLaws::lines_next, crate::proofs::LineLaws::lines_fail, crate::proofs::LineLaws::lines_end, crate::proofs::LineLaws::lines_done))]
fn read_lines(alloc: Global, bytes: &[u8]) -> Result<(PlyHeader, &[u8]), PlyFail>
    requires { length (lines bytes.now) + 2 < 2 ^ 64 }
    ensures ok { IfOk result
        (λ r. from_line 2 at_start (lines bytes.now) ≡ Ok (header_in r.0 r.1.now)) }
    ensures err { IfErr result (Explains (from_line 2 at_start (lines bytes.now))) }
{
    let mut reader = HeaderReader::new(alloc);
    let (mut rest, mut line) = (bytes, 2);
    while let Some((text, after)) = next_line(rest) {
        let text = without_cr(text);
        if is_only(b"end_header", text) {
            return reader.finish(after, line);
        }
        match reader.take(text, line) {
            Ok(()) => {}
            Err(fail) => return Err(fail),
        }
        rest = after;
        line += 1;
    }
    Err(refused(PlyFault::CutOff, line))
}

/// What the header of a file tells, and the bytes after it, or its first fault, with its line.
/// Linear in the bytes of the header.
#[tactic(auto, unfolding(crate::specs::Header::header_of), using(crate::proofs::LineLaws::lines_few))]
pub fn read_header(alloc: Global, bytes: &[u8]) -> Result<(PlyHeader, &[u8]), PlyFail>
    ensures ok { IfOk result (λ r. header_of bytes.now ≡ Ok (header_in r.0 r.1.now)) }
    ensures err { IfErr result (Explains (header_of bytes.now)) }
{
    match next_line(bytes) {
        Some((text, after)) if is_only(b"ply", without_cr(text)) => read_lines(alloc, after),
        _ => Err(refused(PlyFault::NotPly, 1)),
    }
}
