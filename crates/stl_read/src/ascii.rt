//! Texts.
ghost use Rattle.std.specs.Prelude.{◌≡◌, ◌≤◌, ◌^◌, ◌∷◌, [], IfOk, OnOk, IfErr, MatchOption, None};
ghost use Rattle.std.specs.Prelude.{◌<◌, Some, Ok, length, unsigned_abs};
ghost use Rattle.obj_read.specs.Fields.{fields};
ghost use Rattle.obj_prepare.specs.Numbers.{decimal_coordinate};
ghost use Rattle.pm_base.specs.declared.limits.TheConstants.{MOST_VERTICES};
ghost use Rattle.stl_read.specs.Ascii.{of_decimal, point_of, three, vertex_line, end_line};
ghost use Rattle.stl_read.specs.Ascii.{after_text, text_meaning, at_start, with_point_at, ended};
ghost use Rattle.stl_read.specs.Meaning.{Explains, triangles_of, so_far_of};
ghost use Rattle.stl_read.specs.Numbering.{AreNumbered};

use crate::OutOfMemory;
use crate::fault::{Refused, StlFail, StlFault};
use crate::lines::{next_line, without_cr};
use crate::stage::{Stage, is_alone, is_word};
use crate::vertices::{StlTriangles, Vertices};
use obj_prepare::{ExactPoint, decimal_coordinate};
use obj_read::{ObjFault, next_field};
use pm_base::{Corners, MOST_FACES};
use std::alloc::Global;

// A facet has some 250 bytes, and a point of a surface two facets: about four slots for each.
const BYTES_FOR_SLOT: usize = 128;

/// What the lines so far gave.
#[derive(Drop)]
pub(crate) struct TextReader {
    pub stage: Stage,
    pub vertices: Vertices,
    pub faces: Vec<Corners>,
}

fn number(field: &[u8], line: usize) -> Result<i128, Refused>
    ensures value { result ≡ of_decimal line (decimal_coordinate field.now) }
    ensures range { IfOk result (λ x. unsigned_abs x ≤ 10 ^ 32) }
{
    match decimal_coordinate(field) {
        Ok(x) => Ok(x),
        Err(ObjFault::OutOfRange) => Err(Refused {
            fault: StlFault::TooLarge,
            place: line,
        }),
        Err(_) => Err(Refused {
            fault: StlFault::BadNumber,
            place: line,
        }),
    }
}

#[tactic(auto, unfolding(crate::specs::Ascii::point_of))]
fn point_of(line: usize, a: &[u8], b: &[u8], c: &[u8]) -> Result<ExactPoint, Refused>
    ensures { result ≡ point_of line a.now b.now c.now }
{
    let x = number(a, line)?;
    let y = number(b, line)?;
    let z = number(c, line)?;
    match ExactPoint::new(x, y, z) {
        Some(p) => Ok(p),
        None => Err(Refused {
            fault: StlFault::TooLarge,
            place: line,
        }),
    }
}

// Three fields, and none after them.
fn three(rest: &[u8]) -> Option<(&[u8], &[u8], &[u8])>
    ensures { MatchOption result (three (fields rest.now) ≡ None)
        (λ r. fields rest.now ≡ r.0.now ∷ r.1.now ∷ r.2.now ∷ []) }
{
    let (a, rest) = next_field(rest)?;
    let (b, rest) = next_field(rest)?;
    let (c, rest) = next_field(rest)?;
    if next_field(rest).is_none() {
        Some((a, b, c))
    } else {
        None
    }
}

fn unexpected(line: usize) -> StlFail
    ensures { result ≡ StlFail.Fault (record { fault = StlFault.UnexpectedWord; place = line }) }
{
    StlFail::Fault(Refused {
        fault: StlFault::UnexpectedWord,
        place: line,
    })
}

impl TextReader {
    // With so many slots for points.
    fn new(alloc: Global, slots: usize) -> Result<TextReader, OutOfMemory>
        requires { 0 < slots }
        ensures value { IfOk result (λ r. so_far_of r ≡ at_start) }
        ensures numbered { IfOk result (λ r. AreNumbered r.vertices) }
    {
        Ok(TextReader {
            stage: Stage::Outside,
            vertices: Vertices::new(alloc, slots)?,
            faces: Vec::new(alloc),
        })
    }

    // Takes a corner.
    #[tactic(auto, unfolding(crate::specs::Ascii::with_point_at), using(crate::proofs::LineLaws::explains_then))]
    fn take_corner(&mut self, p: &ExactPoint, line: usize) -> Result<(), StlFail>
        requires numbered { AreNumbered self.old.vertices }
        requires few { length self.old.vertices.points.items ≤ MOST_VERTICES }
        ensures ok { OnOk result
            (with_point_at line (so_far_of self.old) p.now ≡ Ok (so_far_of self.new)) }
        ensures numbered { OnOk result (AreNumbered self.new.vertices) }
        ensures few { OnOk result (length self.new.vertices.points.items ≤ MOST_VERTICES) }
        ensures err { IfErr result (Explains (with_point_at line (so_far_of self.old) p.now)) }
    {
        let v = match self.vertices.corner(p, line) {
            Ok(v) => v,
            Err(fail) => return Err(fail),
        };
        match self.stage.with_vertex(v) {
            Some(stage) => {
                self.stage = stage;
                Ok(())
            }
            None => Err(unexpected(line)),
        }
    }

    // Takes a line of a vertex.
    #[tactic(auto, unfolding(crate::specs::Ascii::vertex_line))]
    fn take_vertex(&mut self, word: &[u8], rest: &[u8], line: usize) -> Result<(), StlFail>
        requires numbered { AreNumbered self.old.vertices }
        requires few { length self.old.vertices.points.items ≤ MOST_VERTICES }
        ensures ok { OnOk result
            (vertex_line line (so_far_of self.old) word.now (fields rest.now)
            ≡ Ok (so_far_of self.new)) }
        ensures numbered { OnOk result (AreNumbered self.new.vertices) }
        ensures few { OnOk result (length self.new.vertices.points.items ≤ MOST_VERTICES) }
        ensures err { IfErr result
            (Explains (vertex_line line (so_far_of self.old) word.now (fields rest.now))) }
    {
        if !is_word(b"vertex", word) {
            return Err(unexpected(line));
        }
        let Some((a, b, c)) = three(rest) else {
            return Err(unexpected(line));
        };
        match point_of(line, a, b, c) {
            Ok(p) => self.take_corner(&p, line),
            Err(why) => Err(StlFail::Fault(why)),
        }
    }

    // Takes the line that ends a facet.
    #[tactic(auto, unfolding(crate::specs::Ascii::end_line))]
    fn take_end(&mut self, f: Corners, word: &[u8], rest: &[u8], line: usize) -> Result<(), StlFail>
        ensures ok { OnOk result
            (end_line line (so_far_of self.old).triangles f (word.now ∷ fields rest.now)
            ≡ Ok (so_far_of self.new)) }
        ensures vertices { OnOk result (self.new.vertices ≡ self.old.vertices) }
        ensures err { IfErr result
            (Explains (end_line line (so_far_of self.old).triangles f
            (word.now ∷ fields rest.now))) }
    {
        if !is_alone(b"endfacet", word, rest) {
            return Err(unexpected(line));
        }
        if self.faces.len() >= MOST_FACES as usize {
            return Err(StlFail::Fault(Refused {
                fault: StlFault::TooManyFaces,
                place: line,
            }));
        }
        if self.faces.push(f).is_err() {
            return Err(StlFail::OutOfMemory);
        }
        self.stage = Stage::Solid;
        Ok(())
    }

    // Takes a line.
    #[tactic(auto, unfolding(crate::specs::Ascii::after_text))]
    fn take(&mut self, text: &[u8], line: usize) -> Result<(), StlFail>
        requires numbered { AreNumbered self.old.vertices }
        requires few { length self.old.vertices.points.items ≤ MOST_VERTICES }
        ensures ok { OnOk result
            (after_text line (so_far_of self.old) text.now ≡ Ok (so_far_of self.new)) }
        ensures numbered { OnOk result (AreNumbered self.new.vertices) }
        ensures few { OnOk result (length self.new.vertices.points.items ≤ MOST_VERTICES) }
        ensures err { IfErr result (Explains (after_text line (so_far_of self.old) text.now)) }
    {
        let Some((word, rest)) = next_field(without_cr(text)) else {
            return Ok(());
        };
        match self.stage {
            Stage::First | Stage::Second(_) | Stage::Third(_, _) => {
                self.take_vertex(word, rest, line)
            }
            Stage::Done(f) => self.take_end(f, word, rest, line),
            stage => match stage.after(word, rest) {
                Some(next) => {
                    self.stage = next;
                    Ok(())
                }
                None => Err(unexpected(line)),
            },
        }
    }

    // What all lines gave, where no solid is open.
    fn finish(self, line: usize) -> Result<StlTriangles, StlFail>
        ensures ok { IfOk result
            (λ t. ended line (so_far_of self) self.stage ≡ Ok (triangles_of t)) }
        ensures err { IfErr result (Explains (ended line (so_far_of self) self.stage)) }
    {
        match self.stage {
            Stage::Outside => {
                let vertices = self.vertices;
                Ok(StlTriangles {
                    points: vertices.points,
                    faces: self.faces,
                    attributes: 0,
                })
            }
            _ => Err(StlFail::Fault(Refused {
                fault: StlFault::CutOff,
                place: line,
            })),
        }
    }
}

/// The points and triangles of a text, or its first fault. What a binary file gives, a text gives
/// too; coordinates are decimals. Linear in the bytes but for the map.
#[tactic(auto, unfolding(crate::specs::Ascii::text_meaning), using(crate::proofs::LineLaws::lines_next, crate::proofs::LineLaws::lines_fail, crate::proofs::LineLaws::lines_end, crate::proofs::LineLaws::texts_few))]
pub(crate) fn read_text(alloc: Global, bytes: &[u8]) -> Result<StlTriangles, StlFail>
    ensures ok { IfOk result (λ t. text_meaning bytes.now ≡ Ok (triangles_of t)) }
    ensures err { IfErr result (Explains (text_meaning bytes.now)) }
{
    let mut reader = match TextReader::new(alloc, bytes.len() / BYTES_FOR_SLOT + 1) {
        Ok(reader) => reader,
        Err(_) => return Err(StlFail::OutOfMemory),
    };
    let (mut rest, mut line) = (bytes, 1);
    while let Some((text, after)) = next_line(rest) {
        match reader.take(text, line) {
            Ok(()) => {}
            Err(fail) => return Err(fail),
        }
        rest = after;
        line += 1;
    }
    reader.finish(line)
}
