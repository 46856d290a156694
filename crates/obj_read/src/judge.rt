//! A line judged alone: what it gives, or its first fault.
ghost use Rattle.std.specs.Prelude.{◌≡◌, ◌≤◌, IfOk};
ghost use Rattle.obj_read.specs.Fields.{fields};
ghost use Rattle.obj_read.specs.Judged.{vertex_of, face_read, vertex_line, face_line, fields_found};
ghost use Rattle.obj_read.specs.Judged.{line_found};
ghost use Rattle.obj_read.specs.Fits.{Fits};

use crate::coordinate::coordinate;
use crate::fault::ObjFault;
use crate::fields::{is_letter, next_field};
use crate::found::Found;
use crate::indices::index;
use obj_lines::is_continued;
use pm_base::{Corners, MOST_FACES, MOST_VERTICES, Point};

#[tactic(auto, unfolding(crate::specs::Judged::vertex_of))]
fn vertex_of(
    digits: u32,
    vertices: u32,
    faces: u32,
    x: &[u8],
    y: &[u8],
    z: &[u8],
) -> Result<Found, ObjFault>
    requires { digits ≤ 4 }
    ensures value { result ≡ vertex_of digits vertices x.now y.now z.now }
    ensures fits { IfOk result (Fits vertices faces) }
{
    let x = coordinate(digits, x)?;
    let y = coordinate(digits, y)?;
    let z = coordinate(digits, z)?;
    if vertices >= MOST_VERTICES {
        return Err(ObjFault::TooMany);
    }
    // Each of the three is in range, so there is a point.
    match Point::new(x, y, z) {
        Some(point) => Ok(Found::Vertex(point)),
        None => Err(ObjFault::OutOfRange),
    }
}

#[tactic(auto, unfolding(crate::specs::Judged::face_read))]
fn face_of(vertices: u32, faces: u32, a: &[u8], b: &[u8], c: &[u8]) -> Result<Found, ObjFault>
    ensures value { result ≡ face_read vertices faces a.now b.now c.now }
    ensures fits { IfOk result (Fits vertices faces) }
{
    let a = index(vertices, a)?;
    let b = index(vertices, b)?;
    let c = index(vertices, c)?;
    if a == b || b == c || c == a {
        return Err(ObjFault::RepeatedCorner);
    }
    if faces >= MOST_FACES {
        return Err(ObjFault::TooMany);
    }
    Ok(Found::Face(Corners { a, b, c }))
}

// What stands after the keyword of a vertex: three coordinates, and fields that aren't read.
fn vertex_line(digits: u32, vertices: u32, faces: u32, text: &[u8]) -> Result<Found, ObjFault>
    requires { digits ≤ 4 }
    ensures value { result ≡ vertex_line digits vertices (fields text.now) }
    ensures fits { IfOk result (Fits vertices faces) }
{
    let Some((x, rest)) = next_field(text) else {
        return Err(ObjFault::TooFewFields);
    };
    let Some((y, rest)) = next_field(rest) else {
        return Err(ObjFault::TooFewFields);
    };
    let Some((z, _)) = next_field(rest) else {
        return Err(ObjFault::TooFewFields);
    };
    vertex_of(digits, vertices, faces, x, y, z)
}

// What stands after the keyword of a face: three corners.
fn face_line(vertices: u32, faces: u32, text: &[u8]) -> Result<Found, ObjFault>
    ensures value { result ≡ face_line vertices faces (fields text.now) }
    ensures fits { IfOk result (Fits vertices faces) }
{
    let Some((a, rest)) = next_field(text) else {
        return Err(ObjFault::TooFewFields);
    };
    let Some((b, rest)) = next_field(rest) else {
        return Err(ObjFault::TooFewFields);
    };
    let Some((c, rest)) = next_field(rest) else {
        return Err(ObjFault::TooFewFields);
    };
    match next_field(rest) {
        None => face_of(vertices, faces, a, b, c),
        Some(_) => Err(ObjFault::NotTriangle),
    }
}

// A line that begins with neither keyword is skipped.
fn fields_found(digits: u32, vertices: u32, faces: u32, line: &[u8]) -> Result<Found, ObjFault>
    requires { digits ≤ 4 }
    ensures value { result ≡ fields_found digits vertices faces (fields line.now) }
    ensures fits { IfOk result (Fits vertices faces) }
{
    match next_field(line) {
        Some((keyword, rest)) if is_letter(b'v', keyword) => {
            vertex_line(digits, vertices, faces, rest)
        }
        Some((keyword, rest)) if is_letter(b'f', keyword) => face_line(vertices, faces, rest),
        _ => Ok(Found::Nothing),
    }
}

/// What a line gives after so many vertices and faces, or its first fault. Its coordinates are read
/// with so many digits after the point. The line stands here as it is read, without its LF, a CR at
/// its end and a comment.
#[tactic(auto, unfolding(crate::specs::Judged::line_found))]
pub fn line_found(digits: u32, vertices: u32, faces: u32, line: &[u8]) -> Result<Found, ObjFault>
    requires { digits ≤ 4 }
    ensures value { result ≡ line_found digits vertices faces line.now }
    ensures fits { IfOk result (Fits vertices faces) }
{
    if is_continued(line) {
        return Err(ObjFault::Continuation);
    }
    fields_found(digits, vertices, faces, line)
}
