//! Files in memory.
ghost use Rattle.std.specs.Prelude.{◌≡◌, IfOk, IfErr, Ok};
ghost use Rattle.ply_read.specs.Meaning.{Explains, header_in, ply_in};
ghost use Rattle.ply_read.specs.Ply.{line_after, spot_of, trailing, body_of, ply_meaning_of};

use crate::declared::{Encoding, PlyHeader};
use crate::fault::{PlyFail, Refused, Spot};
use crate::header::read_header;
use crate::losses::{Losses, losses_of};
use crate::mesh::MeshReader;
use crate::stop::BodyFail;
use crate::words::from_word;
use obj_prepare::ExactPoint;
use pm_base::Corners;
use pm_ears::Polygon;
use std::alloc::Global;

/// What a file gives: points in units of 10^-18; triangles, and where the fan of each face of more
/// than three corners stands among them; how many faces of fewer than three corners, up to
/// 4,294,967,295, how much by what the header declares, and how many bytes after the last element
/// were passed over.
#[derive(Drop)]
pub struct Ply {
    pub points: Vec<ExactPoint>,
    pub faces: Vec<Corners>,
    pub polygons: Vec<Polygon>,
    pub short_faces: u32,
    pub losses: Losses,
    pub trailing_bytes: usize,
}

// The line after these bytes.
fn line_after(before: &[u8]) -> usize
    ensures { result ≡ line_after before.now }
{
    let mut line = 1;
    for b in before {
        if *b == b'\n' {
            line += 1;
        }
    }
    line
}

fn spot_of(e: Encoding, bytes: &[u8], left: usize) -> Spot
    ensures { result ≡ spot_of e bytes.now left }
{
    let at = bytes.len().saturating_sub(left);
    match e {
        Encoding::Ascii => Spot::Line(line_after(&bytes[..at])),
        Encoding::Binary(_) => Spot::Byte(at),
    }
}

fn trailing(e: Encoding, rest: &[u8]) -> &[u8]
    ensures { result.now ≡ trailing e rest.now }
{
    match e {
        Encoding::Ascii => from_word(rest),
        Encoding::Binary(_) => rest,
    }
}

// Reads what stands after a header.
fn read_body(alloc: Global, bytes: &[u8], header: &PlyHeader, body: &[u8]) -> Result<Ply, PlyFail>
    ensures ok { IfOk result
        (λ p. body_of bytes.now (header_in header.now body.now) ≡ Ok (ply_in p)) }
    ensures err { IfErr result
        (Explains (body_of bytes.now (header_in header.now body.now))) }
{
    let e = header.encoding;
    let mut mesh = MeshReader::new(alloc);
    match mesh.take_declared(alloc, e, &header.declared, body) {
        Ok(rest) => Ok(Ply {
            points: mesh.points,
            faces: mesh.faces,
            polygons: mesh.polygons,
            short_faces: mesh.short_faces,
            losses: losses_of(&header.declared),
            trailing_bytes: trailing(e, rest).len(),
        }),
        Err(BodyFail::Stop(stop)) => Err(PlyFail::Fault(Refused {
            fault: stop.fault,
            spot: spot_of(e, bytes, stop.left),
        })),
        Err(BodyFail::OutOfMemory) => Err(PlyFail::OutOfMemory),
    }
}

/// The points and triangles of a file, or its first fault: at its line, counted from 1, in the
/// header and in a text, and else at its byte, counted from 0.
///
/// Elements of other names are passed over by their declared sizes, and so are further properties
/// of vertices and faces; both are counted. Points are as the file has them, in units of 10^-18:
/// the nearest whole number, halves away from 0. A face of more than three corners is cut into the
/// fan from the corner whose point is least. The words of a text may stand in any lines.
///
/// Linear in the bytes.
#[tactic(auto, unfolding(crate::specs::Ply::ply_meaning_of))]
pub fn read_ply(alloc: Global, bytes: &[u8]) -> Result<Ply, PlyFail>
    ensures ok { IfOk result (λ p. ply_meaning_of bytes.now ≡ Ok (ply_in p)) }
    ensures err { IfErr result (Explains (ply_meaning_of bytes.now)) }
{
    match read_header(alloc, bytes) {
        Ok((header, body)) => read_body(alloc, bytes, &header, body),
        Err(fail) => Err(fail),
    }
}
