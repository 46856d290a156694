//! Files, texts or binary ones.
ghost use Rattle.std.specs.Prelude.{◌≡◌, IfOk, IfErr, Ok};
ghost use Rattle.stl_read.specs.Meaning.{Explains, triangles_of};
ghost use Rattle.stl_read.specs.Stl.{begins_solid, is_text, stl_meaning_of};

use crate::ascii::read_text;
use crate::binary::{has_its_length, read_binary};
use crate::fault::StlFail;
use crate::stage::is_word;
use crate::vertices::StlTriangles;
use std::alloc::Global;

fn begins_solid(bytes: &[u8]) -> bool
    ensures { result ≡ begins_solid bytes.now }
{
    match bytes {
        [a, b, c, d, e, ..] => is_word(b"solid", &[*a, *b, *c, *d, *e]),
        _ => false,
    }
}

/// Whether a file is read as a text: it begins with `solid`, and its length isn't that which a
/// binary file with its bytes would have.
#[tactic(auto, unfolding(crate::specs::Stl::is_text))]
pub fn is_text(bytes: &[u8]) -> bool
    ensures { result ≡ is_text bytes.now }
{
    begins_solid(bytes) && !has_its_length(bytes)
}

/// The points and triangles of a file, or its first fault: at its line, counted from 1, in a text,
/// and else at its byte, counted from 0.
///
/// Corners with the same point in units of 10^-18 are one vertex, numbered as they first stand;
/// normals, names and the attributes of binary facets are passed over, of which those that aren't 0
/// are counted. Linear in the bytes but for the map of points.
#[tactic(auto, unfolding(crate::specs::Stl::stl_meaning_of))]
pub fn read_stl(alloc: Global, bytes: &[u8]) -> Result<StlTriangles, StlFail>
    ensures ok { IfOk result (λ t. stl_meaning_of bytes.now ≡ Ok (triangles_of t)) }
    ensures err { IfErr result (Explains (stl_meaning_of bytes.now)) }
{
    if is_text(bytes) {
        read_text(alloc, bytes)
    } else {
        read_binary(alloc, bytes)
    }
}
