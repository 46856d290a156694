//! Binary files.
ghost use Rattle.std.specs.Prelude.{◌≡◌, ◌+◌, ◌*◌, ◌≤◌, ◌<◌, ◌^◌, IfOk, OnOk, IfErr, length, Ok};
ghost use Rattle.std.specs.Prelude.{unsigned_abs};
ghost use Rattle.pm_base.specs.declared.limits.TheConstants.{MOST_VERTICES, MOST_FACES};
ghost use Rattle.stl_read.specs.Binary.{word_at, coordinate_at, point_at, corner_at, facet_at};
ghost use Rattle.stl_read.specs.Binary.{has_its_length, facet_count, with_facets, binary_meaning};
ghost use Rattle.stl_read.specs.Binary.{count_of, has_attributes};
ghost use Rattle.stl_read.specs.Vertices.{marked_after, no_triangles};
ghost use Rattle.stl_read.specs.Meaning.{Explains, triangles_of};
ghost use Rattle.stl_read.specs.Numbering.{AreNumbered};
ghost use Rattle.stl_read.specs.Refusals.{of_number};
ghost use Rattle.stl_read.specs.Recent.{AreKnown, AreWordsOf, words_at};
ghost use Rattle.float_read.specs.Floats.{float_coordinate, binary32};

use crate::fault::{Refused, StlFail, StlFault};
use crate::reader::Reader;
use crate::recent::Words;
use crate::vertices::StlTriangles;
use float_read::{FloatFault, single_coordinate};
use obj_prepare::ExactPoint;
use pm_base::{Corners, MOST_FACES};
use std::alloc::Global;

// The bytes before the count of facets, and before the first facet.
const BEFORE_COUNT: usize = 80;

const BEFORE_FACETS: usize = 84;

// The bytes of a facet, and those of them before its attributes.
const FACET_BYTES: usize = 50;

const BEFORE_ATTRIBUTES: usize = 48;

fn of_number(fault: FloatFault) -> StlFault
    ensures { result ≡ of_number fault }
{
    match fault {
        FloatFault::NotFinite => StlFault::NotFinite,
        FloatFault::TooLarge => StlFault::TooLarge,
    }
}

// The number that four bytes from a place on are, the least first.
#[tactic(auto, unfolding(crate::specs::Binary::word_at))]
fn word_at(bytes: &[u8], at: usize) -> u32
    requires { at + 4 ≤ length bytes.now }
    ensures { result ≡ word_at bytes.now at }
{
    let high = u32::from(bytes[at + 2]) + 256 * u32::from(bytes[at + 3]);
    u32::from(bytes[at]) + 256 * (u32::from(bytes[at + 1]) + 256 * high)
}

#[tactic(auto, unfolding(crate::specs::Binary::coordinate_at))]
fn coordinate_at(bytes: &[u8], at: usize) -> Result<i128, Refused>
    requires { at + 4 ≤ length bytes.now }
    ensures value { result ≡ coordinate_at bytes.now at }
    ensures word { IfOk result (λ x. float_coordinate binary32 (word_at bytes.now at) ≡ Ok x) }
    ensures range { IfOk result (λ x. unsigned_abs x ≤ 10 ^ 32) }
{
    match single_coordinate(word_at(bytes, at)) {
        Ok(x) => Ok(x),
        Err(fault) => Err(Refused {
            fault: of_number(fault),
            place: at,
        }),
    }
}

#[tactic(auto, unfolding(crate::specs::Binary::point_at))]
fn point_at(bytes: &[u8], at: usize) -> Result<ExactPoint, Refused>
    requires { at + 12 ≤ length bytes.now }
    ensures value { result ≡ point_at bytes.now at }
    ensures words { IfOk result (λ p. AreWordsOf (words_at bytes.now at) p) }
{
    let x = coordinate_at(bytes, at)?;
    let y = coordinate_at(bytes, at + 4)?;
    let z = coordinate_at(bytes, at + 8)?;
    match ExactPoint::new(x, y, z) {
        Some(p) => Ok(p),
        None => Err(Refused {
            fault: StlFault::TooLarge,
            place: at,
        }),
    }
}

fn words_at(bytes: &[u8], at: usize) -> Words
    requires { at + 12 ≤ length bytes.now }
    ensures { result ≡ words_at bytes.now at }
{
    Words {
        x: word_at(bytes, at),
        y: word_at(bytes, at + 4),
        z: word_at(bytes, at + 8),
    }
}

// Puts down the point of a corner that begins at a place, and answers its number.
#[tactic(auto, unfolding(crate::specs::Binary::corner_at))]
fn corner_at(reader: &mut Reader, bytes: &[u8], at: usize) -> Result<u32, StlFail>
    requires within { at + 12 ≤ length bytes.now }
    requires numbered { AreNumbered reader.old.vertices }
    requires few { length reader.old.vertices.points.items ≤ MOST_VERTICES }
    requires known { AreKnown reader.old.vertices.points.items reader.old.recent.slots.items }
    ensures ok { IfOk result
        (λ v. corner_at bytes.now at reader.old.vertices.points.items
        ≡ Ok (record { vertex = v; points = reader.new.vertices.points.items })) }
    ensures numbered { OnOk result (AreNumbered reader.new.vertices) }
    ensures few { OnOk result (length reader.new.vertices.points.items ≤ MOST_VERTICES) }
    ensures known { OnOk result
        (AreKnown reader.new.vertices.points.items reader.new.recent.slots.items) }
    ensures err { IfErr result
        (Explains (corner_at bytes.now at reader.old.vertices.points.items)) }
{
    let words = words_at(bytes, at);
    if let Some(vertex) = reader.recent.vertex_of(words) {
        return Ok(vertex);
    }
    match point_at(bytes, at) {
        Ok(p) => reader.put(words, &p, at),
        Err(why) => Err(StlFail::Fault(why)),
    }
}

// The vertices of the facet that begins at a place.
#[tactic(auto, unfolding(crate::specs::Binary::facet_at))]
fn facet_at(reader: &mut Reader, bytes: &[u8], at: usize) -> Result<Corners, StlFail>
    requires within { at + 50 ≤ length bytes.now }
    requires numbered { AreNumbered reader.old.vertices }
    requires few { length reader.old.vertices.points.items ≤ MOST_VERTICES }
    requires known { AreKnown reader.old.vertices.points.items reader.old.recent.slots.items }
    ensures ok { IfOk result
        (λ f. facet_at bytes.now at reader.old.vertices.points.items
        ≡ Ok (record { corners = f; points = reader.new.vertices.points.items })) }
    ensures numbered { OnOk result (AreNumbered reader.new.vertices) }
    ensures few { OnOk result (length reader.new.vertices.points.items ≤ MOST_VERTICES) }
    ensures known { OnOk result
        (AreKnown reader.new.vertices.points.items reader.new.recent.slots.items) }
    ensures err { IfErr result
        (Explains (facet_at bytes.now at reader.old.vertices.points.items)) }
{
    let a = corner_at(reader, bytes, at + 12)?;
    let b = corner_at(reader, bytes, at + 24)?;
    let c = corner_at(reader, bytes, at + 36)?;
    Ok(Corners { a, b, c })
}

// Whether the facet that begins at a place has attributes that aren't 0.
#[tactic(auto, unfolding(crate::specs::Binary::has_attributes))]
fn has_attributes(bytes: &[u8], at: usize) -> bool
    requires { at + 50 ≤ length bytes.now }
    ensures { result ≡ has_attributes bytes.now at }
{
    let attributes = at + BEFORE_ATTRIBUTES;
    !(bytes[attributes] == 0 && bytes[attributes + 1] == 0)
}

// One more, where the facet that begins at a place has them.
fn marked_after(attributes: u32, bytes: &[u8], at: usize) -> u32
    requires within { at + 50 ≤ length bytes.now }
    requires few { attributes < MOST_FACES }
    ensures value { result ≡ marked_after attributes (has_attributes bytes.now at) }
    ensures few { result ≤ attributes + 1 }
{
    if has_attributes(bytes, at) {
        attributes + 1
    } else {
        attributes
    }
}

/// Whether the bytes are as many as the count of facets tells.
#[tactic(auto, unfolding(crate::specs::Binary::has_its_length, crate::specs::Binary::facet_count))]
pub(crate) fn has_its_length(bytes: &[u8]) -> bool
    ensures { result ≡ has_its_length bytes.now }
{
    bytes.len() >= BEFORE_FACETS
        && BEFORE_FACETS + FACET_BYTES * word_at(bytes, BEFORE_COUNT) as usize == bytes.len()
}

// The count of facets, where the bytes are as many as it tells.
#[tactic(auto, unfolding(crate::specs::Binary::count_of, crate::specs::Binary::facet_count))]
fn count_of(bytes: &[u8]) -> Result<u32, Refused>
    ensures value { result ≡ count_of bytes.now }
    ensures within { IfOk result (λ n. 84 + 50 * n ≡ length bytes.now) }
    ensures few { IfOk result (λ n. n ≤ MOST_FACES) }
{
    if bytes.len() < BEFORE_FACETS {
        return Err(Refused {
            fault: StlFault::CutOff,
            place: bytes.len(),
        });
    }
    let count = word_at(bytes, BEFORE_COUNT);
    let end = BEFORE_FACETS + FACET_BYTES * count as usize;
    if bytes.len() < end {
        return Err(Refused {
            fault: StlFault::CutOff,
            place: bytes.len(),
        });
    }
    if bytes.len() > end {
        return Err(Refused {
            fault: StlFault::MoreBytes,
            place: end,
        });
    }
    if count > MOST_FACES {
        return Err(Refused {
            fault: StlFault::TooManyFaces,
            place: BEFORE_COUNT,
        });
    }
    Ok(count)
}

// The triangles of so many facets.
#[tactic(auto, using(crate::proofs::FacetLaws::facets_next, crate::proofs::FacetLaws::facets_fail, crate::proofs::FacetLaws::facets_end))]
fn read_facets(alloc: Global, bytes: &[u8], count: u32) -> Result<StlTriangles, StlFail>
    requires within { 84 + 50 * count ≡ length bytes.now }
    requires few { count ≤ MOST_FACES }
    ensures ok { IfOk result
        (λ t. with_facets bytes.now no_triangles 84 count ≡ Ok (triangles_of t)) }
    ensures err { IfErr result (Explains (with_facets bytes.now no_triangles 84 count)) }
{
    let mut reader = match Reader::new(alloc, count as usize) {
        Ok(reader) => reader,
        Err(_) => return Err(StlFail::OutOfMemory),
    };
    let mut faces = Vec::new(alloc);
    let mut attributes = 0;
    for i in 0..count as usize {
        let at = BEFORE_FACETS + FACET_BYTES * i;
        match facet_at(&mut reader, bytes, at) {
            Err(fail) => return Err(fail),
            Ok(facet) => {
                if faces.push(facet).is_err() {
                    return Err(StlFail::OutOfMemory);
                }
            }
        }
        attributes = marked_after(attributes, bytes, at);
    }
    let vertices = reader.vertices;
    Ok(StlTriangles {
        points: vertices.points,
        faces,
        attributes,
    })
}

/// The points and triangles of a binary file, or its first fault. Corners with the same point in
/// units of 10^-18 are one vertex, which are numbered as they first stand; normals are passed over,
/// and attributes are counted. Linear in the bytes but for the map.
#[tactic(auto, unfolding(crate::specs::Binary::binary_meaning))]
pub(crate) fn read_binary(alloc: Global, bytes: &[u8]) -> Result<StlTriangles, StlFail>
    ensures ok { IfOk result (λ t. binary_meaning bytes.now ≡ Ok (triangles_of t)) }
    ensures err { IfErr result (Explains (binary_meaning bytes.now)) }
{
    match count_of(bytes) {
        Ok(count) => read_facets(alloc, bytes, count),
        Err(why) => Err(StlFail::Fault(why)),
    }
}
