//! The numbers after a header, one after the other: words of a text, or bytes.
ghost use Rattle.std.specs.Prelude.{◌≡◌, ◌≤◌, ◌<◌, ◌+◌, ◌^◌, IfOk, IfErr, Ok, Err, length};
ghost use Rattle.std.specs.Prelude.{unsigned_abs};
ghost use Rattle.ply_read.specs.Items.{word_item, bytes_item, next_item, coordinate_of, whole_of};
ghost use Rattle.ply_read.specs.Items.{among, coordinate, count, vertex, after_item, after_items};
ghost use Rattle.obj_prepare.specs.Numbers.{decimal_coordinate};
ghost use Rattle.ply_read.specs.Items.{after_value, of_decimal};
ghost use Rattle.ply_read.specs.Steps.{repeated};

use crate::declared::{Encoding, ScalarType};
use crate::fault::PlyFault;
use crate::number::{binary_coordinate, binary_whole, size};
use crate::stop::Stop;
use crate::words::{from_word, word};
use float_read::FloatFault;
use obj_prepare::decimal_coordinate;
use obj_read::ObjFault;
use pm_io::read_unsigned;

// Bytes are wanting.
const CUT_OFF: Stop = Stop {
    fault: PlyFault::CutOff,
    left: 0,
};

// The word at the front, and what stands after it.
#[tactic(auto, unfolding(crate::specs::Items::word_item))]
fn word_item(rest: &[u8]) -> Result<(&[u8], &[u8]), Stop>
    ensures ok { IfOk result
        (λ r. word_item rest.now ≡ Ok (record { bytes = r.0.now; after = r.1.now })) }
    ensures within { IfOk result (λ r. length r.0.now + length r.1.now ≤ length rest.now) }
    ensures err { IfErr result (λ e. word_item rest.now ≡ Err e) }
{
    if rest.is_empty() {
        return Err(CUT_OFF);
    }
    let word = word(rest);
    Ok((word, &rest[word.len()..]))
}

// So many bytes, and what stands after them.
#[tactic(auto, unfolding(crate::specs::Items::bytes_item))]
fn bytes_item(n: usize, rest: &[u8]) -> Result<(&[u8], &[u8]), Stop>
    ensures ok { IfOk result
        (λ r. bytes_item n rest.now ≡ Ok (record { bytes = r.0.now; after = r.1.now })) }
    ensures within { IfOk result (λ r. length r.0.now + length r.1.now ≤ length rest.now) }
    ensures err { IfErr result (λ e. bytes_item n rest.now ≡ Err e) }
{
    if rest.len() < n {
        return Err(CUT_OFF);
    }
    Ok((&rest[..n], &rest[n..]))
}

// What a number is written as, and what stands after it.
fn next_item(e: Encoding, t: ScalarType, rest: &[u8]) -> Result<(&[u8], &[u8]), Stop>
    ensures ok { IfOk result
        (λ r. next_item e t rest.now ≡ Ok (record { bytes = r.0.now; after = r.1.now })) }
    ensures within { IfOk result (λ r. length r.0.now + length r.1.now ≤ length rest.now) }
    ensures err { IfErr result (λ s. next_item e t rest.now ≡ Err s) }
{
    match e {
        Encoding::Ascii => word_item(from_word(rest)),
        Encoding::Binary(_) => bytes_item(size(t), rest),
    }
}

fn text_coordinate(word: &[u8]) -> Result<i128, PlyFault>
    ensures value { result ≡ of_decimal (decimal_coordinate word.now) }
    ensures range { IfOk result (λ x. unsigned_abs x ≤ 10 ^ 32) }
{
    match decimal_coordinate(word) {
        Ok(x) => Ok(x),
        Err(ObjFault::OutOfRange) => Err(PlyFault::TooLarge),
        Err(_) => Err(PlyFault::BadNumber),
    }
}

fn coordinate_of(e: Encoding, t: ScalarType, bytes: &[u8]) -> Result<i128, PlyFault>
    ensures value { result ≡ coordinate_of e t bytes.now }
    ensures range { IfOk result (λ x. unsigned_abs x ≤ 10 ^ 32) }
{
    match e {
        Encoding::Ascii => text_coordinate(bytes),
        Encoding::Binary(order) => match binary_coordinate(order, t, bytes) {
            Ok(x) => Ok(x),
            Err(FloatFault::NotFinite) => Err(PlyFault::NotFinite),
            Err(FloatFault::TooLarge) => Err(PlyFault::TooLarge),
        },
    }
}

fn whole_of(e: Encoding, t: ScalarType, bytes: &[u8]) -> Result<u32, PlyFault>
    ensures { result ≡ whole_of e t bytes.now }
{
    let n = match e {
        Encoding::Ascii => read_unsigned(bytes, u32::MAX),
        Encoding::Binary(order) => binary_whole(order, t, bytes),
    };
    match n {
        Some(n) => Ok(n),
        None => Err(PlyFault::BadNumber),
    }
}

fn among(vertices: usize, v: Result<u32, PlyFault>) -> Result<u32, PlyFault>
    ensures value { result ≡ among vertices v }
    ensures within { IfOk result (λ v. v < vertices) }
{
    match v {
        Ok(v) if (v as usize) < vertices => Ok(v),
        Ok(_) => Err(PlyFault::BadIndex),
        Err(fault) => Err(fault),
    }
}

/// A coordinate, in units of 10^-18, and what stands after it.
#[tactic(auto, unfolding(crate::specs::Items::coordinate))]
pub(crate) fn coordinate(e: Encoding, t: ScalarType, rest: &[u8]) -> Result<(i128, &[u8]), Stop>
    ensures ok { IfOk result (λ r. coordinate e t rest.now ≡ Ok (r.0, r.1.now)) }
    ensures range { IfOk result (λ r. unsigned_abs r.0 ≤ 10 ^ 32) }
    ensures err { IfErr result (λ s. coordinate e t rest.now ≡ Err s) }
{
    let (bytes, after) = next_item(e, t, rest)?;
    match coordinate_of(e, t, bytes) {
        Ok(x) => Ok((x, after)),
        Err(fault) => Err(Stop {
            fault,
            left: bytes.len() + after.len(),
        }),
    }
}

/// A count, and what stands after it.
#[tactic(auto, unfolding(crate::specs::Items::count))]
pub(crate) fn count(e: Encoding, t: ScalarType, rest: &[u8]) -> Result<(u32, &[u8]), Stop>
    ensures ok { IfOk result (λ r. count e t rest.now ≡ Ok (r.0, r.1.now)) }
    ensures err { IfErr result (λ s. count e t rest.now ≡ Err s) }
{
    let (bytes, after) = next_item(e, t, rest)?;
    match whole_of(e, t, bytes) {
        Ok(n) => Ok((n, after)),
        Err(fault) => Err(Stop {
            fault,
            left: bytes.len() + after.len(),
        }),
    }
}

/// A vertex among so many, and what stands after its number.
#[tactic(auto, unfolding(crate::specs::Items::vertex))]
pub(crate) fn vertex(
    e: Encoding,
    vertices: usize,
    t: ScalarType,
    rest: &[u8],
) -> Result<(u32, &[u8]), Stop>
    ensures ok { IfOk result (λ r. vertex e vertices t rest.now ≡ Ok (r.0, r.1.now)) }
    ensures within { IfOk result (λ r. r.0 < vertices) }
    ensures err { IfErr result (λ s. vertex e vertices t rest.now ≡ Err s) }
{
    let (bytes, after) = next_item(e, t, rest)?;
    match among(vertices, whole_of(e, t, bytes)) {
        Ok(v) => Ok((v, after)),
        Err(fault) => Err(Stop {
            fault,
            left: bytes.len() + after.len(),
        }),
    }
}

// What stands after a number.
#[tactic(auto, unfolding(crate::specs::Items::after_item))]
fn after_item(e: Encoding, t: ScalarType, rest: &[u8]) -> Result<&[u8], Stop>
    ensures ok { IfOk result (λ r. after_item e t rest.now ≡ Ok r.now) }
    ensures err { IfErr result (λ s. after_item e t rest.now ≡ Err s) }
{
    let (_, after) = next_item(e, t, rest)?;
    Ok(after)
}

// What stands after so many numbers.
#[tactic(auto, using(crate::proofs::StepLaws::repeated_next, crate::proofs::StepLaws::repeated_stop, crate::proofs::StepLaws::repeated_end))]
fn after_items(e: Encoding, t: ScalarType, n: u32, rest: &[u8]) -> Result<&[u8], Stop>
    ensures ok { IfOk result (λ r. repeated (after_item e t) n rest.now ≡ Ok r.now) }
    ensures err { IfErr result (λ s. repeated (after_item e t) n rest.now ≡ Err s) }
{
    let mut after = rest;
    for _i in 0..n {
        match after_item(e, t, after) {
            Ok(more) => after = more,
            Err(stop) => return Err(stop),
        }
    }
    Ok(after)
}

/// What stands after the value of a property that is passed over: a number, or a count and as many
/// numbers.
pub(crate) fn after_value(
    e: Encoding,
    length: Option<ScalarType>,
    t: ScalarType,
    rest: &[u8],
) -> Result<&[u8], Stop>
    ensures ok { IfOk result (λ r. after_value e length t rest.now ≡ Ok r.now) }
    ensures err { IfErr result (λ s. after_value e length t rest.now ≡ Err s) }
{
    match length {
        None => after_item(e, t, rest),
        Some(c) => {
            let (n, after) = count(e, c, rest)?;
            after_items(e, t, n, after)
        }
    }
}
