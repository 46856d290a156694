//! The beginning of a packed text: its first records, though the rest may be still to come.
ghost use Rattle.std.specs.Prelude.{◌≡◌, ◌≢◌, ◌≤◌, ◌+◌, ◌^◌, [], ℕ, List, true, false};
ghost use Rattle.std.specs.Prelude.{IfOk, IfErr};
ghost use Rattle.pm_coder.specs.RoundTrips.{first};
ghost use Rattle.pm_format.specs.Standing.{IsDecoderAfter, IsSoundDecoding, has_begun};
ghost use Rattle.pm_format.specs.Standing.{takes_more};
ghost use Rattle.pm_pack.specs.Texts as texts;
ghost use Rattle.pm_pack.specs.Packed.{at_first};
ghost use Rattle.pm_pack.specs.Unpacking.{ReadsOn};
ghost use Rattle.pm_pack.specs.Beginnings.{has_records, has_few, Reaches, reach_after};
ghost use Rattle.pm_pack.specs.Beginnings.{IsPartOf, IsTextOrPart};
ghost use Rattle.pm_pack.specs.Beginnings.{IsBeginningOf, IsEarlyFail, IsBeginning};
ghost use Rattle.pm_pack.specs.Beginnings.{IsBeginningFail};

use crate::next::Known;
use crate::reading::{UnpackFail, code_in, read_word};
use crate::slots::Slots;
use crate::writing::at_first;
use pm_coder::{Cut, Decoder, Predictor};
use pm_format::Stream;
use pm_prefix::first_records;
use std::alloc::Global;

/// What a packed text, or the beginning of one, has of the records that are wanted.
#[derive(Drop)]
pub enum Beginning {
    /// All of it, which has no more records: its stream text.
    Whole(Vec<u8>),
    /// The first records.
    Part(Stream),
}

// Where the reading of a beginning ended.
#[derive(Clone, Copy, Debug, PartialEq, Eq)]
pub enum Reach {
    // There are as many records as are wanted.
    Enough,
    // There are no more words.
    Whole,
    // The bytes end, or tell none.
    Cut,
}

// As many records as are wanted are there.
fn has_records(stream: &pm_format::Decoder, n: u32) -> bool
    ensures { result ≡ has_records stream.now.stage n }
{
    match stream.begun() {
        None => false,
        Some(forest) => n as usize <= forest.records().len(),
    }
}

// No more records are there than are wanted.
fn has_few(stream: &pm_format::Decoder, n: u32) -> bool
    ensures { result ≡ has_few stream.now.stage n }
{
    match stream.begun() {
        None => false,
        Some(forest) => forest.records().len() <= n as usize,
    }
}

// Where the bytes end, what was read stands.
fn reach_after(fail: UnpackFail) -> Result<Reach, UnpackFail>
    ensures { result ≡ reach_after fail }
{
    match fail {
        UnpackFail::Cut => Ok(Reach::Cut),
        fail => Err(fail),
    }
}

// Reads words until `n` records are there, or there are no more words.
fn read_until<P: Predictor + Drop>(
    known: &mut Known<P>,
    coder: &mut Decoder,
    stream: &mut pm_format::Decoder,
    text: &mut Vec<u8>,
    n: u32,
) -> Result<Reach, UnpackFail>
    requires { stream.old.taken ≤ 2 ^ 28 + 44 }
    ensures { (from : texts.Known P) (code : List ℕ)
        → ReadsOn P.Predictor from code known.old coder.old stream.old text.old.items
        → Reaches P.Predictor from code n coder.new stream.new text.new.items result }
{
    loop {
        stream.invariant();
        if has_records(stream, n) {
            return Ok(Reach::Enough);
        }
        match read_word(known, coder, stream, text) {
            Ok(true) => {}
            Ok(false) => return Ok(Reach::Whole),
            Err(fail) => return reach_after(fail),
        }
    }
}

// The first `n` records of what a stream's decoder has, or all that it has of them.
fn part_of(alloc: Global, stream: &pm_format::Decoder, n: u32) -> Result<Beginning, UnpackFail>
    ensures ok { IfOk result (λ b. IsPartOf stream.now.stage n b) }
    ensures fail { IfErr result (λ e. e ≢ UnpackFail.OutOfMemory
        → (e ≡ UnpackFail.Cut) × (has_begun stream.now.stage ≡ false)) }
    ensures sound { IsSoundDecoding stream.now.stage stream.now.held stream.now.taken }
{
    stream.invariant();
    let Some(forest) = stream.begun() else {
        return Err(UnpackFail::Cut);
    };
    let count = n.min(forest.records().len() as u32);
    match first_records(alloc, forest, count) {
        Ok(h) => Ok(Beginning::Part(Stream {
            h,
            digits: stream.digits_so_far(),
        })),
        Err(_) => Err(UnpackFail::OutOfMemory),
    }
}

// The whole text where it has no more records, and else its first.
fn whole_of(
    alloc: Global,
    stream: &pm_format::Decoder,
    text: Vec<u8>,
    n: u32,
) -> Result<Beginning, UnpackFail>
    ensures ok { IfOk result (λ b. (bytes : List ℕ) → bytes ≡ text.items
        → IsTextOrPart stream.now.stage n bytes b) }
    ensures fail { IfErr result (λ e. e ≢ UnpackFail.OutOfMemory
        → has_begun stream.now.stage ≡ false) }
    ensures sound { IsSoundDecoding stream.now.stage stream.now.held stream.now.taken }
{
    stream.invariant();
    if has_few(stream, n) {
        return Ok(Beginning::Whole(text));
    }
    part_of(alloc, stream, n)
}

// What the code bytes have that a decoder reads, which has read none.
fn begin_by(
    alloc: Global,
    known: &mut Known<Slots>,
    stream: &mut pm_format::Decoder,
    coder: Decoder,
    n: u32,
) -> Result<Beginning, UnpackFail>
    requires first { known.old ≡ at_first }
    requires fresh { IsDecoderAfter [] stream.old }
    requires more { takes_more stream.old.stage ≡ true }
    requires none { stream.old.taken ≡ 0 }
    ensures ok { (code : List ℕ) → first code ≡ coder.entry
        → IfOk result (λ b. IsBeginningOf code n b) }
    ensures fail { (code : List ℕ) → first code ≡ coder.entry
        → IfErr result (λ e. IsEarlyFail code n e) }
{
    let mut coder = coder;
    let mut text = Vec::new(alloc);
    match read_until(known, &mut coder, stream, &mut text, n) {
        Err(fail) => Err(fail),
        Ok(Reach::Whole) if coder.is_at_end() => whole_of(alloc, stream, text, n),
        Ok(Reach::Whole) => Err(UnpackFail::Trailing),
        Ok(Reach::Enough) => part_of(alloc, stream, n),
        Ok(Reach::Cut) => part_of(alloc, stream, n),
    }
}

// The same where what is known at first is lent.
fn begin_from(
    alloc: Global,
    known: &mut Known<Slots>,
    coder: Decoder,
    n: u32,
) -> Result<Beginning, UnpackFail>
    requires { known.old ≡ at_first }
    ensures ok { (code : List ℕ) → first code ≡ coder.entry
        → IfOk result (λ b. IsBeginningOf code n b) }
    ensures fail { (code : List ℕ) → first code ≡ coder.entry
        → IfErr result (λ e. IsEarlyFail code n e) }
{
    match pm_format::Decoder::new(alloc) {
        Err(_) => Err(UnpackFail::OutOfMemory),
        Ok(stream) => {
            let mut stream = stream;
            begin_by(alloc, known, &mut stream, coder, n)
        }
    }
}

// What code bytes have.
fn begin_code(alloc: Global, code: &[u8], n: u32) -> Result<Beginning, UnpackFail>
    ensures ok { IfOk result (λ b. IsBeginningOf code.now n b) }
    ensures fail { IfErr result (λ e. IsEarlyFail code.now n e) }
{
    let Ok(coder) = Decoder::new(code) else {
        return Err(UnpackFail::Cut);
    };
    match at_first(alloc) {
        Err(_) => Err(UnpackFail::OutOfMemory),
        Ok(known) => {
            let mut known = known;
            begin_from(alloc, &mut known, coder, n)
        }
    }
}

/// What a packed text has of its first `n` records, though its bytes may be cut off: their
/// hierarchy, or that of all records that the bytes tell where those are fewer; or the whole stream
/// text, where that has no more records and its bytes are all there. `OutOfMemory` apart, it is
/// refused exactly where the bytes begin otherwise than packed texts, where what is read has a
/// fault, where bytes follow the whole text, and where the bytes end before all roots and base
/// faces. It reads no further than the last of these records.
pub fn unpack_first(alloc: Global, packed: &[u8], n: u32) -> Result<Beginning, UnpackFail>
    ensures ok { IfOk result (λ b. IsBeginning packed.now n b) }
    ensures fail { IfErr result (λ e. IsBeginningFail packed.now n e) }
{
    match code_in(packed) {
        Some(code) => begin_code(alloc, code, n),
        None => Err(UnpackFail::NotPacked),
    }
}
