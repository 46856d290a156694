//! A stream text as a packed text.
ghost use Rattle.std.specs.Prelude.{◌≡◌, ◌≢◌, ◌<◌, ◌++◌, [], IfOk, IfErr, OnOk};
ghost use Rattle.pm_coder.specs.Intervals.{whole};
ghost use Rattle.pm_coder.specs.Coders.{Writing, Makes};
ghost use Rattle.pm_format.specs.Words.{words_of};
ghost use Rattle.pm_pack.specs.Texts.{words_choices};
ghost use Rattle.pm_format.specs.Standing.{IsDecoderAfter};
ghost use Rattle.pm_pack.specs.Packing.{refused, Judged, IsPackFail, IsSaid};
ghost use Rattle.pm_pack.specs.Packed.{head, slots, at_first, IsStream, Says, IsPacked};

use crate::OutOfMemory;
use crate::next::Known;
use crate::slots::Slots;
use crate::text::Words;
use pm_coder::{Encoder, Fault, Predictor};
use pm_format::{FormatError, Taken};
use std::alloc::{AllocError, Global};

/// The bytes that a packed text begins with: its magic, and its version.
pub(crate) const HEAD: [u8; 5] = [86, 68, 80, 75, 1];

// How many slots there are.
const SLOTS: u32 = 0x10_0000;

/// What both sides know at first.
#[tactic(auto, unfolding(crate::specs::Packed::at_first))]
pub(crate) fn at_first(alloc: Global) -> Result<Known<Slots>, OutOfMemory>
    ensures { IfOk result (λ k. k ≡ at_first) }
{
    Known::new(alloc, Slots::new(alloc, SLOTS)?)
}

// Writes the words of a text.
fn write_words<P: Predictor + Drop>(
    known: &mut Known<P>,
    coder: &mut Encoder,
    text: &[u8],
) -> Result<(), Fault>
    ensures { OnOk result (Makes (Writing coder.old)
        (words_choices P.Predictor known.old (words_of text.now)) (Writing coder.new)) }
{
    let mut words = Words::new(text);
    while let Some(word) = words.next_word() {
        known.code_next(coder, word)?;
    }
    Ok(())
}

// The code bytes of a text.
fn code_of(alloc: Global, text: &[u8]) -> Result<Vec<u8>, OutOfMemory>
    ensures { IfOk result (λ code. Says slots at_first code.items (words_of text.now)) }
{
    let mut known = at_first(alloc)?;
    let mut coder = Encoder::new(alloc);
    match write_words(&mut known, &mut coder, text) {
        Ok(()) => coder.finish(),
        Err(_) => Err(AllocError),
    }
}

/// Why bytes aren't packed.
#[derive(Clone, Copy, Debug, PartialEq, Eq)]
pub enum PackFail {
    /// They have this fault of a stream text.
    Stream(FormatError),
    /// A byte follows the stream text.
    Trailing,
    OutOfMemory,
}

// Want of memory is no fault of a text.
fn refused(fault: FormatError) -> PackFail
    ensures { result ≡ refused fault }
{
    match fault {
        FormatError::OutOfMemory => PackFail::OutOfMemory,
        fault => PackFail::Stream(fault),
    }
}

// What became of bytes of which a decoder took a part.
fn judged(fed: Taken, size: usize) -> Result<(), PackFail>
    requires { fed.used < 4294967296 }
    ensures { Judged fed size result }
{
    if !fed.whole {
        Err(PackFail::Stream(FormatError::Truncated(fed.used as u32)))
    } else if fed.used < size {
        Err(PackFail::Trailing)
    } else {
        Ok(())
    }
}

// Whether the bytes are a stream text, by a decoder that has taken none.
fn judge_by(stream: &mut pm_format::Decoder, text: &[u8]) -> Result<(), PackFail>
    requires fresh { IsDecoderAfter [] stream.old }
    requires none { stream.old.taken ≡ 0 }
    ensures ok { OnOk result (IsStream text.now) }
    ensures fail { IfErr result (λ e. IsPackFail text.now e) }
{
    match stream.feed(text) {
        Err(fault) => Err(refused(fault)),
        Ok(fed) => judged(fed, text.len()),
    }
}

// Whether the bytes are a stream text.
fn judge(alloc: Global, text: &[u8]) -> Result<(), PackFail>
    ensures ok { OnOk result (IsStream text.now) }
    ensures fail { IfErr result (λ e. IsPackFail text.now e) }
{
    match pm_format::Decoder::new(alloc) {
        Err(_) => Err(PackFail::OutOfMemory),
        Ok(stream) => {
            let mut stream = stream;
            judge_by(&mut stream, text)
        }
    }
}

// The packed text whose code bytes these are.
fn with_head(alloc: Global, code: &[u8]) -> Result<Vec<u8>, OutOfMemory>
    ensures { IfOk result (λ packed. packed.items ≡ head ++ code.now) }
{
    let mut packed = Vec::from_slice(alloc, &HEAD)?;
    packed.extend_from_slice(code)?;
    Ok(packed)
}

/// The packed text of a stream text. `OutOfMemory` apart, it refuses exactly the bytes that are
/// none, with their first fault. It makes at most 67 choices a word. Beside the packed text it
/// takes 4 MB, 28 bytes for each node and 40 for each face.
pub fn pack(alloc: Global, text: &[u8]) -> Result<Vec<u8>, PackFail>
    ensures ok { IfOk result (λ packed. IsPacked packed.items text.now) }
    ensures fail { IfErr result (λ e. IsPackFail text.now e) }
    ensures none { IfErr result (λ e. e ≢ PackFail.OutOfMemory → ¬ IsStream text.now) }
{
    match judge(alloc, text) {
        Err(fail) => Err(fail),
        Ok(()) => packed_or(alloc, text),
    }
}

// The packed text of what is a stream text.
fn packed_or(alloc: Global, text: &[u8]) -> Result<Vec<u8>, PackFail>
    ensures said { IfOk result (λ packed. IsSaid packed.items text.now) }
    ensures memory { IfErr result (λ e. e ≡ PackFail.OutOfMemory) }
{
    match packed_as(alloc, text) {
        Ok(packed) => Ok(packed),
        Err(_) => Err(PackFail::OutOfMemory),
    }
}

// The head, and the code bytes of a text.
fn packed_as(alloc: Global, text: &[u8]) -> Result<Vec<u8>, OutOfMemory>
    ensures { IfOk result (λ packed. IsSaid packed.items text.now) }
{
    let code = code_of(alloc, text)?;
    with_head(alloc, code.as_slice())
}
