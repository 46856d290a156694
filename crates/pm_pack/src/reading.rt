//! A packed text as the stream text that it is of.
ghost use Rattle.std.specs.Prelude.{◌≡◌, ◌≢◌, ◌<◌, ◌≤◌, ◌+◌, ◌^◌, ◌++◌, [], ℕ, List, true};
ghost use Rattle.std.specs.Prelude.{IfOk, IfErr, MatchOption};
ghost use Rattle.byteorder.specs.Endian.{little_bytes};
ghost use Rattle.pm_coder.specs.RoundTrips.{first};
ghost use Rattle.pm_format.specs.Standing.{IsDecoderAfter, takes_more};
ghost use Rattle.pm_pack.specs.Texts as texts;
ghost use Rattle.pm_pack.specs.Packed.{head, slots, at_first, IsPacked};
ghost use Rattle.pm_pack.specs.Unpacking.{named, Feeds, ReadsOn, Steps, Ends, SaysStream};
ghost use Rattle.pm_pack.specs.Unpacking.{IsFailOf, IsFail};

use crate::next::Known;
use crate::slots::Slots;
use crate::writing::{HEAD, at_first};
use pm_coder::{Cut, Decoder, Fault, Predictor};
use pm_format::FormatError;
use std::alloc::Global;

/// Why bytes are no packed text.
#[derive(Clone, Copy, Debug, PartialEq, Eq)]
pub enum UnpackFail {
    /// They begin otherwise.
    NotPacked,
    /// They end too early, or tell a word as none is told.
    Cut,
    /// Bytes follow the packed text.
    Trailing,
    /// What they say has this fault of a stream text.
    Stream(FormatError),
    OutOfMemory,
}

// A fault of a stream text, or want of memory.
fn named(fault: FormatError) -> UnpackFail
    ensures { result ≡ named fault }
{
    match fault {
        FormatError::OutOfMemory => UnpackFail::OutOfMemory,
        fault => UnpackFail::Stream(fault),
    }
}

// The bytes of a word.
fn word_bytes(word: u32) -> [u8; 4]
    ensures { result ≡ little_bytes 4 word }
{
    word.to_le_bytes()
}

// Adds a word to the text, and answers whether more are to come.
fn feed_word(
    stream: &mut pm_format::Decoder,
    text: &mut Vec<u8>,
    word: u32,
) -> Result<bool, UnpackFail>
    ensures fed { IsDecoderAfter text.old.items stream.old
        → Feeds text.old.items (little_bytes 4 word) text.new.items stream.new result }
    ensures further { IfOk result (λ more. more ≡ true → stream.old.taken < stream.new.taken) }
    ensures most { IfOk result (λ more. more ≡ true → stream.new.taken ≤ 2 ^ 28 + 44) }
{
    let bytes = word_bytes(word);
    let Ok(()) = text.extend_from_slice(&bytes) else {
        return Err(UnpackFail::OutOfMemory);
    };
    match stream.feed(&bytes) {
        Err(fault) => Err(named(fault)),
        Ok(fed) => Ok(!fed.whole),
    }
}

// Reads one more word, and answers whether more are to come.
pub(crate) fn read_word<P: Predictor + Drop>(
    known: &mut Known<P>,
    coder: &mut Decoder,
    stream: &mut pm_format::Decoder,
    text: &mut Vec<u8>,
) -> Result<bool, UnpackFail>
    ensures steps { (from : texts.Known P) (code : List ℕ)
        → (reads : ReadsOn P.Predictor from code known.old coder.old stream.old text.old.items)
        → Steps P.Predictor from code reads.words known.new coder.new stream.new text.new.items
        result }
    ensures further { IfOk result (λ more. more ≡ true → stream.old.taken < stream.new.taken) }
    ensures most { IfOk result (λ more. more ≡ true → stream.new.taken ≤ 2 ^ 28 + 44) }
{
    match known.code_next(coder, 0) {
        Ok(word) => feed_word(stream, text, word),
        Err(Fault::Cut) => Err(UnpackFail::Cut),
        Err(Fault::OutOfMemory) => Err(UnpackFail::OutOfMemory),
    }
}

// Reads words up to the end of a stream text.
fn read_words<P: Predictor + Drop>(
    known: &mut Known<P>,
    coder: &mut Decoder,
    stream: &mut pm_format::Decoder,
    text: &mut Vec<u8>,
) -> Result<(), UnpackFail>
    requires { stream.old.taken ≤ 2 ^ 28 + 44 }
    ensures { (from : texts.Known P) (code : List ℕ)
        → ReadsOn P.Predictor from code known.old coder.old stream.old text.old.items
        → Ends P.Predictor from code coder.new text.new.items result }
{
    loop {
        match read_word(known, coder, stream, text) {
            Err(fail) => return Err(fail),
            Ok(false) => return Ok(()),
            Ok(true) => {}
        }
    }
}

// The stream text whose words a decoder of code bytes reads, which has read none.
fn unpack_by(alloc: Global, coder: Decoder) -> Result<Vec<u8>, UnpackFail>
    ensures ok { (code : List ℕ) → first code ≡ coder.entry
        → IfOk result (λ text. SaysStream code text.items) }
    ensures fail { (code : List ℕ) → first code ≡ coder.entry
        → IfErr result (λ e. IsFailOf slots at_first code e) }
{
    match at_first(alloc) {
        Err(_) => Err(UnpackFail::OutOfMemory),
        Ok(known) => {
            let mut known = known;
            unpack_from(alloc, &mut known, coder)
        }
    }
}

// The same where what is known at first is lent.
fn unpack_from(
    alloc: Global,
    known: &mut Known<Slots>,
    coder: Decoder,
) -> Result<Vec<u8>, UnpackFail>
    requires { known.old ≡ at_first }
    ensures ok { (code : List ℕ) → first code ≡ coder.entry
        → IfOk result (λ text. SaysStream code text.items) }
    ensures fail { (code : List ℕ) → first code ≡ coder.entry
        → IfErr result (λ e. IsFailOf slots at_first code e) }
{
    match pm_format::Decoder::new(alloc) {
        Err(_) => Err(UnpackFail::OutOfMemory),
        Ok(stream) => {
            let mut stream = stream;
            read_text(alloc, known, &mut stream, coder)
        }
    }
}

// The same where the decoder of the stream is lent too, which has taken none.
fn read_text(
    alloc: Global,
    known: &mut Known<Slots>,
    stream: &mut pm_format::Decoder,
    coder: Decoder,
) -> Result<Vec<u8>, UnpackFail>
    requires first { known.old ≡ at_first }
    requires fresh { IsDecoderAfter [] stream.old }
    requires more { takes_more stream.old.stage ≡ true }
    requires none { stream.old.taken ≡ 0 }
    ensures ok { (code : List ℕ) → first code ≡ coder.entry
        → IfOk result (λ text. SaysStream code text.items) }
    ensures fail { (code : List ℕ) → first code ≡ coder.entry
        → IfErr result (λ e. IsFailOf slots at_first code e) }
{
    let mut coder = coder;
    let mut text = Vec::new(alloc);
    match read_words(known, &mut coder, stream, &mut text) {
        Err(fail) => Err(fail),
        Ok(()) if coder.is_at_end() => Ok(text),
        Ok(()) => Err(UnpackFail::Trailing),
    }
}

// The stream text whose words the code bytes say.
fn unpack_code(alloc: Global, code: &[u8]) -> Result<Vec<u8>, UnpackFail>
    ensures ok { IfOk result (λ text. SaysStream code.now text.items) }
    ensures fail { IfErr result (λ e. IsFailOf slots at_first code.now e) }
{
    match Decoder::new(code) {
        Ok(coder) => unpack_by(alloc, coder),
        Err(Cut) => Err(UnpackFail::Cut),
    }
}

// What follows the head, where the bytes begin with it.
pub(crate) fn code_in(packed: &[u8]) -> Option<&[u8]>
    ensures { MatchOption result ((code : List ℕ) → packed.now ≢ head ++ code)
        (λ code. packed.now ≡ head ++ code.now) }
{
    packed.strip_prefix(&HEAD)
}

/// The stream text of a packed text. `OutOfMemory` apart, it refuses exactly the bytes that are
/// none. It takes at most 67 choices a word, and no word after the first unit that has a fault, so
/// it takes no more words than the counts of the text tell, whatever the bytes are.
pub fn unpack(alloc: Global, packed: &[u8]) -> Result<Vec<u8>, UnpackFail>
    ensures ok { IfOk result (λ text. IsPacked packed.now text.items) }
    ensures back { (text : List ℕ) → IsPacked packed.now text
        → IfOk result (λ unpacked. unpacked.items ≡ text) }
    ensures fail { IfErr result (λ e. IsFail packed.now e) }
    ensures none { IfErr result (λ e. e ≢ UnpackFail.OutOfMemory → (text : List ℕ)
        → ¬ IsPacked packed.now text) }
{
    match code_in(packed) {
        Some(code) => unpack_code(alloc, code),
        None => Err(UnpackFail::NotPacked),
    }
}
