//! The header of a stream text that comes in pieces.
ghost use Rattle.std.specs.Prelude.{◌≡◌, ◌≤◌, ◌<◌, ◌-◌, ◌⊎◌, ◌++◌, length, take, min, Some};
ghost use Rattle.std.specs.Prelude.{Ok, Err};
ghost use Rattle.pm_format.specs.Faults.{magic_is_bad};
ghost use Rattle.pm_format.specs.Standing.{header_bytes, JudgesHeader, stage_of};

use crate::FormatError;
use crate::feeding::Held;
use crate::stage::Stage;
use crate::stop::Stop;
use crate::units::{MAGIC, WITH_DIGITS, take_header};
use crate::words::Words;
use pm_forest::Shaper;
use std::alloc::Global;

// Takes bytes of a piece until so many are held.
fn fill(held: &mut Held, piece: &[u8], size: usize) -> usize
    requires { size ≤ 44 }
    ensures used { result ≡ min (length piece.now) (size - length held.old.items) }
    ensures held { held.new.items ≡ held.old.items ++ take result piece.now }
{
    let n = piece.len().min(size.saturating_sub(held.len()));
    let _ = held.try_extend_from_slice(&piece[..n]);
    n
}

// How many bytes a header has that begins so. Its version tells it.
#[tactic(auto, unfolding(crate::specs::Standing::header_bytes))]
fn header_size(held: &[u8]) -> usize
    ensures value { result ≡ header_bytes held.now }
    ensures most { result ≤ 28 }
{
    let mut words = Words::new(held);
    match (words.next_word(), words.next_word()) {
        (Some(_), Some(WITH_DIGITS)) => 28,
        _ => 24,
    }
}

/// Takes bytes of the header: as many as it lacks.
pub fn gather(held: &mut Held, piece: &[u8]) -> usize
    requires short { length held.old.items < header_bytes held.old.items }
    ensures within { result ≤ length piece.now }
    ensures held { held.new.items ≡ held.old.items ++ take result piece.now }
    ensures short { length held.new.items ≤ header_bytes held.new.items }
    ensures all { (result ≡ length piece.now)
        ⊎ (length held.new.items ≡ header_bytes held.new.items) }
{
    let version = fill(held, piece, 8);
    let size = header_size(held.as_slice());
    version + fill(held, &piece[version..], size)
}

// Whether a byte of the magic differs, as far as the bytes go.
#[tactic(auto, unfolding(crate::specs::Faults::magic_is_bad))]
fn is_magic_bad(bytes: &[u8]) -> bool
    ensures { result ≡ magic_is_bad bytes.now }
{
    !MAGIC.starts_with(&bytes[..bytes.len().min(4)])
}

// What a header that stops is: begun, or refused.
fn stopped(stop: Stop) -> Stage
    ensures { result ≡ stage_of stop }
{
    match stop {
        Stop::End => Stage::Header,
        Stop::Version(version) => Stage::Refused(FormatError::BadVersion(version)),
        Stop::Digits(digits) => Stage::Refused(FormatError::BadDigits(digits)),
        Stop::Fault(fault) => Stage::Refused(Stop::Fault(fault).named(0)),
    }
}

/// What the bytes of a header make of it.
pub fn judge_header(alloc: Global, bytes: &[u8]) -> Stage
    requires short { length bytes.now ≤ header_bytes bytes.now }
    ensures judged { JudgesHeader bytes.now result }
    ensures memory { result ≡ Stage.Refused FormatError.OutOfMemory
        → header_bytes bytes.now ≤ length bytes.now }
{
    if is_magic_bad(bytes) {
        return Stage::Refused(FormatError::BadMagic);
    }
    let mut words = Words::new(bytes);
    match take_header(&mut words) {
        Err(stop) => stopped(stop),
        Ok(header) => {
            let c = header.counts;
            match Shaper::new(alloc, c.leaves, c.roots, c.bases, c.records) {
                Ok(shaper) => Stage::Units(shaper, header.digits),
                Err(fault) => Stage::Refused(Stop::Fault(fault).named(0)),
            }
        }
    }
}
