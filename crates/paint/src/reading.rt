//! The stream text that bytes begin with.
ghost use Rattle.std.specs.Prelude.{◌≡◌, ◌≤◌, [], length, drop, IfOk, IfErr};
ghost use Rattle.pm_format.specs.Standing.{IsDecoderAfter};
ghost use Rattle.paint.specs.Streams.{BeginsWith, IsUnread};

use crate::fault::{Fault, of_stream};
use pm_forest::Hierarchy;
use pm_format::Decoder;
use pm_program::MakeFail;
use std::alloc::Global;

/// A hierarchy, and how many bytes its text has.
#[derive(Drop)]
pub struct Begun {
    pub h: Hierarchy,
    pub used: usize,
}

// Reads the text by a decoder that has taken no bytes.
fn read_by(decoder: Decoder, bytes: &[u8]) -> Result<Begun, MakeFail<Fault>>
    requires { IsDecoderAfter [] decoder }
    ensures ok { IfOk result (λ b. BeginsWith bytes.now b.h (drop b.used bytes.now)) }
    ensures within { IfOk result (λ b. b.used ≤ length bytes.now) }
    ensures err { IfErr result (λ e. IsUnread bytes.now e) }
{
    let mut decoder = decoder;
    match decoder.feed(bytes) {
        Err(fault) => Err(of_stream(fault)),
        Ok(taken) => match decoder.finish() {
            Ok(h) => Ok(Begun {
                h,
                used: taken.used,
            }),
            Err(fault) => Err(of_stream(fault)),
        },
    }
}

/// Reads the stream text that bytes begin with.
pub fn read_text(alloc: Global, bytes: &[u8]) -> Result<Begun, MakeFail<Fault>>
    ensures ok { IfOk result (λ b. BeginsWith bytes.now b.h (drop b.used bytes.now)) }
    ensures within { IfOk result (λ b. b.used ≤ length bytes.now) }
    ensures err { IfErr result (λ e. IsUnread bytes.now e) }
{
    match Decoder::new(alloc) {
        Ok(decoder) => read_by(decoder, bytes),
        Err(_) => Err(MakeFail::OutOfMemory),
    }
}
