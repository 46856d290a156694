//! What is made of the bytes of the input: the lines of the coat that follows a stream text.
ghost use Rattle.std.specs.Prelude.{◌≡◌, ◌≤◌, ◌^◌, drop, length, IfOk, IfErr};
ghost use Rattle.pm_forest.specs.Forest.{leaf_count};
ghost use Rattle.pm_forest.specs.Faces.{face_count};
ghost use Rattle.paint.specs.Coat.{AreSizes, IsFail, coat_end, coat_fault, coat_with};
ghost use Rattle.paint.specs.Coat.{coordinates_of};
ghost use Rattle.paint.specs.Lines.{IsFor, lines_of};
ghost use Rattle.paint.specs.Streams.{BeginsWith};
ghost use Rattle.pm_program.specs.Making.{FailsBy};
ghost use Rattle.paint.specs.Making.{IsPainted, IsMade, Refuses, coat_fail};

use crate::OutOfMemory;
use crate::coat::{CoatFail, Judged, read_coat};
use crate::fault::Fault;
use crate::parts::{add_colours, add_coordinates, add_face_pages};
use crate::reading::{Begun, read_text};
use pm_forest::Hierarchy;
use pm_program::MakeFail;
use std::alloc::Global;

// Want of memory is no fault of the input.
fn of_coat(fail: CoatFail) -> MakeFail<Fault>
    ensures { result ≡ coat_fail fail }
{
    match fail {
        CoatFail::Refused(refused) => MakeFail::Faulty(Fault::Coat(refused)),
        CoatFail::OutOfMemory => MakeFail::OutOfMemory,
    }
}

// The lines of a coat without a fault.
#[tactic(auto, unfolding(crate::specs::Lines::lines_of))]
fn lines(alloc: Global, h: &Hierarchy, bytes: &[u8], coat: &Judged) -> Result<Vec<u8>, OutOfMemory>
    requires sizes { AreSizes coat.now.sizes }
    requires fits { IsFor h.now coat.now.sizes }
    requires len { coat_end coat.now.sizes ≤ length bytes.now }
    requires coordinates { coat.now.coordinates.items ≡ coordinates_of coat.now.sizes bytes.now }
    ensures { IfOk result (λ text.
        text.items ≡ lines_of h.now (coat_with coat.now.sizes bytes.now)) }
{
    let mut text = Vec::new(alloc);
    add_colours(alloc, &mut text, h, bytes, coat.sizes)?;
    add_coordinates(alloc, &mut text, h, coat)?;
    add_face_pages(&mut text, h, bytes, coat.sizes)?;
    Ok(text)
}

// The lines of the coat that bytes are for a hierarchy.
fn paint_rest(alloc: Global, h: &Hierarchy, rest: &[u8]) -> Result<Vec<u8>, CoatFail>
    requires { length rest.now ≤ 2 ^ 30 }
    ensures ok { IfOk result (λ lines. IsPainted h.now rest.now lines.items) }
    ensures err { IfErr result (λ e.
        IsFail (coat_fault (leaf_count h.now) (face_count h.now) rest.now) e) }
{
    match read_coat(alloc, rest, h.leaves(), h.faces()) {
        Err(fail) => Err(fail),
        Ok(coat) => match lines(alloc, h, rest, &coat) {
            Ok(text) => Ok(text),
            Err(_) => Err(CoatFail::OutOfMemory),
        },
    }
}

// The lines of the coat that follows a stream text which was read.
fn paint_after(alloc: Global, begun: &Begun, bytes: &[u8]) -> Result<Vec<u8>, MakeFail<Fault>>
    requires begins { BeginsWith bytes.now begun.now.h (drop begun.now.used bytes.now) }
    requires within { begun.now.used ≤ length bytes.now }
    requires len { length bytes.now ≤ 2 ^ 30 }
    ensures ok { IfOk result (λ lines. IsMade bytes.now lines.items) }
    ensures err { IfErr result (λ e. FailsBy Refuses bytes.now e) }
{
    match paint_rest(alloc, &begun.h, &bytes[begun.used..]) {
        Ok(text) => Ok(text),
        Err(fail) => Err(of_coat(fail)),
    }
}

/// The lines of the coat that follows the stream text which the bytes begin with.
pub fn paint(alloc: Global, bytes: &[u8]) -> Result<Vec<u8>, MakeFail<Fault>>
    requires { length bytes.now ≤ 2 ^ 30 }
    ensures ok { IfOk result (λ lines. IsMade bytes.now lines.items) }
    ensures err { IfErr result (λ e. FailsBy Refuses bytes.now e) }
{
    match read_text(alloc, bytes) {
        Err(fail) => Err(fail),
        Ok(begun) => paint_after(alloc, &begun, bytes),
    }
}
