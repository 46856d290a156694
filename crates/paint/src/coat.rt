//! Reading the coat of a stream.
ghost use Rattle.std.specs.Prelude.{◌≡◌, ◌≤◌, ◌^◌, None, length, IfOk, OnOk, IfErr};
ghost use Rattle.pm_base.specs.declared.limits.TheConstants.{MOST_FACES, MOST_VERTICES};
ghost use Rattle.paint.specs.Coat.{AreSizes, coat_end, coordinates_of, sizes_of, whole_fault};
ghost use Rattle.paint.specs.Coat.{parts_fault, coat_fault, IsFail};

use crate::OutOfMemory;
use crate::judging::{
    end_fault, fillers_fault, head_fault, number_fault, part, signed_numbers, word_at,
};
use crate::refused::Refused;
use crate::sizes::Sizes;
use pm_base::Items;
use std::alloc::Global;

/// Why no coat is read.
#[derive(Clone, Copy, Debug, PartialEq, Eq)]
pub enum CoatFail {
    Refused(Refused),
    OutOfMemory,
}

/// Where the parts of a coat stand, and its texture coordinates.
#[derive(Drop)]
pub struct Judged {
    pub sizes: Sizes,
    pub coordinates: Items<i32>,
}

// The texture coordinates of a coat that has all its bytes.
#[tactic(auto, using(crate::proofs::CoatLaws::coordinates_within), unfolding(crate::specs::Coat::coordinates_of))]
fn coordinates(alloc: Global, bytes: &[u8], sizes: Sizes) -> Result<Items<i32>, OutOfMemory>
    requires sizes { AreSizes sizes }
    requires len { coat_end sizes ≤ length bytes.now }
    ensures { IfOk result (λ numbers. numbers.items ≡ coordinates_of sizes bytes.now) }
{
    signed_numbers(
        alloc,
        part(bytes, sizes.coordinates_from(), sizes.coordinate_bytes()),
    )
}

// What is wrong with the parts of a coat that has all its bytes.
#[tactic(auto, using(crate::proofs::CoatLaws::coordinates_few), unfolding(crate::specs::Coat::whole_fault))]
fn whole_fault(bytes: &[u8], sizes: Sizes, coordinates: &[i32]) -> Option<Refused>
    requires sizes { AreSizes sizes }
    requires len { coat_end sizes ≤ length bytes.now }
    requires coordinates { coordinates.now ≡ coordinates_of sizes bytes.now }
    ensures { result ≡ whole_fault sizes bytes.now }
{
    number_fault(coordinates, sizes.coordinates_from())
        .or(fillers_fault(bytes, sizes))
        .or(end_fault(bytes, sizes))
}

// What follows a head without a fault.
#[tactic(auto, unfolding(crate::specs::Coat::parts_fault))]
fn read_parts(alloc: Global, bytes: &[u8], sizes: Sizes) -> Result<Items<i32>, CoatFail>
    requires sizes { AreSizes sizes }
    requires len { length bytes.now ≤ 2 ^ 30 }
    ensures ok { IfOk result (λ numbers. numbers.items ≡ coordinates_of sizes bytes.now) }
    ensures none { OnOk result (parts_fault sizes bytes.now ≡ None) }
    ensures all { OnOk result (coat_end sizes ≤ length bytes.now) }
    ensures err { IfErr result (λ e. IsFail (parts_fault sizes bytes.now) e) }
{
    if bytes.len() < sizes.coat_end() {
        return Err(CoatFail::Refused(Refused::Cut(bytes.len() as u32)));
    }
    match coordinates(alloc, bytes, sizes) {
        Err(_) => Err(CoatFail::OutOfMemory),
        Ok(coordinates) => match whole_fault(bytes, sizes, coordinates.as_slice()) {
            Some(fault) => Err(CoatFail::Refused(fault)),
            None => Ok(coordinates),
        },
    }
}

/// Reads the coat for so many vertices and faces.
#[tactic(auto, unfolding(crate::specs::Coat::coat_fault))]
pub fn read_coat(alloc: Global, bytes: &[u8], vertices: u32, faces: u32) -> Result<Judged, CoatFail>
    requires vertices { vertices ≤ MOST_VERTICES }
    requires faces { faces ≤ MOST_FACES }
    requires len { length bytes.now ≤ 2 ^ 30 }
    ensures sizes { IfOk result (λ coat. coat.sizes ≡ sizes_of vertices faces bytes.now) }
    ensures coordinates { IfOk result (λ coat. coat.coordinates.items
        ≡ coordinates_of (sizes_of vertices faces bytes.now) bytes.now) }
    ensures none { OnOk result (coat_fault vertices faces bytes.now ≡ None) }
    ensures all { IfOk result (λ coat. coat_end coat.sizes ≤ length bytes.now) }
    ensures err { IfErr result (λ e. IsFail (coat_fault vertices faces bytes.now) e) }
{
    if let Some(fault) = head_fault(bytes, vertices, faces) {
        return Err(CoatFail::Refused(fault));
    }
    let sizes = Sizes {
        vertices,
        faces,
        parts: word_at(bytes, 16),
    };
    match read_parts(alloc, bytes, sizes) {
        Ok(coordinates) => Ok(Judged { sizes, coordinates }),
        Err(fail) => Err(fail),
    }
}
