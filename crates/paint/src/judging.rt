//! What is wrong with bytes that should be a coat.
ghost use Rattle.std.specs.Prelude.{◌≡◌, ◌≤◌, ◌<◌, ◌+◌, ◌*◌, ◌^◌, ◌==◌, not, None, length, IfOk};
ghost use Rattle.std.specs.Prelude.{IfSome};
ghost use Rattle.std.specs.List.{position};
ghost use Rattle.paint.specs.Coat.{part, word_at, signed_at, signed_numbers, are_parts, head_fault};
ghost use Rattle.pm_fits.specs.Faults.{is_number};
ghost use Rattle.paint.specs.Coat.{number_fault, filler_fault, fillers_fault};
ghost use Rattle.paint.specs.Coat.{end_fault, coat_end, AreSizes};

use crate::OutOfMemory;
use crate::refused::Refused;
use crate::sizes::{HEAD, Sizes, filler};
use pm_base::Items;
use pm_fits::GREATEST_NUMBER;
use std::alloc::Global;

/// So many bytes from a place on.
pub(crate) fn part(bytes: &[u8], from: usize, len: usize) -> &[u8]
    requires { from + len ≤ length bytes.now }
    ensures value { result.now ≡ part from len bytes.now }
    ensures len { length result.now ≡ len }
{
    &bytes[from..from + len]
}

/// The number that four bytes from a place on are, the least first.
#[tactic(auto, unfolding(crate::specs::Coat::word_at))]
pub(crate) fn word_at(bytes: &[u8], at: usize) -> u32
    requires { at + 4 ≤ length bytes.now }
    ensures { result ≡ word_at bytes.now at }
{
    let high = u32::from(bytes[at + 2]) + 256 * u32::from(bytes[at + 3]);
    u32::from(bytes[at]) + 256 * (u32::from(bytes[at + 1]) + 256 * high)
}

// The signed number that four bytes are.
fn signed_at(bytes: &[u8], i: usize) -> i32
    requires { 4 * i + 4 ≤ length bytes.now }
    ensures { result ≡ signed_at bytes.now i }
{
    word_at(bytes, 4 * i).cast_signed()
}

/// The signed numbers that bytes are, four bytes each.
#[tactic(auto, unfolding(crate::specs::Coat::signed_numbers))]
pub(crate) fn signed_numbers(alloc: Global, bytes: &[u8]) -> Result<Items<i32>, OutOfMemory>
    ensures { IfOk result (λ numbers. numbers.items ≡ signed_numbers bytes.now) }
{
    let count = bytes.len() / 4;
    let mut numbers = Items::new(alloc);
    numbers.reserve(count)?;
    for i in 0..count {
        numbers.push_within_room(signed_at(bytes, i));
    }
    Ok(numbers)
}

// Whether a coat may have these parts.
fn are_parts(parts: u32) -> bool
    ensures { result ≡ are_parts parts }
{
    parts >= 1 && parts <= 7
}

/// What is wrong with the head of a coat for so many vertices and faces.
#[tactic(auto, unfolding(crate::specs::Coat::head_fault))]
pub(crate) fn head_fault(bytes: &[u8], vertices: u32, faces: u32) -> Option<Refused>
    requires { length bytes.now ≤ 2 ^ 30 }
    ensures value { result ≡ head_fault vertices faces bytes.now }
    ensures enough { result ≡ None → 20 ≤ length bytes.now }
{
    if !bytes.starts_with(b"COAT") {
        Some(Refused::NoCoat)
    } else if bytes.len() < HEAD {
        Some(Refused::Cut(bytes.len() as u32))
    } else if word_at(bytes, 4) != 1 {
        Some(Refused::Version)
    } else if word_at(bytes, 8) != vertices {
        Some(Refused::Vertices)
    } else if word_at(bytes, 12) != faces {
        Some(Refused::Faces)
    } else if !are_parts(word_at(bytes, 16)) {
        Some(Refused::Parts)
    } else {
        None
    }
}

fn is_number(n: i32) -> bool
    ensures { result ≡ is_number n }
{
    n.unsigned_abs() <= GREATEST_NUMBER
}

// The first number that is out of range.
fn first_wrong(numbers: &[i32]) -> Option<usize>
    ensures value { result ≡ position (λ n. not (is_number n)) numbers.now }
    ensures below { IfSome result (λ i. i < length numbers.now) }
{
    for i in 0..numbers.len() {
        if !is_number(numbers[i]) {
            return Some(i);
        }
    }
    None
}

/// The first number that is out of range, where numbers begin behind so many bytes.
#[tactic(auto, unfolding(crate::specs::Coat::number_fault))]
pub(crate) fn number_fault(numbers: &[i32], from: usize) -> Option<Refused>
    requires { from + 4 * length numbers.now < 2 ^ 30 }
    ensures { result ≡ number_fault from numbers.now }
{
    match first_wrong(numbers) {
        None => None,
        Some(i) => Some(Refused::Number((from + 4 * i + 1) as u32)),
    }
}

// The first byte that isn't 0.
fn first_other(bytes: &[u8]) -> Option<usize>
    ensures value { result ≡ position (λ b. not (b == 0)) bytes.now }
    ensures below { IfSome result (λ i. i < length bytes.now) }
{
    for i in 0..bytes.len() {
        if bytes[i] != 0 {
            return Some(i);
        }
    }
    None
}

// The first byte that isn't 0, where the bytes begin behind so many.
#[tactic(auto, unfolding(crate::specs::Coat::filler_fault))]
fn filler_fault(bytes: &[u8], from: usize) -> Option<Refused>
    requires { from + length bytes.now < 2 ^ 30 }
    ensures { result ≡ filler_fault from bytes.now }
{
    match first_other(bytes) {
        None => None,
        Some(i) => Some(Refused::Filler((from + i + 1) as u32)),
    }
}

/// What is wrong with the fillers of a coat that has all its bytes.
#[tactic(auto, using(crate::proofs::CoatLaws::colours_within, crate::proofs::CoatLaws::fillers_within), unfolding(crate::specs::Coat::fillers_fault))]
pub(crate) fn fillers_fault(bytes: &[u8], sizes: Sizes) -> Option<Refused>
    requires sizes { AreSizes sizes }
    requires len { coat_end sizes ≤ length bytes.now }
    ensures { result ≡ fillers_fault sizes bytes.now }
{
    let colours = part(bytes, sizes.colours_end(), filler(sizes.colour_bytes()));
    let pages = part(bytes, sizes.pages_end(), filler(sizes.page_bytes()));
    filler_fault(colours, sizes.colours_end()).or(filler_fault(pages, sizes.pages_end()))
}

/// What is wrong with what follows a coat that has all its bytes.
#[tactic(auto, unfolding(crate::specs::Coat::end_fault))]
pub(crate) fn end_fault(bytes: &[u8], sizes: Sizes) -> Option<Refused>
    requires { AreSizes sizes }
    ensures { result ≡ end_fault sizes bytes.now }
{
    if bytes.len() > sizes.coat_end() {
        Some(Refused::Trailing(sizes.coat_end() as u32 + 1))
    } else {
        None
    }
}
