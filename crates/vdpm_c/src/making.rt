//! The exported functions that make bytes of an OBJ text. Each answers a status: 0 where all was
//! done.
ghost use Rattle.std.specs.Prelude.{◌≡◌, ◌≢◌, ◌≤◌, ◌<◌, ◌↔◌, None, length};
ghost use Rattle.pm_commands.specs.declared.asked.Asked.TheVariants as asked;
ghost use Rattle.pm_commands.specs.Build.{IsBuilt};
ghost use Rattle.pm_commands.specs.Simplified.{IsSimplifiedText};
ghost use Rattle.obj_fit.specs.Laws.{IsFitText};
ghost use Rattle.pm_making.specs.Making.{MadeText, IsStreamOf};
ghost use Rattle.pm_making.specs.Fitting.{IsPreparedOf};
ghost use Rattle.vdpm_c.specs.Making.{IsWhole, HasMade, RefusedText, UnfitText, border_told};
ghost use Rattle.vdpm_c.specs.Border.{IsCopied};
ghost use Rattle.vdpm_c.specs.Making.{no_fault, size_told};

use crate::holding::{put_made, take_made};
use crate::statuses::{DONE, NOT_SO, OUT_OF_RANGE};
use crate::tables::{FaultTold, MadeHandle, NO_FAULT};
use crate::{inside, made};
use std::alloc::Global;

/// Makes the stream of an OBJ text's mesh, as `vdpm build` does.
#[unsafe(no_mangle)]
#[tactic(auto, using(crate::proofs::MadeLaws::refused_text))]
pub extern "C" fn vdpm_build(
    alloc: Global,
    text: &[u8],
    faces: u32,
    digits: u32,
    handle: &mut MadeHandle,
    fault: &mut FaultTold,
) -> u32
    ensures done { result ≡ 0 → (m : MadeText) × HasMade handle.new m
        × IsStreamOf (IsBuilt faces digits) (asked.Build faces digits) digits text.now m }
    ensures refused { result ≡ 1 → RefusedText (IsBuilt faces digits) text.now fault.new }
    ensures untold { result ≢ 1 → fault.new ≡ no_fault }
    ensures out_of_range { result ≡ 2 ↔ (handle.old.open ≡ 0) × (4 < digits) }
    ensures not_so { result ≡ 6 ↔ (handle.old.open ≢ 0) }
    ensures statuses { result ≢ 0 → result ≢ 1 → result ≢ 2 → result ≢ 6 → result ≡ 5 }
    ensures as_before { result ≢ 0 → handle.new ≡ handle.old }
{
    *fault = NO_FAULT;
    if handle.open != 0 {
        return NOT_SO;
    }
    if digits > 4 {
        return OUT_OF_RANGE;
    }
    match pm_making::build(alloc, text, faces, digits) {
        Ok(it) => made::keep(alloc, it, handle),
        Err(fail) => made::refused(fail, fault),
    }
}

/// Makes the stream of an OBJ text's mesh, as the program `simplify` does.
#[unsafe(no_mangle)]
#[tactic(auto, using(crate::proofs::MadeLaws::refused_text))]
pub extern "C" fn vdpm_simplify(
    alloc: Global,
    text: &[u8],
    faces: u32,
    digits: u32,
    keep_border: u32,
    handle: &mut MadeHandle,
    fault: &mut FaultTold,
) -> u32
    ensures done { result ≡ 0 → (m : MadeText) × HasMade handle.new m
        × IsStreamOf (IsSimplifiedText (border_told keep_border) faces digits)
        (asked.Simplify faces digits (border_told keep_border)) digits text.now m }
    ensures refused { result ≡ 1 → RefusedText
        (IsSimplifiedText (border_told keep_border) faces digits) text.now fault.new }
    ensures untold { result ≢ 1 → fault.new ≡ no_fault }
    ensures out_of_range { result ≡ 2 ↔ (handle.old.open ≡ 0) × (4 < digits) }
    ensures not_so { result ≡ 6 ↔ (handle.old.open ≢ 0) }
    ensures statuses { result ≢ 0 → result ≢ 1 → result ≢ 2 → result ≢ 6 → result ≡ 5 }
    ensures as_before { result ≢ 0 → handle.new ≡ handle.old }
{
    *fault = NO_FAULT;
    if handle.open != 0 {
        return NOT_SO;
    }
    if digits > 4 {
        return OUT_OF_RANGE;
    }
    match pm_making::simplify(alloc, text, faces, digits, made::border_told(keep_border)) {
        Ok(it) => made::keep(alloc, it, handle),
        Err(fail) => made::refused(fail, fault),
    }
}

/// Makes any OBJ text fit, as the program `prepare` does.
#[unsafe(no_mangle)]
pub extern "C" fn vdpm_prepare(
    alloc: Global,
    text: &[u8],
    size: u32,
    handle: &mut MadeHandle,
    fault: &mut FaultTold,
) -> u32
    ensures done { result ≡ 0 → (m : MadeText) × HasMade handle.new m
        × IsPreparedOf (size_told size) text.now m × IsFitText m.bytes }
    ensures refused { result ≡ 1 → UnfitText (size_told size) text.now fault.new }
    ensures untold { result ≢ 1 → fault.new ≡ no_fault }
    ensures out_of_range { result ≡ 2 ↔ (handle.old.open ≡ 0) × (32767 < size) }
    ensures not_so { result ≡ 6 ↔ (handle.old.open ≢ 0) }
    ensures statuses { result ≢ 0 → result ≢ 1 → result ≢ 2 → result ≢ 6 → result ≡ 5 }
    ensures as_before { result ≢ 0 → handle.new ≡ handle.old }
{
    *fault = NO_FAULT;
    if handle.open != 0 {
        return NOT_SO;
    }
    if size > 32767 {
        return OUT_OF_RANGE;
    }
    match pm_making::prepare(alloc, text, made::size_told(size)) {
        Ok(it) => made::keep(alloc, it, handle),
        Err(fail) => made::unfit(fail, fault),
    }
}

/// Tells how long what was made is, and the lines that are said beside it.
#[unsafe(no_mangle)]
pub extern "C" fn vdpm_made_length(
    alloc: Global,
    handle: &mut MadeHandle,
    bytes: &mut usize,
    notes: &mut usize,
) -> u32
    requires { IsWhole handle.old }
    ensures told { (m : MadeText) → HasMade handle.old m → (result ≡ 0)
        × (bytes.new ≡ length m.bytes) × (notes.new ≡ length m.notes) × HasMade handle.new m }
    ensures not_so { handle.old.open ≢ 1 → (result ≡ 6) × (handle.new ≡ handle.old)
        × (bytes.new ≡ bytes.old) × (notes.new ≡ notes.old) }
{
    if handle.open != 1 {
        return NOT_SO;
    }
    let it = take_made(alloc, handle);
    *bytes = it.bytes().len();
    *notes = it.notes().len();
    put_made(handle, it);
    DONE
}

/// Copies what was made.
#[unsafe(no_mangle)]
pub extern "C" fn vdpm_made_bytes(alloc: Global, handle: &mut MadeHandle, out: &mut [u8]) -> u32
    requires { IsWhole handle.old }
    ensures copied { (m : MadeText) → HasMade handle.old m → length m.bytes ≤ length out.old
        → (result ≡ 0) × IsCopied m.bytes out.old out.new × HasMade handle.new m }
    ensures no_room { (m : MadeText) → HasMade handle.old m → (length m.bytes ≤ length out.old → ⊥)
        → (result ≡ 7) × (out.new ≡ out.old) × HasMade handle.new m }
    ensures not_so { handle.old.open ≢ 1 → (result ≡ 6) × (handle.new ≡ handle.old)
        × (out.new ≡ out.old) }
{
    if handle.open != 1 {
        return NOT_SO;
    }
    let it = take_made(alloc, handle);
    let status = inside::copy(it.bytes(), out);
    put_made(handle, it);
    status
}

/// Copies the lines that are said beside it.
#[unsafe(no_mangle)]
pub extern "C" fn vdpm_made_notes(alloc: Global, handle: &mut MadeHandle, out: &mut [u8]) -> u32
    requires { IsWhole handle.old }
    ensures copied { (m : MadeText) → HasMade handle.old m → length m.notes ≤ length out.old
        → (result ≡ 0) × IsCopied m.notes out.old out.new × HasMade handle.new m }
    ensures no_room { (m : MadeText) → HasMade handle.old m → (length m.notes ≤ length out.old → ⊥)
        → (result ≡ 7) × (out.new ≡ out.old) × HasMade handle.new m }
    ensures not_so { handle.old.open ≢ 1 → (result ≡ 6) × (handle.new ≡ handle.old)
        × (out.new ≡ out.old) }
{
    if handle.open != 1 {
        return NOT_SO;
    }
    let it = take_made(alloc, handle);
    let status = inside::copy(it.notes(), out);
    put_made(handle, it);
    status
}

/// Gives the memory of what was made back. A handle that isn't open stays as it is.
#[unsafe(no_mangle)]
pub extern "C" fn vdpm_made_close(alloc: Global, handle: &mut MadeHandle)
    requires { IsWhole handle.old }
    ensures closed { handle.old.open ≡ 1 → (handle.new.open ≡ 0) × (handle.new.slot.value ≡ None) }
    ensures not_so { handle.old.open ≢ 1 → handle.new ≡ handle.old }
{
    if handle.open == 1 {
        let _ = take_made(alloc, handle);
    }
}
