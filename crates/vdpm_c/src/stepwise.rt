//! The exported functions that simplify in steps. Each answers a status: 0 where all was done.
ghost use Rattle.std.specs.Prelude.{◌≡◌, ◌≢◌, ◌<◌, ◌↔◌, ◌⊎◌, ℕ, List, true, false, None};
ghost use Rattle.pm_commands.specs.declared.asked.Asked.TheVariants as asked;
ghost use Rattle.pm_commands.specs.declared.asked.Border.{Border};
ghost use Rattle.pm_commands.specs.Simplified.{IsSimplifiedText};
ghost use Rattle.pm_commands.specs.Stepwise.{SteppedRun, IsBegun, IsRunOf, HasStepped};
ghost use Rattle.pm_making.specs.Making.{MadeText, IsStreamOf};
ghost use Rattle.vdpm_c.specs.Making.{HasMade, RefusedText, border_told, no_fault};
ghost use Rattle.vdpm_c.specs.Stepwise.{HasRun, IsWholeRun, IsProgressTold};

use crate::holding::{put_run, take_run};
use crate::made;
use crate::statuses::{DONE, NO_MEMORY, NOT_SO, OUT_OF_RANGE};
use crate::tables::{FaultTold, MadeHandle, NO_FAULT, ProgressTold, RunHandle};
use pm_commands::Simplifying;
use std::alloc::Global;

// How far a run is, for C.
fn told(it: &Simplifying) -> ProgressTold
    ensures { IsProgressTold it.now result }
{
    let progress = it.progress();
    ProgressTold {
        faces: progress.faces,
        faces_left: progress.faces_left,
        collapses: progress.collapses,
        ended: u32::from(progress.ended),
    }
}

// Puts what was begun into a handle.
fn keep(alloc: Global, it: Simplifying, handle: &mut RunHandle) -> u32
    ensures status { result ≢ 0 → result ≡ 5 }
    ensures kept { result ≡ 0 → HasRun handle.new it }
    ensures as_before { result ≢ 0 → handle.new ≡ handle.old }
{
    let Ok(boxed) = Box::new(alloc, it) else {
        return NO_MEMORY;
    };
    put_run(handle, boxed);
    DONE
}

/// Begins to make the stream of an OBJ text's mesh, as `vdpm_simplify` does it at once. No collapse
/// is done here.
#[unsafe(no_mangle)]
#[tactic(auto, using(crate::proofs::MadeLaws::refused_text))]
pub extern "C" fn vdpm_simplify_begin(
    alloc: Global,
    text: &[u8],
    faces: u32,
    digits: u32,
    keep_border: u32,
    handle: &mut RunHandle,
    fault: &mut FaultTold,
) -> u32
    ensures done { result ≡ 0 → (s : SteppedRun) × HasRun handle.new s
        × IsBegun (border_told keep_border) faces digits text.now s }
    ensures refused { result ≡ 1 → RefusedText
        (IsSimplifiedText (border_told keep_border) faces digits) text.now fault.new }
    ensures untold { result ≢ 1 → fault.new ≡ no_fault }
    ensures out_of_range { result ≡ 2 ↔ (handle.old.open ≡ 0) × (4 < digits) }
    ensures not_so { result ≡ 6 ↔ (handle.old.open ≢ 0) }
    ensures statuses { result ≢ 0 → result ≢ 1 → result ≢ 2 → result ≢ 6 → result ≡ 5 }
    ensures as_before { result ≢ 0 → handle.new ≡ handle.old }
{
    *fault = NO_FAULT;
    if handle.open != 0 {
        return NOT_SO;
    }
    if digits > 4 {
        return OUT_OF_RANGE;
    }
    match pm_making::begin(alloc, text, faces, digits, made::border_told(keep_border)) {
        Ok(it) => keep(alloc, it, handle),
        Err(fail) => made::refused(fail, fault),
    }
}

/// Goes on by at most so many collapses, or to the end, and tells how far it is then.
#[unsafe(no_mangle)]
pub extern "C" fn vdpm_simplify_more(
    alloc: Global,
    handle: &mut RunHandle,
    most: u32,
    progress: &mut ProgressTold,
) -> u32
    requires { IsWholeRun handle.old }
    ensures done { (s : SteppedRun) → HasRun handle.old s → (result ≡ 0)
        × ((new : SteppedRun) × HasRun handle.new new × HasStepped most s new
        × IsProgressTold new progress.new) }
    ensures not_so { handle.old.open ≢ 1 → (result ≡ 6) × (handle.new ≡ handle.old)
        × (progress.new ≡ progress.old) }
{
    if handle.open != 1 {
        return NOT_SO;
    }
    let mut it = take_run(alloc, handle);
    it.go_on(most);
    *progress = told(&it);
    put_run(handle, it);
    DONE
}

/// Makes the stream of what has come to its end. The run is used up.
#[unsafe(no_mangle)]
pub extern "C" fn vdpm_simplify_end(
    alloc: Global,
    handle: &mut RunHandle,
    made: &mut MadeHandle,
) -> u32
    requires { IsWholeRun handle.old }
    ensures done { (s : SteppedRun) → HasRun handle.old s → result ≡ 0
        → (m : MadeText) × HasMade made.new m × ((border : Border) (text : List ℕ)
        → IsRunOf border text s → IsStreamOf (IsSimplifiedText border s.run.target s.digits)
        (asked.Simplify s.run.target s.digits border) s.digits text m) }
    ensures early { (s : SteppedRun) → HasRun handle.old s → s.run.ended ≡ false
        → (result ≡ 6) × HasRun handle.new s }
    ensures ends { (s : SteppedRun) → HasRun handle.old s → s.run.ended ≡ true
        → made.old.open ≡ 0 → ((result ≡ 0) ⊎ (result ≡ 5)) × (handle.new.open ≡ 0)
        × (handle.new.slot.value ≡ None) }
    ensures not_so { handle.old.open ≢ 1 → (result ≡ 6) × (handle.new ≡ handle.old) }
    ensures full { made.old.open ≢ 0 → (result ≡ 6) × (handle.new ≡ handle.old) }
    ensures as_before { result ≢ 0 → made.new ≡ made.old }
{
    if handle.open != 1 || made.open != 0 {
        return NOT_SO;
    }
    let it = take_run(alloc, handle);
    if !it.progress().ended {
        put_run(handle, it);
        return NOT_SO;
    }
    match pm_making::finish(alloc, Box::into_inner(it)) {
        Ok(all) => made::keep(alloc, all, made),
        Err(_) => NO_MEMORY,
    }
}

/// Gives a run up, and its memory back. A handle that isn't open stays as it is.
#[unsafe(no_mangle)]
pub extern "C" fn vdpm_simplify_close(alloc: Global, handle: &mut RunHandle)
    requires { IsWholeRun handle.old }
    ensures closed { handle.old.open ≡ 1 → (handle.new.open ≡ 0) × (handle.new.slot.value ≡ None) }
    ensures not_so { handle.old.open ≢ 1 → handle.new ≡ handle.old }
{
    if handle.open == 1 {
        let _ = take_run(alloc, handle);
    }
}
