//! What becomes of what was made, or of why nothing was.
ghost use Rattle.std.specs.Prelude.{◌≡◌, ◌≢◌, ◌≤◌, ℕ, List, Option};
ghost use Rattle.obj_prepare.specs.Placing.{IsSize};
ghost use Rattle.pm_making.specs.Fitting.{IsUnfit};
ghost use Rattle.vdpm_c.specs.Making.{HasMade, FaultIsTold, UnfitText, border_told, size_told};
ghost use Rattle.vdpm_c.specs.Making.{first_of};

use crate::holding::put_made;
use crate::statuses::{DONE, FAULTY, NO_MEMORY};
use crate::tables::{FaultTold, MadeHandle};
use pm_commands::Border;
use pm_making::{BuildFail, Made, PrepareFail, text_cause_of};
use std::alloc::Global;

// What becomes of the border.
pub(crate) fn border_told(keep_border: u32) -> Border
    ensures { result ≡ border_told keep_border }
{
    if keep_border == 0 {
        Border::Free
    } else {
        Border::Kept
    }
}

// Puts what was made into a handle.
pub(crate) fn keep(alloc: Global, it: Made, handle: &mut MadeHandle) -> u32
    ensures status { result ≢ 0 → result ≡ 5 }
    ensures kept { result ≡ 0 → HasMade handle.new it }
    ensures as_before { result ≢ 0 → handle.new ≡ handle.old }
{
    let Ok(boxed) = Box::new(alloc, it) else {
        return NO_MEMORY;
    };
    put_made(handle, boxed);
    DONE
}

// The fault of a text goes out.
pub(crate) fn refused(fail: BuildFail, fault: &mut FaultTold) -> u32
    ensures status { result ≢ 1 → result ≡ 5 }
    ensures told { result ≡ 1 → FaultIsTold fail fault.new }
    ensures untold { result ≢ 1 → fault.new ≡ fault.old }
{
    let BuildFail::Faulty(why) = fail else {
        return NO_MEMORY;
    };
    // (a text has no other faults)
    let Some(cause) = text_cause_of(why) else {
        return NO_MEMORY;
    };
    *fault = FaultTold {
        number: cause.number,
        place: cause.place.unwrap_or(0),
    };
    FAULTY
}

// The size that is asked for, if one is.
pub(crate) fn size_told(size: u32) -> Option<u32>
    ensures value { result ≡ size_told size }
    ensures fits { size ≤ 32767 → IsSize result }
{
    if size == 0 { None } else { Some(size) }
}

// The line that has a fault, or else the byte.
fn first_of(line: Option<u32>, byte: Option<u32>) -> Option<u32>
    ensures { result ≡ first_of line byte }
{
    match line {
        Some(_) => line,
        None => byte,
    }
}

// The fault of a text that isn't made fit goes out.
pub(crate) fn unfit(fail: PrepareFail, fault: &mut FaultTold) -> u32
    ensures status { result ≢ 1 → result ≡ 5 }
    ensures told { (size : Option ℕ) (text : List ℕ)
        → IsUnfit size text fail → result ≡ 1 → UnfitText size text fault.new }
    ensures untold { result ≢ 1 → fault.new ≡ fault.old }
{
    let PrepareFail::Faulty(why) = fail else {
        return NO_MEMORY;
    };
    *fault = FaultTold {
        number: why.number(),
        place: first_of(why.line(), why.byte()).map_or(0, u64::from),
    };
    FAULTY
}
