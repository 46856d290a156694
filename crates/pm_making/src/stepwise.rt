//! The stream of an OBJ text's mesh, made in steps.
ghost use Rattle.std.specs.Prelude.{◌≡◌, ◌≤◌, true, ℕ, List, [], Some, IfOk, IfErr};
ghost use Rattle.pm_commands.specs.declared.asked.Border.{Border};
ghost use Rattle.pm_commands.specs.declared.asked.Border.TheVariants as borders;
ghost use Rattle.pm_commands.specs.declared.asked.Asked.TheVariants as asked;
ghost use Rattle.pm_commands.specs.Simplified.{IsSimplifiedText};
ghost use Rattle.pm_commands.specs.Stepwise.{IsBegun, IsRunOf};
ghost use Rattle.pm_commands.specs.Frames.{ShowsSurfacesOf};
ghost use Rattle.pm_commands.specs.Borders.{FramesShowBorder};
ghost use Rattle.pm_making.specs.Making.{IsStreamOf, IsRefusedBy};

use crate::fail::BuildFail;
use crate::gathered::Gathered;
use crate::made::Made;
use pm_commands::{Border, InputFail, Simplifying};
use pm_io::SureSource;
use std::alloc::{AllocError, Global};

/// Begins to simplify the mesh of an OBJ text as the function `simplify` does, so that it can be
/// gone on with step by step: `finish` then makes what that function makes. It is refused exactly
/// where that refuses the text, or where memory is wanting.
pub fn begin(
    alloc: Global,
    text: &[u8],
    target: u32,
    digits: u32,
    border: Border,
) -> Result<Simplifying, BuildFail>
    requires few { digits ≤ 4 }
    ensures begun { IfOk result (IsBegun border target digits text.now) }
    ensures refused { IfErr result (IsRefusedBy (IsSimplifiedText border target digits) text.now) }
{
    let Ok(mut source) = SureSource::new(alloc, text, 4096) else {
        return Err(BuildFail::OutOfMemory);
    };
    match Simplifying::begin(alloc, target, digits, border, &mut source) {
        Ok(it) => Ok(it),
        Err(InputFail::Faulty(fault)) => Err(BuildFail::Faulty(fault)),
        // A source in memory never fails.
        Err(InputFail::Read | InputFail::OutOfMemory) => Err(BuildFail::OutOfMemory),
    }
}

/// Makes the stream of what was begun and has come to its end: the bytes that `simplify` makes of
/// the text.
pub fn finish(alloc: Global, it: Simplifying) -> Result<Made, AllocError>
    requires ended { it.run.ended ≡ true }
    ensures made { IfOk result (λ all. (border : Border) (text : List ℕ) → IsRunOf border text it
        → IsStreamOf (IsSimplifiedText border it.run.target it.digits)
        (asked.Simplify it.run.target it.digits border) it.digits text all) }
    ensures surfaces { IfOk result (λ all. (border : Border) (text : List ℕ)
        → IsRunOf border text it
        → ShowsSurfacesOf (IsSimplifiedText border it.run.target it.digits) it.digits text
        (Some []) (Some all.bytes)) }
    ensures meets { IfOk result (λ all. (text : List ℕ) → IsRunOf borders.Kept text it
        → FramesShowBorder it.run.target it.digits text (Some []) (Some all.bytes)) }
{
    let mut gathered = Gathered::new(alloc);
    match it.finish(alloc, &mut gathered) {
        Ok(()) => Ok(Made::of(gathered.into_bytes(), Vec::new(alloc))),
        // The sink fails only where memory is wanting.
        Err(_) => Err(AllocError),
    }
}
