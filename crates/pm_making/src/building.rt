//! The stream of an OBJ text's mesh.
ghost use Rattle.std.specs.Prelude.{◌≡◌, ◌≤◌, ℕ, [], None, Some, IfOk, IfErr};
ghost use Rattle.pm_commands.specs.declared.asked.Border.{Border};
ghost use Rattle.pm_commands.specs.Asked.{digits_asked, HasSize};
ghost use Rattle.pm_commands.specs.Build.{IsBuilt};
ghost use Rattle.pm_commands.specs.Simplified.{IsSimplifiedText};
ghost use Rattle.pm_commands.specs.Outcome.{Replied, GivesMeshBack};
ghost use Rattle.pm_commands.specs.Frames.{ShowsSurfacesOf};
ghost use Rattle.pm_commands.specs.Borders.{FramesShowBorder};
ghost use Rattle.pm_making.specs.Making.{IsStreamOf, IsRefusedBy, IsEndOf};

use crate::fail::BuildFail;
use crate::gathered::Gathered;
use crate::made::Made;
use pm_commands::{Asked, Border, CommandFail, obey};
use pm_io::SureSource;
use std::alloc::Global;

// What a command makes of a text.
fn obeyed(alloc: Global, asked: Asked, text: &[u8]) -> Result<Vec<u8>, BuildFail>
    requires few { digits_asked asked ≤ 4 }
    requires size { HasSize asked }
    ensures replied { IfOk result
        (λ made. Replied asked text.now None (Some []) (Some made.items)) }
    ensures refused { IfErr result (IsEndOf asked text.now) }
    ensures gives_back { (target digits : ℕ) → asked ≡ Asked.Build target digits
        → IfOk result (λ made. GivesMeshBack (Asked.Build target digits) text.now (Some [])
        (Some made.items)) }
    ensures surfaces { (target digits : ℕ) → asked ≡ Asked.Build target digits
        → IfOk result (λ made. ShowsSurfacesOf (IsBuilt target digits) digits text.now (Some [])
        (Some made.items)) }
    ensures simplified_back { (target digits : ℕ) (border : Border) → asked
        ≡ Asked.Simplify target digits border
        → IfOk result (λ made. GivesMeshBack (Asked.Simplify target digits border) text.now
        (Some []) (Some made.items)) }
    ensures simplified_surfaces { (target digits : ℕ) (border : Border) → asked
        ≡ Asked.Simplify target digits border
        → IfOk result (λ made. ShowsSurfacesOf (IsSimplifiedText border target digits) digits
        text.now (Some []) (Some made.items)) }
    ensures meets { (target digits : ℕ) → asked ≡ Asked.Simplify target digits Border.Kept
        → IfOk result (λ made. FramesShowBorder target digits text.now (Some [])
        (Some made.items)) }
{
    let Ok(mut source) = SureSource::new(alloc, text, 4096) else {
        return Err(BuildFail::OutOfMemory);
    };
    let mut gathered = Gathered::new(alloc);
    match obey(alloc, asked, &mut source, &mut gathered) {
        Ok(()) => Ok(gathered.into_bytes()),
        Err(CommandFail::Faulty(fault)) => Err(BuildFail::Faulty(fault)),
        // A source in memory never fails, and the sink only where memory is wanting.
        Err(CommandFail::Read | CommandFail::Write | CommandFail::OutOfMemory) => {
            Err(BuildFail::OutOfMemory)
        }
    }
}

/// Makes of an OBJ text the bytes that `build TARGET --digits DIGITS` writes: the stream of its
/// mesh, simplified to `target` faces or as far as pairs may be collapsed, with `digits` decimals a
/// coordinate, at most 4. It is refused exactly where `build` refuses the text, or where memory is
/// wanting. The text is copied once; all else costs what it does in `build`.
#[tactic(auto, using(crate::proofs::EndLaws::stream_of, crate::proofs::EndLaws::build_refused))]
pub fn build(alloc: Global, text: &[u8], target: u32, digits: u32) -> Result<Made, BuildFail>
    requires few { digits ≤ 4 }
    ensures made { IfOk result (IsStreamOf (IsBuilt target digits) (Asked.Build target digits)
        digits text.now) }
    ensures surfaces { IfOk result (λ all. ShowsSurfacesOf (IsBuilt target digits) digits text.now
        (Some []) (Some all.bytes)) }
    ensures refused { IfErr result (IsRefusedBy (IsBuilt target digits) text.now) }
{
    match obeyed(alloc, Asked::Build(target, digits), text) {
        Ok(bytes) => Ok(Made::of(bytes, Vec::new(alloc))),
        Err(fail) => Err(fail),
    }
}

/// Makes of an OBJ text the bytes that the program `simplify` writes: its run is by finer costs
/// than that of `build`, and a border that is kept is shown by every frame. Else it is as `build`.
#[tactic(auto, using(crate::proofs::EndLaws::stream_of, crate::proofs::EndLaws::simplify_refused))]
pub fn simplify(
    alloc: Global,
    text: &[u8],
    target: u32,
    digits: u32,
    border: Border,
) -> Result<Made, BuildFail>
    requires few { digits ≤ 4 }
    ensures made { IfOk result (IsStreamOf (IsSimplifiedText border target digits)
        (Asked.Simplify target digits border) digits text.now) }
    ensures surfaces { IfOk result (λ all. ShowsSurfacesOf (IsSimplifiedText border target digits)
        digits text.now (Some []) (Some all.bytes)) }
    ensures meets { border ≡ Border.Kept → IfOk result (λ all. FramesShowBorder target digits
        text.now (Some []) (Some all.bytes)) }
    ensures refused { IfErr result (IsRefusedBy (IsSimplifiedText border target digits) text.now) }
{
    match obeyed(alloc, Asked::Simplify(target, digits, border), text) {
        Ok(bytes) => Ok(Made::of(bytes, Vec::new(alloc))),
        Err(fail) => Err(fail),
    }
}
