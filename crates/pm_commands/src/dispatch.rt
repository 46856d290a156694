//! What is asked for is done.
ghost use Rattle.std.specs.Prelude.{◌≡◌, ◌≤◌, ℕ, false, IfErr, IfSome, OnOk};
ghost use Rattle.pm_commands.specs.declared.asked.Border.{Border};
ghost use Rattle.pm_commands.specs.Asked.{digits_asked, HasSize};
ghost use Rattle.pm_commands.specs.Simplified.{IsSimplifiedText};
ghost use Rattle.pm_commands.specs.Outcome.{GivesMeshBack};
ghost use Rattle.pm_commands.specs.Frames.{ShowsSurfacesOf};
ghost use Rattle.pm_commands.specs.Borders.{FramesShowBorder};
ghost use Rattle.pm_commands.specs.Ending.{Ends, Counts, ReadToEnd, ReadToPlace, FewMore};
ghost use Rattle.pm_commands.specs.Ending.{FewMoreLive, BlamesNoInput, status_of};
ghost use Rattle.pm_io.specs.Devices.{Unread};
ghost use Rattle.pm_commands.specs.Devices.{LeadsBack, FramesAreSurfaces};

use crate::asked::{Asked, Border};
use crate::build::build;
use crate::commands::{canon, check, expand, live, view};
use crate::fault::CommandFail;
use crate::simplify::simplify;
use crate::summary::summarize;
use pm_io::{Sink, Source};
use std::alloc::Global;

/// Does what was asked for.
#[tactic(auto, using(crate::proofs::OutcomeLaws::ok_to_end))]
pub fn obey<S: Source, K: Sink>(
    alloc: Global,
    asked: Asked,
    input: &mut S,
    out: &mut K,
) -> Result<(), CommandFail>
    requires few { digits_asked asked ≤ 4 }
    requires size { HasSize asked }
    requires not_ended { S.ended input.old ≡ false }
    ensures ends { Ends asked result (S.left input.old) (S.left input.new) (K.got out.old)
        (K.got out.new) }
    ensures counts { Counts result (S.faults input.old) (S.faults input.new) (K.faults out.old)
        (K.faults out.new) }
    ensures read_whole { OnOk result (ReadToEnd asked (S.left input.old) (S.left input.new)) }
    ensures read_to_place { OnOk result (ReadToPlace asked (S.left input.old) (S.left input.new)) }
    ensures gives_back { (target digits : ℕ) → asked ≡ Asked.Build target digits
        → OnOk result (LeadsBack S.Source K.Sink target digits input.old out.old out.new) }
    ensures surfaces { (target digits : ℕ) → asked ≡ Asked.Build target digits
        → OnOk result (FramesAreSurfaces S.Source K.Sink target digits input.old out.old out.new) }
    ensures simplified_back { (target digits : ℕ) (border : Border)
        → asked ≡ Asked.Simplify target digits border
        → OnOk result (IfSome (S.left input.old) (λ bytes.
        GivesMeshBack (Asked.Simplify target digits border) bytes (K.got out.old)
        (K.got out.new))) }
    ensures simplified_surfaces { (target digits : ℕ) (border : Border)
        → asked ≡ Asked.Simplify target digits border
        → OnOk result (IfSome (S.left input.old) (λ bytes.
        ShowsSurfacesOf (IsSimplifiedText border target digits) digits bytes (K.got out.old)
        (K.got out.new))) }
    ensures meets { (target digits : ℕ) → asked ≡ Asked.Simplify target digits Border.Kept
        → OnOk result (IfSome (S.left input.old) (λ bytes.
        FramesShowBorder target digits bytes (K.got out.old) (K.got out.new))) }
    ensures unread { (n : ℕ) → asked ≡ Asked.Demo n
        → Unread S.Source input.old input.new × IfErr result (λ e. BlamesNoInput (status_of e)) }
    ensures few_more { (budget : ℕ) → asked ≡ Asked.View budget
        → IfErr result (λ e. e ≡ CommandFail.Write
        → FewMore budget (S.left input.old) (S.left input.new) (K.got out.old) (K.got out.new)) }
    ensures few_more_live { (budget : ℕ) → asked ≡ Asked.Live budget
        → IfErr result (λ e. e ≡ CommandFail.Write
        → FewMoreLive budget (S.left input.old) (S.left input.new) (K.got out.old)
        (K.got out.new)) }
{
    match asked {
        Asked::Canon(digits) => canon(alloc, digits, input, out),
        Asked::Build(target, digits) => build(alloc, target, digits, input, out),
        Asked::Expand => expand(alloc, input, out),
        Asked::Check => check(alloc, input, out),
        Asked::View(budget) => view(alloc, budget, input, out),
        Asked::Live(budget) => live(alloc, budget, input, out),
        Asked::Demo(n) => summarize(alloc, n, out),
        Asked::Simplify(target, digits, border) => {
            simplify(alloc, target, digits, border, input, out)
        }
    }
}
