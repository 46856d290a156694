//! The program `simplify`: an OBJ text's mesh is simplified, its border free or kept, and the
//! hierarchy of the run is written as a stream.
ghost use Rattle.std.specs.Prelude.{◌≡◌, ◌≤◌, false, None, Ok, IfOk, IfErr, IfSome, OnOk};
ghost use Rattle.pm_io.specs.Bytes.{AtEnd};
ghost use Rattle.pm_forest.specs.Meshes.{input_mesh_of};
ghost use Rattle.pm_firm.specs.Firm.{IsFirm};
ghost use Rattle.pm_keeping.specs.Keeping.{kept_in};
ghost use Rattle.pm_commands.specs.declared.asked.Border.{Border};
ghost use Rattle.pm_commands.specs.Input.{Stops};
ghost use Rattle.pm_commands.specs.Surface.{IsSurfaceRead};
ghost use Rattle.pm_commands.specs.Simplified.{IsKeptWith, IsSimplifiedWith, IsSimplifiedText};
ghost use Rattle.pm_commands.specs.Outcome.{GivesMeshBack};
ghost use Rattle.pm_commands.specs.Frames.{ShowsSurfacesOf};
ghost use Rattle.pm_commands.specs.Borders.{FramesShowBorder};
ghost use Rattle.pm_commands.specs.Ending.{Ends, Counts};

use crate::asked::{Asked, Border};
use crate::fault::{CommandFail, InputFail};
use crate::owned::put_stream;
use crate::surface::read_given_surface;
use pm_fine_costs::simplify_fine;
use pm_forest::Hierarchy;
use pm_io::{Sink, Source};
use pm_number::{OutOfMemory, from_log};
use pm_tiles::border_flags;
use pm_twins::Surface;
use std::alloc::Global;

/// Flags of the vertices to keep: none where the border is free.
pub(crate) fn kept_flags(
    alloc: Global,
    surface: &Surface,
    border: Border,
) -> Result<Vec<bool>, OutOfMemory>
    ensures keeps { IfOk result (λ flags. IsKeptWith border surface.now (kept_in flags.items)) }
{
    surface.invariant();
    match border {
        Border::Free => Ok(Vec::new(alloc)),
        Border::Kept => border_flags(alloc, surface),
    }
}

// The hierarchy of a surface's run to a number of faces that keeps the vertices of these flags.
fn simplified_keeping(
    alloc: Global,
    surface: Surface,
    kept: &[bool],
    target: u32,
) -> Result<Hierarchy, OutOfMemory>
    ensures simplified { (border : Border) → IsKeptWith border surface (kept_in kept.now)
        → IfOk result (IsSimplifiedWith border surface target) }
    ensures firm { IfOk result IsFirm }
    ensures mesh { IfOk result (λ h. input_mesh_of h ≡ surface) }
{
    surface.invariant();
    let mesh = surface.mesh().copy(alloc)?;
    let log = simplify_fine(alloc, surface, kept, target)?;
    from_log(alloc, &mesh, &log)
}

// The same with the border free or kept.
fn simplified_with(
    alloc: Global,
    surface: Surface,
    target: u32,
    border: Border,
) -> Result<Hierarchy, OutOfMemory>
    ensures simplified { IfOk result (IsSimplifiedWith border surface target) }
    ensures firm { IfOk result IsFirm }
    ensures mesh { IfOk result (λ h. input_mesh_of h ≡ surface) }
{
    let kept = kept_flags(alloc, &surface, border)?;
    simplified_keeping(alloc, surface, &kept, target)
}

// Reads an OBJ text, and simplifies its mesh to a number of faces.
fn simplified_text<S: Source>(
    alloc: Global,
    target: u32,
    digits: u32,
    border: Border,
    input: &mut S,
) -> Result<Hierarchy, InputFail>
    requires few { digits ≤ 4 }
    requires not_ended { S.ended input.old ≡ false }
    ensures made { IfOk result (λ h. IfSome (S.left input.old)
        (λ bytes. IsSimplifiedText border target digits bytes (Ok h) None)) }
    ensures mesh { IfOk result (λ h. IfSome (S.left input.old)
        (λ bytes. IsSurfaceRead digits bytes (Ok (input_mesh_of h)) None)) }
    ensures firm { IfOk result IsFirm }
    ensures end { OnOk result (AtEnd (S.left input.new)) }
    ensures count { OnOk result (S.faults input.new ≡ S.faults input.old) }
    ensures err { IfErr result (λ e. Stops (IsSimplifiedText border target digits) e
        (S.left input.old) (S.left input.new) (S.faults input.old) (S.faults input.new)) }
{
    let surface = read_given_surface(alloc, digits, input)?;
    Ok(simplified_with(alloc, surface, target, border)?)
}

/// Reads an OBJ text, simplifies its mesh to a number of faces or as far as pairs may be collapsed,
/// and writes the stream text of the run's hierarchy, with so many decimals a coordinate. A border
/// that is kept is shown by every frame of that stream. A text with nothing of a mesh in it is
/// refused.
pub fn simplify<S: Source, K: Sink>(
    alloc: Global,
    target: u32,
    digits: u32,
    border: Border,
    input: &mut S,
    out: &mut K,
) -> Result<(), CommandFail>
    requires few { digits ≤ 4 }
    requires not_ended { S.ended input.old ≡ false }
    ensures ends { Ends (Asked.Simplify target digits border) result
        (S.left input.old) (S.left input.new) (K.got out.old) (K.got out.new) }
    ensures gives_back { OnOk result (IfSome (S.left input.old) (λ bytes.
        GivesMeshBack (Asked.Simplify target digits border) bytes (K.got out.old)
        (K.got out.new))) }
    ensures surfaces { OnOk result (IfSome (S.left input.old) (λ bytes.
        ShowsSurfacesOf (IsSimplifiedText border target digits) digits bytes (K.got out.old)
        (K.got out.new))) }
    ensures meets { border ≡ Border.Kept → OnOk result (IfSome (S.left input.old) (λ bytes.
        FramesShowBorder target digits bytes (K.got out.old) (K.got out.new))) }
    ensures counts { Counts result (S.faults input.old) (S.faults input.new) (K.faults out.old)
        (K.faults out.new) }
    ensures read_whole { OnOk result (AtEnd (S.left input.new)) }
{
    let h = simplified_text(alloc, target, digits, border, input)?;
    put_stream(h, digits, out)?;
    Ok(())
}
