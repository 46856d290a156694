//! `build`: an OBJ text's mesh is simplified, and the hierarchy of the run is written as a stream.
ghost use Rattle.std.specs.Prelude.{◌≡◌, ◌≤◌, false, None, Ok, IfOk, IfErr, IfSome, OnOk};
ghost use Rattle.pm_io.specs.Bytes.{AtEnd};
ghost use Rattle.pm_forest.specs.Meshes.{input_mesh_of};
ghost use Rattle.pm_firm.specs.Firm.{IsFirm};
ghost use Rattle.pm_commands.specs.Input.{Stops};
ghost use Rattle.pm_commands.specs.Surface.{IsSurfaceRead};
ghost use Rattle.pm_commands.specs.Build.{IsSimplified, IsBuilt};
ghost use Rattle.pm_commands.specs.Ending.{Ends, Counts};
ghost use Rattle.pm_commands.specs.Devices.{LeadsBack, FramesAreSurfaces};

use crate::asked::Asked;
use crate::fault::{CommandFail, InputFail};
use crate::owned::put_stream;
use crate::surface::read_surface;
use pm_forest::Hierarchy;
use pm_io::{Sink, Source};
use pm_number::{OutOfMemory, from_log};
use pm_simplify::simplify_surface;
use pm_twins::Surface;
use std::alloc::Global;

// The hierarchy of a surface's run to a number of faces.
fn simplified(alloc: Global, surface: Surface, target: u32) -> Result<Hierarchy, OutOfMemory>
    ensures simplified { IfOk result (IsSimplified surface target) }
    ensures firm { IfOk result IsFirm }
    ensures mesh { IfOk result (λ h. input_mesh_of h ≡ surface) }
{
    surface.invariant();
    let mesh = surface.mesh().copy(alloc)?;
    let log = simplify_surface(alloc, surface, target)?;
    from_log(alloc, &mesh, &log)
}

// Reads an OBJ text, and simplifies its mesh to a number of faces.
fn build_hierarchy<S: Source>(
    alloc: Global,
    target: u32,
    digits: u32,
    input: &mut S,
) -> Result<Hierarchy, InputFail>
    requires few { digits ≤ 4 }
    requires not_ended { S.ended input.old ≡ false }
    ensures built { IfOk result (λ h. IfSome (S.left input.old)
        (λ bytes. IsBuilt target digits bytes (Ok h) None)) }
    ensures mesh { IfOk result (λ h. IfSome (S.left input.old)
        (λ bytes. IsSurfaceRead digits bytes (Ok (input_mesh_of h)) None)) }
    ensures firm { IfOk result IsFirm }
    ensures end { OnOk result (AtEnd (S.left input.new)) }
    ensures count { OnOk result (S.faults input.new ≡ S.faults input.old) }
    ensures err { IfErr result (λ e. Stops (IsBuilt target digits) e
        (S.left input.old) (S.left input.new) (S.faults input.old) (S.faults input.new)) }
{
    let surface = read_surface(alloc, digits, input)?;
    Ok(simplified(alloc, surface, target)?)
}

/// `build N --digits D`: reads an OBJ text, simplifies its mesh to N faces or as far as pairs may
/// be collapsed, and writes the stream text of the run's hierarchy, each with D decimals a
/// coordinate.
pub fn build<S: Source, K: Sink>(
    alloc: Global,
    target: u32,
    digits: u32,
    input: &mut S,
    out: &mut K,
) -> Result<(), CommandFail>
    requires few { digits ≤ 4 }
    requires not_ended { S.ended input.old ≡ false }
    ensures ends { Ends (Asked.Build target digits) result
        (S.left input.old) (S.left input.new) (K.got out.old) (K.got out.new) }
    ensures gives_back { OnOk result
        (LeadsBack S.Source K.Sink target digits input.old out.old out.new) }
    ensures surfaces { OnOk result
        (FramesAreSurfaces S.Source K.Sink target digits input.old out.old out.new) }
    ensures counts { Counts result (S.faults input.old) (S.faults input.new) (K.faults out.old)
        (K.faults out.new) }
    ensures read_whole { OnOk result (AtEnd (S.left input.new)) }
{
    let h = build_hierarchy(alloc, target, digits, input)?;
    put_stream(h, digits, out)?;
    Ok(())
}
