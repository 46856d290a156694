//! What each command does with its devices. All memory is taken before the first byte of output.
ghost use Rattle.std.specs.Prelude.{◌≡◌, ◌≤◌, false, OnOk, IfErr};
ghost use Rattle.pm_io.specs.Bytes.{AtEnd};
ghost use Rattle.pm_commands.specs.Asked.{script_asked};
ghost use Rattle.pm_commands.specs.Ending.{Ends, Counts, ReadToEnd, ReadToPlace, FewMore};
ghost use Rattle.pm_commands.specs.Ending.{FewMoreIn, FewMoreLive};

use crate::asked::Asked;
use crate::fault::CommandFail;
use crate::hierarchy::read_hierarchy;
use crate::owned::{counts_of, input_mesh, put_mesh, put_surface};
use crate::starting::start;
use crate::surface::read_surface;
use pm_format::{Stream, read_stream};
use pm_io::{Sink, Source, Taker, put_all};
use pm_session::Grammar;
use std::alloc::Global;

/// `canon --digits D`: reads an OBJ text, and writes the canonical text of its mesh where that is
/// an oriented manifold, each with D decimals a coordinate.
pub fn canon<S: Source, K: Sink>(
    alloc: Global,
    digits: u32,
    input: &mut S,
    out: &mut K,
) -> Result<(), CommandFail>
    requires few { digits ≤ 4 }
    requires not_ended { S.ended input.old ≡ false }
    ensures ends { Ends (Asked.Canon digits) result
        (S.left input.old) (S.left input.new) (K.got out.old) (K.got out.new) }
    ensures counts { Counts result (S.faults input.old) (S.faults input.new) (K.faults out.old)
        (K.faults out.new) }
    ensures read_whole { OnOk result (AtEnd (S.left input.new)) }
{
    let surface = read_surface(alloc, digits, input)?;
    put_surface(surface, digits, out)?;
    Ok(())
}

/// `expand`: reads a stream text, and writes the canonical text of the mesh that its hierarchy was
/// made from, with as many decimals as the stream tells.
pub fn expand<S: Source, K: Sink>(
    alloc: Global,
    input: &mut S,
    out: &mut K,
) -> Result<(), CommandFail>
    requires { S.ended input.old ≡ false }
    ensures ends { Ends Asked.Expand result
        (S.left input.old) (S.left input.new) (K.got out.old) (K.got out.new) }
    ensures counts { Counts result (S.faults input.old) (S.faults input.new) (K.faults out.old)
        (K.faults out.new) }
    ensures read_whole { OnOk result (AtEnd (S.left input.new)) }
{
    let stream = read_hierarchy(alloc, input)?;
    let mesh = input_mesh(alloc, stream.h)?;
    put_mesh(mesh, stream.digits, out)?;
    Ok(())
}

/// `check`: reads a stream text, and writes how large its hierarchy is.
pub fn check<S: Source, K: Sink>(
    alloc: Global,
    input: &mut S,
    out: &mut K,
) -> Result<(), CommandFail>
    requires { S.ended input.old ≡ false }
    ensures ends { Ends Asked.Check result
        (S.left input.old) (S.left input.new) (K.got out.old) (K.got out.new) }
    ensures counts { Counts result (S.faults input.old) (S.faults input.new) (K.faults out.old)
        (K.faults out.new) }
    ensures read_whole { OnOk result (AtEnd (S.left input.new)) }
{
    let stream = read_hierarchy(alloc, input)?;
    let line = counts_of(stream.h);
    put_all(out, line.as_slice())?;
    Ok(())
}

// A script of this grammar: reads the stream of a valid hierarchy, and does the script that
// follows it line by line. The reply to a line is put whole before more is asked for than the
// window holds.
fn play<S: Source, K: Sink>(
    alloc: Global,
    grammar: Grammar,
    budget: u32,
    input: &mut S,
    out: &mut K,
) -> Result<(), CommandFail>
    requires { S.ended input.old ≡ false }
    ensures ends { Ends (script_asked grammar budget) result
        (S.left input.old) (S.left input.new) (K.got out.old) (K.got out.new) }
    ensures counts { Counts result (S.faults input.old) (S.faults input.new) (K.faults out.old)
        (K.faults out.new) }
    ensures read_whole { OnOk result
        (ReadToEnd (script_asked grammar budget) (S.left input.old) (S.left input.new)) }
    ensures read_to_place { OnOk result
        (ReadToPlace (script_asked grammar budget) (S.left input.old) (S.left input.new)) }
    ensures few_more { IfErr result (λ e. e ≡ CommandFail.Write
        → FewMoreIn grammar budget (S.left input.old) (S.left input.new) (K.got out.old)
        (K.got out.new)) }
{
    let mut taker = Taker::new(alloc)?;
    let Stream { h, .. } = read_stream(alloc, &mut taker, input)?;
    let mut session = start(alloc, h, grammar, budget)?;
    session.serve(&mut taker, input, out)?;
    Ok(())
}

/// `view B`: plays a script.
pub fn view<S: Source, K: Sink>(
    alloc: Global,
    budget: u32,
    input: &mut S,
    out: &mut K,
) -> Result<(), CommandFail>
    requires { S.ended input.old ≡ false }
    ensures ends { Ends (Asked.View budget) result
        (S.left input.old) (S.left input.new) (K.got out.old) (K.got out.new) }
    ensures counts { Counts result (S.faults input.old) (S.faults input.new) (K.faults out.old)
        (K.faults out.new) }
    ensures read_whole { OnOk result
        (ReadToEnd (Asked.View budget) (S.left input.old) (S.left input.new)) }
    ensures read_to_place { OnOk result
        (ReadToPlace (Asked.View budget) (S.left input.old) (S.left input.new)) }
    ensures few_more { IfErr result (λ e. e ≡ CommandFail.Write
        → FewMore budget (S.left input.old) (S.left input.new) (K.got out.old) (K.got out.new)) }
{
    play(alloc, Grammar::View, budget, input, out)
}

/// `live B`: the same, with more lines for a viewer that stays.
pub fn live<S: Source, K: Sink>(
    alloc: Global,
    budget: u32,
    input: &mut S,
    out: &mut K,
) -> Result<(), CommandFail>
    requires { S.ended input.old ≡ false }
    ensures ends { Ends (Asked.Live budget) result
        (S.left input.old) (S.left input.new) (K.got out.old) (K.got out.new) }
    ensures counts { Counts result (S.faults input.old) (S.faults input.new) (K.faults out.old)
        (K.faults out.new) }
    ensures read_whole { OnOk result
        (ReadToEnd (Asked.Live budget) (S.left input.old) (S.left input.new)) }
    ensures read_to_place { OnOk result
        (ReadToPlace (Asked.Live budget) (S.left input.old) (S.left input.new)) }
    ensures few_more { IfErr result (λ e. e ≡ CommandFail.Write
        → FewMoreLive budget (S.left input.old) (S.left input.new) (K.got out.old)
        (K.got out.new)) }
{
    play(alloc, Grammar::Live, budget, input, out)
}
