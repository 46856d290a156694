//! `demo`: nothing is read, and the summary of a grid is written.
ghost use Rattle.std.specs.Prelude.{◌≤◌, ℕ, List, Option, IfErr};
ghost use Rattle.pm_commands.specs.Ending.{Ends, Counts, BlamesNoInput, status_of};

use crate::asked::Asked;
use crate::fault::CommandFail;
use pm_demo::{DemoFail, demo};
use pm_io::Sink;
use std::alloc::Global;

/// `demo N`: writes the summary of the grid of N times N cells, whatever the input has left.
pub fn summarize<K: Sink>(alloc: Global, n: u32, out: &mut K) -> Result<(), CommandFail>
    requires some { 1 ≤ n }
    requires most { n ≤ 256 }
    ensures ends { (left now : Option (List ℕ))
        → Ends (Asked.Demo n) result left now (K.got out.old) (K.got out.new) }
    ensures counts { (count : ℕ) → Counts result count count (K.faults out.old) (K.faults out.new) }
    ensures unread { IfErr result (λ e. BlamesNoInput (status_of e)) }
{
    match demo(alloc, n, out) {
        Ok(()) => Ok(()),
        Err(DemoFail::Write) => Err(CommandFail::Write),
        Err(DemoFail::OutOfMemory) => Err(CommandFail::OutOfMemory),
    }
}
