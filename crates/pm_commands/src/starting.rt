//! The session that a script is played on.
ghost use Rattle.std.specs.Prelude.{◌≢◌, IfOk, IfErr, OnOk};
ghost use Rattle.pm_beyond.specs.Valid.{IsValid};
ghost use Rattle.pm_load.specs.Faults.{IsLoadFault};
ghost use Rattle.pm_commands.specs.Started.{IsStarted};

use pm_forest::Hierarchy;
use pm_load::LoadFail;
use pm_session::{Grammar, Session};
use std::alloc::Global;

/// A session that shows the base front of a valid hierarchy and takes lines of this grammar. It is
/// refused as `Session::start` says. It is boxed, and what it shows is told by one word: a function
/// that keeps all its tables in a variable of its own is slow to prove.
#[tactic(auto, unfolding(crate::specs::Started::IsStarted))]
pub fn start(
    alloc: Global,
    h: Hierarchy,
    grammar: Grammar,
    budget: u32,
) -> Result<Box<Session>, LoadFail>
    ensures started { IfOk result (λ b. IsStarted h grammar budget b.value) }
    ensures valid { OnOk result (IsValid h) }
    ensures fault { IfErr result (IsLoadFault h) }
    ensures refused { IfErr result (λ e. e ≢ LoadFail.OutOfMemory → IsValid h → ⊥) }
{
    let session = Session::start(alloc, h, grammar, budget)?;
    match Box::new(alloc, session) {
        Ok(boxed) => Ok(boxed),
        Err(_) => Err(LoadFail::OutOfMemory),
    }
}
