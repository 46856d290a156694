//! Opening a viewer on the bytes of a stream.
ghost use Rattle.std.specs.Prelude.{◌≡◌, ◌≤◌, [], false, None, Ok, IfOk, IfErr, IfSome};
ghost use Rattle.pm_commands.specs.Input.{Stops};
ghost use Rattle.pm_commands.specs.Beginning.{IsHierarchyText};
ghost use Rattle.pm_session.specs.Script.{at_first};
ghost use Rattle.pm_session.specs.Session.{state_of};
ghost use Rattle.pm_viewer.specs.Viewing.{viewer_state};
ghost use Rattle.pm_viewer.specs.Causes.{IsRefusal};

use crate::fail::OpenFail;
use crate::viewer::Viewer;
use pm_commands::{Fault, InputFail};
use pm_format::{Stream, read_stream};
use pm_io::{Source, SureSource, Taker};
use pm_session::{Grammar, Session};
use std::alloc::Global;

// A session, and how many decimals the coordinates of its stream have.
#[derive(Drop)]
struct Started {
    session: Box<Session>,
    digits: u32,
}

// Reads the stream text of a valid hierarchy, looks that no byte follows it, and starts a session
// on it that takes the lines of `live`.
#[tactic(auto, unfolding(pm_commands::specs::Started::IsStarted))]
fn start<S: Source>(alloc: Global, budget: u32, input: &mut S) -> Result<Started, InputFail>
    requires { S.ended input.old ≡ false }
    ensures read { IfOk result (λ s. IfSome (S.left input.old) (λ bytes. IsHierarchyText bytes
        (Ok (record { digits = s.digits; h = s.session.value.h; rest = [] })) None)) }
    ensures few { IfOk result (λ s. s.digits ≤ 4) }
    ensures first { IfOk result (λ s. state_of s.session.value ≡ at_first budget) }
    ensures grammar { IfOk result (λ s. s.session.value.grammar ≡ Grammar.Live) }
    ensures err { IfErr result (λ e. Stops IsHierarchyText e
        (S.left input.old) (S.left input.new) (S.faults input.old) (S.faults input.new)) }
{
    let mut taker = Taker::new(alloc)?;
    let Stream { h, digits } = read_stream(alloc, &mut taker, input)?;
    let session = pm_commands::start(alloc, h, Grammar::Live, budget)?;
    match taker.piece(input) {
        Ok([]) => Ok(Started { session, digits }),
        Ok(_) => Err(InputFail::Faulty(Fault::Trailing)),
        Err(_) => Err(InputFail::Read),
    }
}

impl Viewer {
    /// A viewer that shows the base front of the hierarchy whose stream text the bytes are. It is
    /// refused exactly where `check` refuses them, or where memory is wanting; `budget` is the
    /// greatest number of moves a view. It takes time and memory linear in the bytes.
    pub fn open(alloc: Global, bytes: &[u8], budget: u32) -> Result<Viewer, OpenFail>
        ensures text { IfOk result (λ v. IsHierarchyText bytes.now (Ok
            (record { digits = v.digits; h = v.shown.h; rest = [] })) None) }
        ensures first { IfOk result (λ v. viewer_state v ≡ at_first budget) }
        ensures reply { IfOk result (λ v. v.reply ≡ []) }
        ensures refused { IfErr result (IsRefusal bytes.now) }
    {
        let Ok(mut source) = SureSource::new(alloc, bytes, 4096) else {
            return Err(OpenFail::OutOfMemory);
        };
        match start(alloc, budget, &mut source) {
            Ok(Started { session, digits }) => {
                Viewer::of(alloc, session, digits).map_err(|_| OpenFail::OutOfMemory)
            }
            Err(InputFail::Faulty(fault)) => Err(OpenFail::Faulty(fault)),
            // A source in memory never fails.
            Err(InputFail::Read | InputFail::OutOfMemory) => Err(OpenFail::OutOfMemory),
        }
    }
}
