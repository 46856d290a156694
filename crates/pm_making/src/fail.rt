//! Why nothing is made.
ghost use Rattle.std.specs.Prelude.{◌≡◌, false, Some, None, IfSome, IfNone};
ghost use Rattle.pm_viewer.specs.Causes.{Tells};
ghost use Rattle.pm_making.specs.Making.{is_text_fault};

use pm_commands::Fault;
use pm_viewer::Cause;

/// Why no stream is made of a text.
#[derive(Clone, Copy, Debug, PartialEq, Eq)]
pub enum BuildFail {
    /// The text spells no oriented manifold, for this reason.
    Faulty(Fault),
    /// Memory was wanting.
    OutOfMemory,
}

/// Why no text is made fit.
#[derive(Clone, Copy, Debug, PartialEq, Eq)]
pub enum PrepareFail {
    /// The text has a fault, or too much or nothing would come of it.
    Faulty(obj_fit::Fault),
    /// Memory was wanting.
    OutOfMemory,
}

// A fault without a place.
fn bare(number: u32) -> Cause
    ensures number { result.number ≡ number }
    ensures place { result.place ≡ None }
{
    Cause {
        number,
        place: None,
    }
}

// A fault with its place.
fn placed(number: u32, place: u32) -> Cause
    ensures number { result.number ≡ number }
    ensures place { result.place ≡ Some place }
{
    Cause {
        number,
        place: Some(u64::from(place)),
    }
}

/// The number and the place of a fault of an OBJ text, as `build` and `simplify` say them: a line,
/// face or vertex counted from 1, if the fault has a place. There is no cause for a fault that no
/// such text has.
#[tactic(auto, unfolding(pm_commands::specs::FaultText::fault_text))]
pub fn text_cause_of(fault: Fault) -> Option<Cause>
    ensures told { IfSome result (λ c. Tells fault c.number c.place) }
    ensures none { IfNone result (is_text_fault fault ≡ false) }
{
    match fault {
        Fault::Obj(fault, line) => Some(placed(fault.number(), line)),
        Fault::EdgeTwice(face) => Some(placed(11, face)),
        Fault::NotFan(vertex) => Some(placed(12, vertex)),
        Fault::NoMesh => Some(bare(14)),
        _ => None,
    }
}
