//! Why no viewer is opened.
ghost use Rattle.std.specs.Prelude.{◌≡◌, ◌≤◌, Some, None, IfSome, IfNone, false};
ghost use Rattle.pm_viewer.specs.Causes.{Tells, is_stream_fault};

use pm_commands::Fault;
use pm_format::FormatError;

/// Why bytes open no viewer.
#[derive(Clone, Copy, Debug, PartialEq, Eq)]
pub enum OpenFail {
    /// They aren't the stream text of a valid hierarchy, for this reason.
    Faulty(Fault),
    /// Memory was wanting.
    OutOfMemory,
}

/// A fault by its number, with its place if it has one.
#[derive(Clone, Copy, Debug, PartialEq, Eq)]
pub struct Cause {
    pub number: u32,
    pub place: Option<u64>,
}

// A fault without a place.
fn bare(number: u32) -> Cause
    ensures number { result.number ≡ number }
    ensures place { result.place ≡ None }
{
    Cause {
        number,
        place: None,
    }
}

// A fault with one.
fn placed(number: u32, place: u64) -> Cause
    ensures number { result.number ≡ number }
    ensures place { result.place ≡ Some place }
{
    Cause {
        number,
        place: Some(place),
    }
}

// A fault of the text of a stream; none for want of memory.
#[tactic(auto, unfolding(pm_commands::specs::FaultText::fault_text))]
fn cause_of_stream(fault: FormatError) -> Option<Cause>
    ensures told { IfSome result (λ c. Tells (Fault.Stream fault) c.number c.place) }
    ensures apart { IfSome result (λ c. 11 ≤ c.number) }
    ensures none { IfNone result (fault ≡ FormatError.OutOfMemory) }
{
    match fault {
        FormatError::BadMagic => Some(bare(20)),
        FormatError::BadVersion(version) => Some(placed(21, u64::from(version))),
        FormatError::BadDigits(digits) => Some(placed(33, u64::from(digits))),
        FormatError::Truncated(bytes) => Some(placed(22, u64::from(bytes))),
        FormatError::BadCount => Some(bare(23)),
        FormatError::BadRoot(root) => Some(placed(24, u64::from(root))),
        FormatError::BadFace(face) => Some(placed(25, u64::from(face))),
        FormatError::BadRecord(record) => Some(placed(26, u64::from(record))),
        FormatError::BadInput(field) => Some(placed(27, u64::from(field))),
        FormatError::OutOfMemory => None,
    }
}

/// The number and the place of a fault of a stream, as `check` says them; none for a fault that no
/// stream has. The numbers are 11 and more.
#[tactic(auto, unfolding(pm_commands::specs::FaultText::fault_text))]
pub fn cause_of(fault: Fault) -> Option<Cause>
    ensures told { IfSome result (λ c. Tells fault c.number c.place) }
    ensures apart { IfSome result (λ c. 11 ≤ c.number) }
    ensures none { IfNone result (is_stream_fault fault ≡ false) }
{
    match fault {
        Fault::Stream(fault) => cause_of_stream(fault),
        Fault::BadNeighbour(record) => Some(placed(28, u64::from(record))),
        Fault::Trailing => Some(bare(29)),
        Fault::LeafEdgeTwice(face) => Some(placed(11, u64::from(face))),
        _ => None,
    }
}
