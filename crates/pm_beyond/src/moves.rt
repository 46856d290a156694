//! Why a split or a collapse is refused.
use pm_base::FaceId;

/// Why a split or a collapse isn't made. `NotActive`: the record is or isn't split already, or a
/// node of it isn't active. `Blocked`: the face in the way is the first recorded neighbour that
/// isn't kept, for a split, or the face that stands where another neighbour is recorded, for a
/// collapse.
#[derive(Clone, Copy, Debug, PartialEq, Eq)]
pub enum MoveFault {
    NotActive,
    Blocked(FaceId),
}
