//! Faults of what comes after a header.

use crate::fault::PlyFault;

/// A fault, and how many bytes are left where it stands.
#[derive(Clone, Copy, Debug, PartialEq, Eq)]
pub(crate) struct Stop {
    pub fault: PlyFault,
    pub left: usize,
}

/// Why the reading stopped.
#[derive(Clone, Copy, Debug, PartialEq, Eq)]
pub(crate) enum BodyFail {
    Stop(Stop),
    OutOfMemory,
}
