//! Why a program ends before its work is whole.

/// Why a program ends early, where `F` is what faults its input may have.
#[derive(Clone, Copy, Debug, PartialEq, Eq)]
pub enum RunFail<F> {
    /// The input has this fault.
    Faulty(F),
    /// A read failed.
    Read,
    /// A write failed.
    Write,
    /// Memory was wanting.
    OutOfMemory,
}
