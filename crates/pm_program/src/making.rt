//! Why nothing is made of the first bytes of an input.
ghost use Rattle.std.specs.Prelude.{◌≡◌};
ghost use Rattle.pm_program.specs.Making.{of_make_fail};

use crate::RunFail;

/// How many bytes of the input are looked at, at most. No stream text has as many.
pub const MOST: usize = 0x4000_0000;

/// Why nothing is made of bytes, where `F` is what faults they may have.
#[derive(Clone, Copy, Debug, PartialEq, Eq)]
pub enum MakeFail<F> {
    /// They have this fault.
    Faulty(F),
    /// Memory was wanting.
    OutOfMemory,
}

/// Why a program ends early where nothing is made of its input.
pub fn of_make<F>(fail: MakeFail<F>) -> RunFail<F>
    ensures { result ≡ of_make_fail fail }
{
    match fail {
        MakeFail::Faulty(fault) => RunFail::Faulty(fault),
        MakeFail::OutOfMemory => RunFail::OutOfMemory,
    }
}
