//! Why nothing is made of the input.
ghost use Rattle.std.specs.Prelude.{◌≡◌};
ghost use Rattle.paint.specs.Streams.{stream_fail};

use crate::refused::Refused;
use pm_format::FormatError;
use pm_program::MakeFail;

/// A fault of the input.
#[derive(Clone, Copy, Debug, PartialEq, Eq)]
pub enum Fault {
    /// The stream text has this fault.
    Stream(FormatError),
    /// What follows it is no coat for it.
    Coat(Refused),
}

/// Why nothing is made where a stream has a fault. Want of memory is none.
pub fn of_stream(fault: FormatError) -> MakeFail<Fault>
    ensures { result ≡ stream_fail fault }
{
    match fault {
        FormatError::OutOfMemory => MakeFail::OutOfMemory,
        fault => MakeFail::Faulty(Fault::Stream(fault)),
    }
}
