//! Faults of what is packed or unpacked, by their numbers.
ghost use Rattle.std.specs.Prelude.{◌≡◌};
ghost use Rattle.pm_pack.specs.Faults.{stream_number, stream_unit, number_of, unit_of};
ghost use Rattle.pm_pack.specs.Faults.{pack_fault, unpack_fault};

use crate::reading::UnpackFail;
use crate::writing::PackFail;
use pm_format::FormatError;

/// A fault of what is packed or unpacked.
#[derive(Clone, Copy, Debug, PartialEq, Eq)]
pub enum Fault {
    /// The stream text has this fault, or what the packed text says.
    Stream(FormatError),
    /// A byte follows the stream text.
    Trailing,
    /// It begins otherwise than packed texts.
    NotPacked,
    /// The packed text is cut off, or tells a word that none may tell.
    Cut,
    /// A byte follows the packed text.
    PackedTrailing,
}

fn stream_number(fault: FormatError) -> u32
    ensures { result ≡ stream_number fault }
{
    match fault {
        FormatError::BadMagic => 20,
        FormatError::BadVersion(_) => 21,
        FormatError::Truncated(_) => 22,
        FormatError::BadCount => 23,
        FormatError::BadRoot(_) => 24,
        FormatError::BadFace(_) => 25,
        FormatError::BadRecord(_) => 26,
        FormatError::BadInput(_) => 27,
        FormatError::BadDigits(_) => 33,
        FormatError::OutOfMemory => 0,
    }
}

fn stream_unit(fault: FormatError) -> Option<u32>
    ensures { result ≡ stream_unit fault }
{
    match fault {
        FormatError::BadMagic => None,
        FormatError::BadVersion(version) => Some(version),
        FormatError::Truncated(bytes) => Some(bytes),
        FormatError::BadCount => None,
        FormatError::BadRoot(root) => Some(root),
        FormatError::BadFace(face) => Some(face),
        FormatError::BadRecord(record) => Some(record),
        FormatError::BadInput(field) => Some(field),
        FormatError::BadDigits(digits) => Some(digits),
        FormatError::OutOfMemory => None,
    }
}

impl Fault {
    /// The number by which programs tell the fault. Want of memory is none, and has 0.
    pub fn number(self) -> u32
        ensures { result ≡ number_of self }
    {
        match self {
            Fault::Stream(fault) => stream_number(fault),
            Fault::Trailing => 29,
            Fault::NotPacked => 34,
            Fault::Cut => 35,
            Fault::PackedTrailing => 36,
        }
    }

    /// The number that programs tell beside it: of the version, byte, root, face, record, input or
    /// digits that a stream text has wrong.
    pub fn unit(self) -> Option<u32>
        ensures { result ≡ unit_of self }
    {
        match self {
            Fault::Stream(fault) => stream_unit(fault),
            Fault::Trailing => None,
            Fault::NotPacked => None,
            Fault::Cut => None,
            Fault::PackedTrailing => None,
        }
    }
}

/// The fault for which bytes aren't packed; none for want of memory.
pub fn pack_fault(fail: PackFail) -> Option<Fault>
    ensures { result ≡ pack_fault fail }
{
    match fail {
        PackFail::Stream(fault) => Some(Fault::Stream(fault)),
        PackFail::Trailing => Some(Fault::Trailing),
        PackFail::OutOfMemory => None,
    }
}

/// The fault for which bytes aren't unpacked; none for want of memory.
pub fn unpack_fault(fail: UnpackFail) -> Option<Fault>
    ensures { result ≡ unpack_fault fail }
{
    match fail {
        UnpackFail::NotPacked => Some(Fault::NotPacked),
        UnpackFail::Cut => Some(Fault::Cut),
        UnpackFail::Trailing => Some(Fault::PackedTrailing),
        UnpackFail::Stream(fault) => Some(Fault::Stream(fault)),
        UnpackFail::OutOfMemory => None,
    }
}
