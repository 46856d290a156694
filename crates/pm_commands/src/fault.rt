//! Why a command ends before its work is whole.
ghost use Rattle.std.specs.Prelude.{◌≡◌};
ghost use Rattle.pm_commands.specs.declared.fault.InputFail.TheVariants as input;
ghost use Rattle.pm_commands.specs.declared.fault.CommandFail.TheVariants as fails;
ghost use Rattle.pm_commands.specs.Input.{fail_of};
ghost use Rattle.pm_commands.specs.Surface.{obj_fail};
ghost use Rattle.pm_commands.specs.Beginning.{stream_fail, load_fail};
ghost use Rattle.pm_commands.specs.Ran.{serve_fail};

use obj_read::{ObjFail, ObjFault};
use pm_format::{FormatError, StreamFail};
use pm_io::WriteFault;
use pm_load::LoadFail;
use pm_session::ServeFail;
use std::alloc::AllocError;

/// A fault of the input, with its place.
#[derive(Clone, Copy, Debug, PartialEq, Eq)]
pub enum Fault {
    /// The bytes begin with no stream text, for this reason.
    Stream(FormatError),
    /// This record is the last one of a stream, counted from 0, that doesn't have beside its faces
    /// what it tells.
    BadNeighbour(u32),
    /// A byte follows the stream text.
    Trailing,
    /// This script line, counted from 1, is none of the forms.
    BadLine(u64),
    /// This script line, counted from 1, names no record.
    NoRecord(u64),
    /// The script has more than 1,073,741,824 bytes.
    ScriptTooLong,
    /// This line of an OBJ text, counted from 1, has this fault.
    Obj(ObjFault, u32),
    /// A directed side of this face of an OBJ text, counted from 1, is one of an earlier face too.
    EdgeTwice(u32),
    /// A directed side of this face of a stream's leaf mesh, counted from 0, is one of an earlier
    /// face too.
    LeafEdgeTwice(u32),
    /// The faces at this vertex, counted from 1, are no fan.
    NotFan(u32),
    /// No line of an OBJ text is a vertex or a face, though some line has more than blanks and a
    /// comment.
    NoMesh,
}

/// Why the input gives nothing to work on.
#[derive(Clone, Copy, Debug, PartialEq, Eq)]
pub enum InputFail {
    Faulty(Fault),
    Read,
    OutOfMemory,
}

/// Why a command ends early.
#[derive(Clone, Copy, Debug, PartialEq, Eq)]
pub enum CommandFail {
    Faulty(Fault),
    Read,
    Write,
    OutOfMemory,
}

impl From<AllocError> for InputFail {
    ghost from_gives = { λ _ fail. fail ≡ input.OutOfMemory };

    fn from(_refused: AllocError) -> InputFail {
        InputFail::OutOfMemory
    }
}

// Want of memory is no fault of a text.
impl From<ObjFail> for InputFail {
    ghost from_gives = { λ cause fail. fail ≡ obj_fail cause };

    fn from(cause: ObjFail) -> InputFail {
        match cause {
            ObjFail::Fault { fault, line } => InputFail::Faulty(Fault::Obj(fault, line)),
            ObjFail::Read => InputFail::Read,
            ObjFail::OutOfMemory => InputFail::OutOfMemory,
        }
    }
}

// Want of memory is no fault of the bytes.
impl From<StreamFail> for InputFail {
    ghost from_gives = { λ cause fail. fail ≡ stream_fail cause };

    fn from(cause: StreamFail) -> InputFail {
        match cause {
            StreamFail::Read => InputFail::Read,
            StreamFail::Fault(FormatError::OutOfMemory) => InputFail::OutOfMemory,
            StreamFail::Fault(fault) => InputFail::Faulty(Fault::Stream(fault)),
        }
    }
}

// Want of memory is no fault of a hierarchy.
impl From<LoadFail> for InputFail {
    ghost from_gives = { λ cause fail. fail ≡ load_fail cause };

    fn from(cause: LoadFail) -> InputFail {
        match cause {
            LoadFail::EdgeTwice(face) => InputFail::Faulty(Fault::LeafEdgeTwice(face.0)),
            LoadFail::BadNeighbour(record) => InputFail::Faulty(Fault::BadNeighbour(record)),
            LoadFail::OutOfMemory => InputFail::OutOfMemory,
        }
    }
}

impl From<AllocError> for CommandFail {
    ghost from_gives = { λ _ fail. fail ≡ fails.OutOfMemory };

    fn from(_refused: AllocError) -> CommandFail {
        CommandFail::OutOfMemory
    }
}

impl From<WriteFault> for CommandFail {
    ghost from_gives = { λ _ fail. fail ≡ fails.Write };

    fn from(_fault: WriteFault) -> CommandFail {
        CommandFail::Write
    }
}

impl From<InputFail> for CommandFail {
    ghost from_gives = { λ cause fail. fail ≡ fail_of cause };

    fn from(cause: InputFail) -> CommandFail {
        match cause {
            InputFail::Faulty(fault) => CommandFail::Faulty(fault),
            InputFail::Read => CommandFail::Read,
            InputFail::OutOfMemory => CommandFail::OutOfMemory,
        }
    }
}

impl From<StreamFail> for CommandFail {
    ghost from_gives = { λ cause fail. fail ≡ fail_of (stream_fail cause) };

    fn from(cause: StreamFail) -> CommandFail {
        CommandFail::from(InputFail::from(cause))
    }
}

impl From<LoadFail> for CommandFail {
    ghost from_gives = { λ cause fail. fail ≡ fail_of (load_fail cause) };

    fn from(cause: LoadFail) -> CommandFail {
        CommandFail::from(InputFail::from(cause))
    }
}

impl From<ServeFail> for CommandFail {
    ghost from_gives = { λ cause fail. fail ≡ serve_fail cause };

    fn from(cause: ServeFail) -> CommandFail {
        match cause {
            ServeFail::BadLine(number) => CommandFail::Faulty(Fault::BadLine(number)),
            ServeFail::NoRecord(number) => CommandFail::Faulty(Fault::NoRecord(number)),
            ServeFail::ScriptTooLong => CommandFail::Faulty(Fault::ScriptTooLong),
            ServeFail::Read => CommandFail::Read,
            ServeFail::Write => CommandFail::Write,
        }
    }
}
