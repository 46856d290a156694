//! What is made of the bytes of the input.
ghost use Rattle.std.specs.Prelude.{IfOk, IfErr};
ghost use Rattle.pm_program.specs.Making.{FailsBy};
ghost use Rattle.pm_pack.specs.Beginnings.{text_of, HasDecimals};
ghost use Rattle.pack.specs.Making.{IsMade, Refuses};

use crate::fault::{of_pack, of_unpack};
use crate::words::Asked;
use pm_pack::{Beginning, Fault, pack, unpack, unpack_first};
use pm_program::MakeFail;
use std::alloc::Global;

/// What is to be put: the packed text of the bytes, what they are packed of, or the first records
/// of that.
pub fn make(alloc: Global, asked: Asked, bytes: &[u8]) -> Result<Beginning, MakeFail<Fault>>
    ensures ok { IfOk result (λ made. IsMade asked bytes.now (text_of made)) }
    ensures decimals { IfOk result HasDecimals }
    ensures err { IfErr result (λ e. FailsBy (Refuses asked) bytes.now e) }
{
    match asked {
        Asked::Pack => match pack(alloc, bytes) {
            Ok(text) => Ok(Beginning::Whole(text)),
            Err(fail) => Err(of_pack(fail)),
        },
        Asked::Unpack => match unpack(alloc, bytes) {
            Ok(text) => Ok(Beginning::Whole(text)),
            Err(fail) => Err(of_unpack(fail)),
        },
        Asked::UnpackFirst(n) => match unpack_first(alloc, bytes, n) {
            Ok(beginning) => Ok(beginning),
            Err(fail) => Err(of_unpack(fail)),
        },
    }
}
