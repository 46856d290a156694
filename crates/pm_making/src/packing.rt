//! Streams packed, and packed texts unpacked.
ghost use Rattle.std.specs.Prelude.{◌≡◌, ◌≢◌, ℕ, List, IfOk, IfErr};
ghost use Rattle.pm_pack.specs.Packed.{IsStream, IsPacked};
ghost use Rattle.pm_pack.specs.Packing.{IsPackFail};
ghost use Rattle.pm_pack.specs.Unpacking.{IsFail};
ghost use Rattle.pm_pack.specs.Beginnings.{IsBeginningFail, HasDecimals, text_of};
ghost use Rattle.pm_making.specs.Packing.{IsPackedOf, IsUnpackedOf, IsFirstOf};

use crate::gathered::Gathered;
use crate::made::Made;
use pm_format::encode;
use pm_io::put_all;
use pm_pack::{Beginning, PackFail, UnpackFail};
use std::alloc::{AllocError, Global};

/// Packs a stream, as the program `pack` does: `unpack` makes the same bytes of what comes of it.
/// It is refused exactly where it is no stream text, or where memory is wanting.
#[tactic(auto, using(crate::proofs::PackingLaws::packed_of))]
pub fn pack(alloc: Global, stream: &[u8]) -> Result<Made, PackFail>
    ensures made { IfOk result (IsPackedOf stream.now) }
    ensures fail { IfErr result (λ e. IsPackFail stream.now e) }
    ensures none { IfErr result (λ e. e ≢ PackFail.OutOfMemory → ¬ IsStream stream.now) }
{
    match pm_pack::pack(alloc, stream) {
        Ok(bytes) => Ok(Made::of(bytes, Vec::new(alloc))),
        Err(fail) => Err(fail),
    }
}

/// The stream of a packed text, as `pack --unpack` writes it. It is refused exactly where it is no
/// packed text, or where memory is wanting.
pub fn unpack(alloc: Global, packed: &[u8]) -> Result<Made, UnpackFail>
    ensures made { IfOk result (IsUnpackedOf packed.now) }
    ensures fail { IfErr result (λ e. IsFail packed.now e) }
    ensures none { IfErr result (λ e. e ≢ UnpackFail.OutOfMemory → (text : List ℕ)
        → ¬ IsPacked packed.now text) }
{
    match pm_pack::unpack(alloc, packed) {
        Ok(bytes) => Ok(Made::of(bytes, Vec::new(alloc))),
        Err(fail) => Err(fail),
    }
}

// The stream text of a beginning.
fn text_in(alloc: Global, beginning: &Beginning) -> Result<Vec<u8>, AllocError>
    requires { HasDecimals beginning.now }
    ensures { IfOk result (λ bytes. bytes.items ≡ text_of beginning.now) }
{
    let mut gathered = Gathered::new(alloc);
    let put = match beginning {
        Beginning::Whole(text) => put_all(&mut gathered, text.as_slice()),
        Beginning::Part(part) => encode(&part.h, part.digits, &mut gathered),
    };
    match put {
        Ok(()) => Ok(gathered.into_bytes()),
        Err(_) => Err(AllocError),
    }
}

/// The stream of the first `n` records of a packed text whose bytes may be cut off, as `pack
/// --unpack --records` writes it: a model of its own, which shows what the whole does while no more
/// of its records are split. Where the text has no more records and its bytes are all there it is
/// its stream, byte for byte.
pub fn unpack_first(alloc: Global, packed: &[u8], n: u32) -> Result<Made, UnpackFail>
    ensures made { IfOk result (IsFirstOf packed.now n) }
    ensures fail { IfErr result (λ e. IsBeginningFail packed.now n e) }
{
    match pm_pack::unpack_first(alloc, packed, n) {
        Err(fail) => Err(fail),
        Ok(beginning) => match text_in(alloc, &beginning) {
            Ok(bytes) => Ok(Made::of(bytes, Vec::new(alloc))),
            Err(_) => Err(UnpackFail::OutOfMemory),
        },
    }
}
