//! The exported functions that pack a stream and unpack it. Each answers a status: 0 where all was
//! done.
ghost use Rattle.std.specs.Prelude.{◌≡◌, ◌≢◌, ◌↔◌};
ghost use Rattle.pm_making.specs.Making.{MadeText};
ghost use Rattle.pm_making.specs.Packing.{IsPackedOf, IsUnpackedOf, IsFirstOf};
ghost use Rattle.vdpm_c.specs.Making.{HasMade, no_fault};
ghost use Rattle.vdpm_c.specs.Packing.{IsToldOf, RefusedStream, RefusedPacked};
ghost use Rattle.vdpm_c.specs.Packing.{RefusedBeginning};

use crate::made;
use crate::statuses::{FAULTY, NO_MEMORY, NOT_SO};
use crate::tables::{FaultTold, MadeHandle, NO_FAULT};
use pm_pack::{Fault, pack_fault, unpack_fault};
use std::alloc::Global;

// The fault goes out, if there is one: else memory was wanting.
fn refused(found: Option<Fault>, fault: &mut FaultTold) -> u32
    ensures status { result ≢ 1 → result ≡ 5 }
    ensures told { result ≡ 1 → IsToldOf found fault.new }
    ensures untold { result ≢ 1 → fault.new ≡ fault.old }
{
    let Some(why) = found else {
        return NO_MEMORY;
    };
    *fault = FaultTold {
        number: why.number(),
        place: why.unit().map_or(0, u64::from),
    };
    FAULTY
}

/// Packs a stream, as the program `pack` does.
#[unsafe(no_mangle)]
#[tactic(auto, using(crate::proofs::PackingLaws::refused_stream))]
pub extern "C" fn vdpm_pack(
    alloc: Global,
    stream: &[u8],
    handle: &mut MadeHandle,
    fault: &mut FaultTold,
) -> u32
    ensures done { result ≡ 0 → (m : MadeText) × HasMade handle.new m × IsPackedOf stream.now m }
    ensures refused { result ≡ 1 → RefusedStream stream.now fault.new }
    ensures untold { result ≢ 1 → fault.new ≡ no_fault }
    ensures not_so { result ≡ 6 ↔ (handle.old.open ≢ 0) }
    ensures statuses { result ≢ 0 → result ≢ 1 → result ≢ 6 → result ≡ 5 }
    ensures as_before { result ≢ 0 → handle.new ≡ handle.old }
{
    *fault = NO_FAULT;
    if handle.open != 0 {
        return NOT_SO;
    }
    match pm_making::pack(alloc, stream) {
        Ok(it) => made::keep(alloc, it, handle),
        Err(fail) => refused(pack_fault(fail), fault),
    }
}

/// Unpacks a packed text, as `pack --unpack` does.
#[unsafe(no_mangle)]
pub extern "C" fn vdpm_unpack(
    alloc: Global,
    packed: &[u8],
    handle: &mut MadeHandle,
    fault: &mut FaultTold,
) -> u32
    ensures done { result ≡ 0 → (m : MadeText) × HasMade handle.new m
        × IsUnpackedOf packed.now m }
    ensures refused { result ≡ 1 → RefusedPacked packed.now fault.new }
    ensures untold { result ≢ 1 → fault.new ≡ no_fault }
    ensures not_so { result ≡ 6 ↔ (handle.old.open ≢ 0) }
    ensures statuses { result ≢ 0 → result ≢ 1 → result ≢ 6 → result ≡ 5 }
    ensures as_before { result ≢ 0 → handle.new ≡ handle.old }
{
    *fault = NO_FAULT;
    if handle.open != 0 {
        return NOT_SO;
    }
    match pm_making::unpack(alloc, packed) {
        Ok(it) => made::keep(alloc, it, handle),
        Err(fail) => refused(unpack_fault(fail), fault),
    }
}

/// Unpacks the first records of a packed text whose bytes may be cut off, as `pack --unpack
/// --records` does.
#[unsafe(no_mangle)]
pub extern "C" fn vdpm_unpack_first(
    alloc: Global,
    packed: &[u8],
    records: u32,
    handle: &mut MadeHandle,
    fault: &mut FaultTold,
) -> u32
    ensures done { result ≡ 0 → (m : MadeText) × HasMade handle.new m
        × IsFirstOf packed.now records m }
    ensures refused { result ≡ 1 → RefusedBeginning packed.now records fault.new }
    ensures untold { result ≢ 1 → fault.new ≡ no_fault }
    ensures not_so { result ≡ 6 ↔ (handle.old.open ≢ 0) }
    ensures statuses { result ≢ 0 → result ≢ 1 → result ≢ 6 → result ≡ 5 }
    ensures as_before { result ≢ 0 → handle.new ≡ handle.old }
{
    *fault = NO_FAULT;
    if handle.open != 0 {
        return NOT_SO;
    }
    match pm_making::unpack_first(alloc, packed, records) {
        Ok(it) => made::keep(alloc, it, handle),
        Err(fail) => refused(unpack_fault(fail), fault),
    }
}
