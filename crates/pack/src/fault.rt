//! Why nothing is made of the input.
ghost use Rattle.std.specs.Prelude.{◌≡◌};
ghost use Rattle.pack.specs.Making.{fault_fail, pack_fail, unpack_fail};

use pm_pack::{Fault, PackFail, UnpackFail, pack_fault, unpack_fault};
use pm_program::MakeFail;

// Want of memory is no fault of the input.
fn of_fault(fault: Option<Fault>) -> MakeFail<Fault>
    ensures { result ≡ fault_fail fault }
{
    match fault {
        Some(fault) => MakeFail::Faulty(fault),
        None => MakeFail::OutOfMemory,
    }
}

#[tactic(auto, using(crate::proofs::FaultLaws::pack_fails))]
pub fn of_pack(fail: PackFail) -> MakeFail<Fault>
    ensures { result ≡ pack_fail fail }
{
    of_fault(pack_fault(fail))
}

#[tactic(auto, using(crate::proofs::FaultLaws::unpack_fails))]
pub fn of_unpack(fail: UnpackFail) -> MakeFail<Fault>
    ensures { result ≡ unpack_fail fail }
{
    of_fault(unpack_fault(fail))
}
