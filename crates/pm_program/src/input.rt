//! The first bytes of the input.
ghost use Rattle.std.specs.Prelude.{◌≡◌, ◌<◌, ◌≤◌, length, true, false, IfOk, IfErr, OnOk};
ghost use Rattle.pm_io.specs.Bytes.{AtEnd};
ghost use Rattle.pm_program.specs.Input.{Took, HoldsFront, StopsShort, InputCounts};
ghost use Rattle.pm_program.specs.Fails.{of_input_fail};

use crate::RunFail;
use pm_io::Source;
use std::alloc::Global;

/// Why the bytes aren't there.
#[derive(Clone, Copy, Debug, PartialEq, Eq)]
pub enum InputFail {
    Read,
    OutOfMemory,
}

/// Why a program ends early whose input isn't there.
pub fn of_input<F>(fail: InputFail) -> RunFail<F>
    ensures { result ≡ of_input_fail fail }
{
    match fail {
        InputFail::Read => RunFail::Read,
        InputFail::OutOfMemory => RunFail::OutOfMemory,
    }
}

// Adds the next bytes, and answers whether more may come.
fn read_piece<S: Source>(bytes: &mut Vec<u8>, input: &mut S) -> Result<bool, InputFail>
    requires { S.ended input.old ≡ false }
    ensures took { OnOk result
        (Took (S.left input.old) (S.left input.new) bytes.old.items bytes.new.items) }
    ensures not_ended { IfOk result (λ more. more ≡ true → S.ended input.new ≡ false) }
    ensures end { IfOk result (λ more. more ≡ false → AtEnd (S.left input.new)) }
    ensures same { IfOk result (λ more. more ≡ false → bytes.new.items ≡ bytes.old.items) }
    ensures further { IfOk result (λ more. more ≡ true
        → length bytes.old.items < length bytes.new.items) }
    ensures unread { IfErr result (λ e. e ≡ InputFail.Read
        → S.left input.new ≡ S.left input.old) }
    ensures counts { InputCounts (S.faults input.old) (S.faults input.new) result }
{
    let mut piece = [0; 4096];
    match input.take(&mut piece) {
        Err(_) => Err(InputFail::Read),
        Ok(0) => Ok(false),
        Ok(n) => match bytes.extend_from_slice(&piece[..n]) {
            Ok(()) => Ok(true),
            Err(_) => Err(InputFail::OutOfMemory),
        },
    }
}

/// The first bytes that the source has left, up to `most` of them. It takes at most 4,095 more.
#[tactic(auto, using(crate::proofs::InputLaws::took_on, pm_io::proofs::Known::loses_none))]
pub fn read_up_to<S: Source>(
    alloc: Global,
    most: usize,
    input: &mut S,
) -> Result<Vec<u8>, InputFail>
    requires { S.ended input.old ≡ false }
    ensures ok { IfOk result (λ bytes.
        HoldsFront most (S.left input.old) (S.left input.new) bytes.items) }
    ensures short { IfErr result (λ e. e ≡ InputFail.Read
        → StopsShort most (S.left input.old) (S.left input.new)) }
    ensures counts { InputCounts (S.faults input.old) (S.faults input.new) result }
{
    let mut bytes = Vec::new(alloc);
    while bytes.len() < most {
        match read_piece(&mut bytes, input) {
            Ok(true) => {}
            Ok(false) => return Ok(bytes),
            Err(fail) => return Err(fail),
        }
    }
    bytes.truncate(most);
    Ok(bytes)
}
