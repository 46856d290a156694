//! The hierarchy of a stream text.
ghost use Rattle.std.specs.Prelude.{◌≡◌, ◌≤◌, [], false, None, Ok, IfOk, IfErr, IfSome, OnOk};
ghost use Rattle.pm_io.specs.Bytes.{AtEnd};
ghost use Rattle.pm_commands.specs.Input.{Stops};
ghost use Rattle.pm_commands.specs.Beginning.{IsHierarchyText};

use crate::fault::{Fault, InputFail};
use pm_format::{Stream, read_stream};
use pm_io::{Source, Taker};
use pm_load::validate;
use std::alloc::Global;

// Reads the stream text of a valid hierarchy through a window that has nothing in it yet, and looks
// that no byte follows it.
fn read_through<S: Source>(
    alloc: Global,
    taker: &mut Taker,
    input: &mut S,
) -> Result<Stream, InputFail>
    requires empty { taker.old ≡ [] }
    requires not_ended { S.ended input.old ≡ false }
    ensures read { IfOk result
        (λ s. IfSome (S.left input.old)
        (λ bytes. IsHierarchyText bytes (Ok (record { digits = s.digits; h = s.h; rest = [] }))
        None)) }
    ensures few { IfOk result (λ s. s.digits ≤ 4) }
    ensures end { OnOk result (AtEnd (S.left input.new)) }
    ensures count { OnOk result (S.faults input.new ≡ S.faults input.old) }
    ensures err { IfErr result (λ e. Stops IsHierarchyText e
        (S.left input.old) (S.left input.new) (S.faults input.old) (S.faults input.new)) }
{
    let Stream { h, digits } = read_stream(alloc, taker, input)?;
    let valid = validate(alloc, h)?;
    let ended = match taker.piece(input) {
        Ok([]) => Ok(()),
        Ok(_) => Err(InputFail::Faulty(Fault::Trailing)),
        Err(_) => Err(InputFail::Read),
    };
    ended.and(Ok(Stream { h: valid, digits }))
}

/// Reads the stream text of a valid hierarchy, and looks that no byte follows it. A fault is
/// answered once the bytes that decide it were taken.
pub fn read_hierarchy<S: Source>(alloc: Global, input: &mut S) -> Result<Stream, InputFail>
    requires { S.ended input.old ≡ false }
    ensures read { IfOk result
        (λ s. IfSome (S.left input.old)
        (λ bytes. IsHierarchyText bytes (Ok (record { digits = s.digits; h = s.h; rest = [] }))
        None)) }
    ensures few { IfOk result (λ s. s.digits ≤ 4) }
    ensures end { OnOk result (AtEnd (S.left input.new)) }
    ensures count { OnOk result (S.faults input.new ≡ S.faults input.old) }
    ensures err { IfErr result (λ e. Stops IsHierarchyText e
        (S.left input.old) (S.left input.new) (S.faults input.old) (S.faults input.new)) }
{
    let mut taker = Taker::new(alloc)?;
    read_through(alloc, &mut taker, input)
}
