//! Bytes of a source, held in memory.
ghost use Rattle.std.specs.Prelude.{◌≡◌, ◌<◌, ◌≤◌, true, false, length, IfOk, IfErr, OnOk};
ghost use Rattle.std.specs.Io.KnownBytes.{prepend_known};
ghost use Rattle.obj_lines.specs.declared.limits.TheConstants.{MOST_TEXT_BYTES};
ghost use Rattle.pm_io.specs.Bytes.{AtEnd};
ghost use Rattle.pm_io.specs.Causes.{HasCause};
ghost use Rattle.mesh_scan.specs.Fails.{Holds, StopsRest, of_source};

use crate::fault::{MeshFail, MeshFault};
use obj_lines::MOST_TEXT_BYTES;
use pm_io::Source;

/// Takes bytes until there are so many, and answers whether the source has no more.
pub(crate) fn gather<S: Source>(
    source: &mut S,
    bytes: &mut Vec<u8>,
    most: usize,
) -> Result<bool, MeshFail>
    requires not_ended { S.ended source.old ≡ false }
    requires room { length bytes.old.items ≤ most }
    ensures ok { OnOk result (prepend_known bytes.old.items (S.left source.old)
        ≡ prepend_known bytes.new.items (S.left source.new)) }
    ensures end { IfOk result (λ ended. ended ≡ true → AtEnd (S.left source.new)) }
    ensures few { IfOk result (λ ended. ended ≡ true → length bytes.new.items < most) }
    ensures full { IfOk result (λ ended. ended ≡ false → length bytes.new.items ≡ most) }
    ensures not_ended { IfOk result (λ ended. ended ≡ false → S.ended source.new ≡ false) }
    ensures fails { IfErr result (λ e. Holds e most bytes.new.items
        (prepend_known bytes.old.items (S.left source.old)) (S.left source.new)) }
    ensures cause { HasCause (S.faults source.old) (S.faults source.new) (of_source result) }
{
    let mut piece = [0u8; 4096];
    while bytes.len() < most {
        let room = (most - bytes.len()).min(piece.len());
        match source.take(&mut piece[..room]) {
            Err(_) => return Err(MeshFail::Read),
            Ok(0) => return Ok(true),
            Ok(n) => {
                if bytes.extend_from_slice(&piece[..n]).is_err() {
                    return Err(MeshFail::OutOfMemory);
                }
            }
        }
    }
    Ok(false)
}

/// Takes all that is left after these bytes, unless it is too much.
pub(crate) fn gather_rest<S: Source>(
    source: &mut S,
    bytes: &mut Vec<u8>,
    ended: bool,
) -> Result<(), MeshFail>
    requires not_ended { ended ≡ false → S.ended source.old ≡ false }
    requires end { ended ≡ true → AtEnd (S.left source.old) }
    requires room { length bytes.old.items ≤ MOST_TEXT_BYTES }
    ensures ok { OnOk result (prepend_known bytes.old.items (S.left source.old)
        ≡ prepend_known bytes.new.items (S.left source.new)) }
    ensures end { OnOk result (AtEnd (S.left source.new)) }
    ensures short { OnOk result (length bytes.new.items ≤ MOST_TEXT_BYTES) }
    ensures fails { IfErr result (λ e. StopsRest e
        (prepend_known bytes.old.items (S.left source.old)) (S.left source.new)) }
    ensures cause { HasCause (S.faults source.old) (S.faults source.new) (of_source result) }
{
    if ended {
        return Ok(());
    }
    match gather(source, bytes, MOST_TEXT_BYTES as usize + 1) {
        Ok(true) => Ok(()),
        Ok(false) => Err(MeshFail::Fault(MeshFault::TooLong)),
        Err(fail) => Err(fail),
    }
}
