//! OBJ texts of which the first bytes were taken.
ghost use Rattle.std.specs.Prelude.{◌≡◌, ◌≤◌, true, false, Ok, IfOk, IfErr, IfSome, OnOk};
ghost use Rattle.std.specs.Io.KnownBytes.{prepend_known};
ghost use Rattle.pm_io.specs.Bytes.{AtEnd};
ghost use Rattle.pm_io.specs.Causes.{HasCause};
ghost use Rattle.obj_scan.specs.Fails.{ExplainsScan, scanned_of};
ghost use Rattle.obj_scan.specs.Meaning.{scan_meaning_of, IsWithinLimits};
ghost use Rattle.obj_scan.specs.Refusals.{of_source};
ghost use Rattle.mesh_scan.specs.Fails.{TellsText};

use crate::format::FIRST_BYTES;
use obj_scan::{Scan, ScanFail, scan_obj, scan_obj_after};
use pm_io::{Source, SureSource};
use std::alloc::Global;

// Reads a text in memory.
fn scan_short(alloc: Global, bytes: &[u8]) -> Result<Scan, ScanFail>
    ensures ok { IfOk result (λ s. scan_meaning_of bytes.now ≡ Ok (scanned_of s)) }
    ensures within { IfOk result (λ s. IsWithinLimits (scanned_of s)) }
    ensures err { IfErr result (λ e. TellsText e (scan_meaning_of bytes.now)) }
{
    match SureSource::new(alloc, bytes, FIRST_BYTES) {
        Ok(mut source) => scan_obj(alloc, &mut source),
        Err(_) => Err(ScanFail::OutOfMemory),
    }
}

/// Reads a text whose first bytes are these, which may be all.
pub(crate) fn scan_text<S: Source>(
    alloc: Global,
    first: &[u8],
    ended: bool,
    source: &mut S,
) -> Result<Scan, ScanFail>
    requires not_ended { ended ≡ false → S.ended source.old ≡ false }
    requires end { ended ≡ true → AtEnd (S.left source.old) }
    ensures ok { IfOk result (λ s. IfSome (prepend_known first.now (S.left source.old))
        (λ bytes. scan_meaning_of bytes ≡ Ok (scanned_of s))) }
    ensures within { IfOk result (λ s. IsWithinLimits (scanned_of s)) }
    ensures end { OnOk result (AtEnd (S.left source.new)) }
    ensures err { IfErr result
        (λ e. ExplainsScan e (prepend_known first.now (S.left source.old)) (S.left source.new)) }
    ensures cause { HasCause (S.faults source.old) (S.faults source.new) (of_source result) }
{
    if ended {
        scan_short(alloc, first)
    } else {
        scan_obj_after(alloc, first, source)
    }
}
