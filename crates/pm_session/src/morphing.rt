//! Geomorphs for a script, and how they are told.
ghost use Rattle.std.specs.Prelude.{◌≡◌, true, OnOk, OnErr};
ghost use Rattle.pm_io.specs.Bytes.{Gains, GainsPart};
ghost use Rattle.pm_io.specs.Causes.{Rose};
ghost use Rattle.pm_io.specs.Puts.{Puts};
ghost use Rattle.pm_base.specs.Counts.{set_of};
ghost use Rattle.pm_morph.specs.Marks.{AreMarksOf};
ghost use Rattle.pm_session.specs.Script.{is_fraction, not_finer, morph_reply};

use pm_front::Front;
use pm_io::{Line, Sink, WriteFault, put_all};
use pm_morph::{MOST_PARTS, Marker, MorphFail};

/// Whether a/b is a fraction of the way from the marked front to the one that is shown.
#[tactic(auto, unfolding(crate::specs::Script::is_fraction))]
pub(crate) fn is_fraction(a: u32, b: u32) -> bool
    ensures { result ≡ is_fraction a b }
{
    1 <= b && b <= MOST_PARTS && a <= b
}

// The line that replies to `g` where a marked record isn't split.
#[tactic(auto, unfolding(crate::specs::Script::not_finer))]
fn put_not_finer(line: &mut Line, k: u32)
    ensures { line.new ≡ not_finer k }
{
    line.clear();
    line.add(b"not finer ");
    line.add_number(k);
    line.add(b"\n");
}

// Puts that reply.
fn put_refusal<K: Sink>(k: u32, out: &mut K) -> Result<(), WriteFault>
    ensures { Puts K.Sink out.old out.new (not_finer k) result }
{
    let mut line = Line::new();
    put_not_finer(&mut line, k);
    put_all(out, line.as_slice())
}

/// Writes the mesh at a/b of the way from the marked front, or which marked record isn't split.
pub(crate) fn put_morph<K: Sink>(
    marker: &mut Marker,
    front: &Front,
    a: u32,
    b: u32,
    out: &mut K,
) -> Result<(), WriteFault>
    requires made { AreMarksOf front.now.h marker.old }
    requires fraction { is_fraction a b ≡ true }
    ensures ok { let text =
        morph_reply front.now.h (set_of marker.old) (set_of front.now.flags) a b in
        OnOk result (Gains (K.got out.old) (K.got out.new) text) }
    ensures err { let text = morph_reply front.now.h (set_of marker.old) (set_of front.now.flags) a
        b in
        OnErr result (GainsPart (K.got out.old) (K.got out.new) text) }
    ensures count { OnOk result (K.faults out.new ≡ K.faults out.old) }
    ensures rose { OnErr result (Rose (K.faults out.old) (K.faults out.new)) }
    ensures same { marker.new ≡ marker.old }
{
    match marker.write_morph(front, a, b, out) {
        Ok(()) => Ok(()),
        Err(MorphFail::Write) => Err(WriteFault),
        Err(MorphFail::NotFiner(k)) => put_refusal(k, out),
    }
}
