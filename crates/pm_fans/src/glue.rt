//! Each directed side is noted in a map by its two ends, with a mark where several have the same. A
//! side that stands once is glued to the one that runs back, where that stands once too.
ghost use Rattle.std.specs.Prelude.{◌≡◌, ◌+◌, ◌*◌, ◌<◌, ◌≤◌, ℕ, length, IfOk, OnOk, MatchOption};
ghost use Rattle.pm_base.specs.declared.limits.TheConstants.{MOST_FACES, MOST_SIDES};
ghost use Rattle.pm_base.specs.Sides.{Net, net_of, side_count};
ghost use Rattle.pm_fans.specs.Splits.{IsGlued, AreGlued, IsCuttable};
ghost use Rattle.pm_fans.specs.Ends.{ends_key, IsAloneWithKey, AreNoted};

use crate::OutOfMemory;
use crate::sides::{from, to};
use pm_base::{Corners, Side, SideMap};
use std::alloc::Global;
use std::collections::BTreeMap;

// A key has 32 bits an end.
const SHIFT: u64 = 1 << 32;

/// Stands in the map where several sides have the same ends.
pub(crate) const SEVERAL: u32 = u32::MAX;

/// The side to which each side is glued: the one that joins the same two vertices in the other
/// order, where no other side joins these two; `None` for a side along which the surface is cut.
/// O(F log F) for F faces.
pub fn glued_sides(alloc: Global, faces: &[Corners]) -> Result<SideMap, OutOfMemory>
    requires { IsCuttable (net_of faces.now) }
    ensures { IfOk result (AreGlued (net_of faces.now) (side_count (net_of faces.now))) }
{
    let sides = note_sides(alloc, faces)?;
    let mut glued = SideMap::new(alloc, 3 * faces.len() as u32)?;
    for number in 0..glued.len() {
        let side = Side(number);
        glued.set(side, glued_to(faces, &sides, side));
    }
    Ok(glued)
}

/// All sides by their ends. O(F log F) for F faces.
#[tactic(auto, using(crate::proofs::GlueLaws::none_noted))]
pub(crate) fn note_sides(
    alloc: Global,
    faces: &[Corners],
) -> Result<BTreeMap<u64, u32>, OutOfMemory>
    requires { IsCuttable (net_of faces.now) }
    ensures { IfOk result (AreNoted (net_of faces.now) (side_count (net_of faces.now))) }
{
    let mut sides = BTreeMap::new(alloc);
    for number in 0..3 * faces.len() as u32 {
        note(&mut sides, faces, Side(number))?;
    }
    Ok(sides)
}

// Notes one more side.
fn note(sides: &mut BTreeMap<u64, u32>, faces: &[Corners], side: Side) -> Result<(), OutOfMemory>
    requires short { length faces.now ≤ MOST_FACES }
    requires in_range { side.0 < 3 * length faces.now }
    requires noted { AreNoted (net_of faces.now) side.0 sides.old }
    ensures { OnOk result (AreNoted (net_of faces.now) (side.0 + 1) sides.new) }
{
    let key = ends(from(faces, side), to(faces, side));
    if sides.contains_key(&key) {
        sides.insert(key, SEVERAL)?;
        return Ok(());
    }
    sides.insert(key, side.0)?;
    Ok(())
}

/// The two ends of a side as one number.
pub(crate) fn ends(p: u32, q: u32) -> u64
    ensures { result ≡ ends_key p q }
{
    u64::from(p) * SHIFT + u64::from(q)
}

// The side from p to q, if it stands once.
fn alone(sides: &BTreeMap<u64, u32>, p: u32, q: u32) -> Option<Side>
    ensures { (m : Net) (n : ℕ) → n ≤ MOST_SIDES → AreNoted m n sides.now
        → MatchOption result ((v : ℕ) → IsAloneWithKey m n (ends_key p q) v
        → ⊥) (λ v. IsAloneWithKey m n (ends_key p q) v.0) }
{
    match sides.get(&ends(p, q)) {
        Some(&side) if side != SEVERAL => Some(Side(side)),
        _ => None,
    }
}

// The side to which this one is glued.
fn glued_to(faces: &[Corners], sides: &BTreeMap<u64, u32>, side: Side) -> Option<Side>
    requires cuttable { IsCuttable (net_of faces.now) }
    requires in_range { side.0 < 3 * length faces.now }
    requires noted { AreNoted (net_of faces.now) (3 * length faces.now) sides.now }
    ensures { MatchOption result ((g : ℕ) → IsGlued (net_of faces.now) side.0 g → ⊥)
        (λ g. IsGlued (net_of faces.now) side.0 g.0) }
{
    let p = from(faces, side);
    let q = to(faces, side);
    if alone(sides, p, q).is_none() {
        return None;
    }
    alone(sides, q, p)
}
