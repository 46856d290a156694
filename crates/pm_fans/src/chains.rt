//! The sides that run from one vertex follow one another over glued sides, in chains, open or
//! closed. All sides of a chain have one head: the first side of an open chain, the least of a
//! closed one.
ghost use Rattle.std.specs.Prelude.{◌≡◌, ℕ, ◌<◌, ◌⊎◌, Some, None, length, IfOk};
ghost use Rattle.pm_fans.specs.Heads.{AreGluedInPairs, AreHeaded, HasHead, Keeps, AreOpenHeaded};
ghost use Rattle.pm_fans.specs.Heads.{AreAllHeaded};
ghost use Rattle.pm_base.specs.Sides.{beside_side};

use crate::OutOfMemory;
use pm_base::{Side, SideMap};
use std::alloc::Global;

/// The head of each side's chain. O(F) for F faces.
pub(crate) fn chain_heads(alloc: Global, glued: &SideMap) -> Result<SideMap, OutOfMemory>
    requires { AreGluedInPairs glued.now }
    ensures { IfOk result (AreAllHeaded glued.now) }
{
    let mut heads = open_heads(alloc, glued)?;
    for number in 0..glued.len() {
        let side = Side(number);
        if heads.get(side).is_none() {
            walk_back(glued, &mut heads, side);
        }
    }
    Ok(heads)
}

// The heads of the sides of open chains.
fn open_heads(alloc: Global, glued: &SideMap) -> Result<SideMap, OutOfMemory>
    requires { AreGluedInPairs glued.now }
    ensures { IfOk result (λ heads. AreOpenHeaded glued.now heads (length glued.now)) }
{
    let mut heads = SideMap::new(alloc, glued.len())?;
    for number in 0..glued.len() {
        let side = Side(number);
        if glued.get(side).is_none() {
            walk_on(glued, &mut heads, side);
        }
    }
    Ok(heads)
}

// Gives an open chain its head, from its first side on.
fn walk_on(glued: &SideMap, heads: &mut SideMap, first: Side)
    requires paired { AreGluedInPairs glued.now }
    requires headed { AreHeaded glued.now heads.old }
    requires in_range { first.0 < length glued.now }
    requires not_glued { beside_side glued.now first.0 ≡ None }
    requires new { beside_side heads.old first.0 ≡ None }
    ensures headed { AreHeaded glued.now heads.new }
    ensures keeps { Keeps heads.old heads.new }
    ensures only { (e h : ℕ) → beside_side heads.new e ≡ Some h → (beside_side heads.old e ≡ Some h)
        ⊎ (h ≡ first.0) }
    ensures done { beside_side heads.new first.0 ≡ Some first.0 }
{
    let mut reached = Some(first);
    while let Some(side) = reached {
        heads.set(side, Some(first));
        reached = glued.get(side.prev());
    }
}

// Gives a closed chain its head, from its least side back.
fn walk_back(glued: &SideMap, heads: &mut SideMap, least: Side)
    requires paired { AreGluedInPairs glued.now }
    requires headed { AreHeaded glued.now heads.old }
    requires open { (e : ℕ) → e < length glued.now → beside_side glued.now e ≡ None
        → HasHead heads.old e }
    requires earlier { (e : ℕ) → e < least.0 → HasHead heads.old e }
    requires in_range { least.0 < length glued.now }
    requires new { beside_side heads.old least.0 ≡ None }
    ensures headed { AreHeaded glued.now heads.new }
    ensures keeps { Keeps heads.old heads.new }
    ensures done { HasHead heads.new least.0 }
{
    let mut side = least;
    while let (None, Some(twin)) = (heads.get(side), glued.get(side)) {
        heads.set(side, Some(least));
        side = twin.next();
    }
}
