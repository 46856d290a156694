//! The way down from the full front of a hierarchy to its base front, on which it is found out
//! whether the hierarchy is valid. Each record is looked at while it is the last one split.
ghost use Rattle.std.specs.Prelude.{◌≡◌, ◌≢◌, ◌-◌, ◌<◌, ◌≤◌, ℕ, IfOk, IfErr, OnOk};
ghost use Rattle.pm_base.specs.Sides.{NoSideTwice};
ghost use Rattle.pm_forest.specs.Forest.{record_count, leaf_count};
ghost use Rattle.pm_forest.specs.Rules.{HasShape};
ghost use Rattle.pm_twins.specs.Table.{IsTableOf};
ghost use Rattle.pm_beyond.specs.Walks.{leaf_net};
ghost use Rattle.pm_beyond.specs.Valid.{IsValid, IsAsTold, IsLastToFail};
ghost use Rattle.pm_sides.specs.Lowering.{Lowered};
ghost use Rattle.pm_load.specs.declared.open.LoadFail.TheVariants as fails;
ghost use Rattle.pm_load.specs.Faults.{IsLoadFault};

use crate::open::LoadFail;
use pm_forest::Hierarchy;
use pm_front::{BadNeighbour, Opening, OutOfMemory};
use pm_sides::Lowering;
use pm_twins::{Twins, TwinsFail};
use std::alloc::Global;

/// A hierarchy on its way down: the first records are still split, and all others are as told.
pub(crate) trait Descent: Drop {
    /// The hierarchy, and how many of its records are still split.
    ghost lowered: { Self → Lowered };

    /// Every record is split.
    fn full(alloc: Global, h: Hierarchy, twins: Twins) -> Result<Self, OutOfMemory>
        requires { IsTableOf (leaf_net h) (leaf_count h) twins }
        ensures { IfOk result (λ d. lowered d ≡ record { h = h; left = record_count h }) };

    /// What is known of the hierarchy so far.
    fn invariant(&self)
        ensures shape { HasShape (lowered self.now).h }
        ensures once { NoSideTwice (leaf_net (lowered self.now).h) }
        ensures rules { (k : ℕ) → (lowered self.now).left ≤ k
            → k < record_count (lowered self.now).h → IsAsTold (lowered self.now).h k };

    /// How many records are still split.
    fn left(&self) -> u32
        ensures value { result ≡ (lowered self.now).left }
        ensures most { result ≤ record_count (lowered self.now).h };

    /// Collapses the last record that is split, where that is as told.
    fn lower(&mut self) -> Result<(), BadNeighbour>
        requires { 0 < (lowered self.old).left }
        ensures ok { OnOk result (lowered self.new
            ≡ record { h = (lowered self.old).h; left = (lowered self.old).left - 1 }) }
        ensures bad { IfErr result (λ b. (b.0 ≡ (lowered self.old).left - 1)
            × (IsAsTold (lowered self.old).h b.0 → ⊥)) };
}

impl Descent for Lowering {
    ghost lowered = { λ l. l };

    fn full(alloc: Global, h: Hierarchy, twins: Twins) -> Result<Lowering, OutOfMemory> {
        Lowering::full(alloc, h, twins)
    }

    fn invariant(&self) {
        self.invariant();
    }

    fn left(&self) -> u32 {
        self.left()
    }

    fn lower(&mut self) -> Result<(), BadNeighbour> {
        self.lower()
    }
}

impl Descent for Opening {
    ghost lowered = { λ o. o };

    fn full(alloc: Global, h: Hierarchy, twins: Twins) -> Result<Opening, OutOfMemory> {
        Opening::full(alloc, h, twins)
    }

    fn invariant(&self) {
        self.invariant();
    }

    fn left(&self) -> u32 {
        self.left()
    }

    fn lower(&mut self) -> Result<(), BadNeighbour> {
        self.lower()
    }
}

// The twins of the leaf mesh.
fn leaf_twins(alloc: Global, h: &Hierarchy) -> Result<Twins, LoadFail>
    ensures twins { IfOk result (IsTableOf (leaf_net h.now) (leaf_count h.now)) }
    ensures fault { IfErr result (IsLoadFault h.now) }
    ensures refused { IfErr result (λ e. e ≢ fails.OutOfMemory → IsValid h.now → ⊥) }
{
    let Ok(mesh) = h.leaf_mesh(alloc) else {
        return Err(LoadFail::OutOfMemory);
    };
    match Twins::of(alloc, &mesh) {
        Ok(twins) => Ok(twins),
        Err(TwinsFail::EdgeTwice(f)) => Err(LoadFail::EdgeTwice(f)),
        Err(TwinsFail::OutOfMemory) => Err(LoadFail::OutOfMemory),
    }
}

// Collapses all records, from the last one down, as far as each is as told.
fn lower_all<D: Descent>(descent: &mut D) -> Result<(), BadNeighbour>
    ensures h { OnOk result ((D.lowered descent.new).h ≡ (D.lowered descent.old).h) }
    ensures left { OnOk result ((D.lowered descent.new).left ≡ 0) }
    ensures fault { IfErr result (λ b. IsLastToFail (D.lowered descent.old).h b.0) }
{
    while descent.left() > 0 {
        descent.invariant();
        descent.lower()?;
    }
    Ok(())
}

/// A hierarchy with all its records collapsed, where it is valid. What goes down is an open type
/// here: a function that drops its tables by their names is slow to prove.
pub(crate) fn descend<D: Descent>(alloc: Global, h: Hierarchy) -> Result<D, LoadFail>
    ensures h { IfOk result (λ d. (D.lowered d).h ≡ h) }
    ensures left { IfOk result (λ d. (D.lowered d).left ≡ 0) }
    ensures valid { OnOk result (IsValid h) }
    ensures fault { IfErr result (IsLoadFault h) }
    ensures refused { IfErr result (λ e. e ≢ fails.OutOfMemory → IsValid h → ⊥) }
{
    let twins = leaf_twins(alloc, &h)?;
    let Ok(mut descent) = D::full(alloc, h, twins) else {
        return Err(LoadFail::OutOfMemory);
    };
    if let Err(BadNeighbour(k)) = lower_all(&mut descent) {
        return Err(LoadFail::BadNeighbour(k));
    }
    descent.invariant();
    Ok(descent)
}
