//! Whether a hierarchy is valid is found out from what stands beyond its sides alone.
ghost use Rattle.std.specs.Prelude.{◌≡◌, ◌≢◌, IfOk, IfErr, OnOk};
ghost use Rattle.pm_beyond.specs.Valid.{IsValid};
ghost use Rattle.pm_load.specs.declared.open.LoadFail.TheVariants as fails;
ghost use Rattle.pm_load.specs.Faults.{IsLoadFault};

use crate::descent::descend;
use crate::open::LoadFail;
use pm_forest::Hierarchy;
use pm_sides::Lowering;
use std::alloc::Global;

/// A hierarchy back, where it is valid. It takes memory for the leaf mesh, its twins and the tables
/// of a lowering, and opens no front. Linear in the size of the hierarchy.
pub fn validate(alloc: Global, h: Hierarchy) -> Result<Hierarchy, LoadFail>
    ensures h { IfOk result (λ valid. valid ≡ h) }
    ensures valid { OnOk result (IsValid h) }
    ensures fault { IfErr result (IsLoadFault h) }
    ensures refused { IfErr result (λ e. e ≢ fails.OutOfMemory → IsValid h → ⊥) }
{
    match descend::<Lowering>(alloc, h) {
        Ok(lowering) => Ok(lowering.into_hierarchy()),
        Err(fail) => Err(fail),
    }
}
