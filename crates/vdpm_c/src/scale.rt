//! The exported function that tells how the positions of a prepared text lead back to coordinates.
ghost use Rattle.std.specs.Prelude.{◌≡◌, ◌≢◌};
ghost use Rattle.pm_making.specs.Making.{MadeText};
ghost use Rattle.vdpm_c.specs.Making.{IsWhole, HasMade};
ghost use Rattle.vdpm_c.specs.Scales.{decimal_told, no_scale, scale_told, scale_of};

use crate::holding::{put_made, take_made};
use crate::statuses::{DONE, NOT_SO};
use crate::tables::{DecimalTold, MadeHandle, ScaleTold};
use obj_fit::{Decimal, Scale};
use std::alloc::Global;

// A number, as C takes it.
fn decimal_told(n: Decimal) -> DecimalTold
    ensures { result ≡ decimal_told n }
{
    DecimalTold {
        whole: n.whole,
        part: n.part,
        negative: if n.negative { 1 } else { 0 },
    }
}

// A scale, as C takes it.
fn scale_of(scale: Scale) -> ScaleTold
    ensures { result ≡ scale_of scale }
{
    ScaleTold {
        extent: decimal_told(scale.extent),
        x: decimal_told(scale.x),
        y: decimal_told(scale.y),
        z: decimal_told(scale.z),
        steps: scale.steps,
    }
}

// The scale where positions are the coordinates.
fn no_scale() -> ScaleTold
    ensures { result ≡ no_scale }
{
    let zero = DecimalTold {
        whole: 0,
        part: 0,
        negative: 0,
    };
    ScaleTold {
        extent: zero,
        x: zero,
        y: zero,
        z: zero,
        steps: 0,
    }
}

fn scale_told(scale: Option<Scale>) -> ScaleTold
    ensures { result ≡ scale_told scale }
{
    match scale {
        Some(scale) => scale_of(scale),
        None => no_scale(),
    }
}

/// Tells how the positions of what was made lead back to coordinates.
#[unsafe(no_mangle)]
pub extern "C" fn vdpm_made_scale(
    alloc: Global,
    handle: &mut MadeHandle,
    scale: &mut ScaleTold,
) -> u32
    requires { IsWhole handle.old }
    ensures told { (m : MadeText) → HasMade handle.old m
        → (result ≡ 0) × (scale.new ≡ scale_told m.scale) × HasMade handle.new m }
    ensures not_so { handle.old.open ≢ 1 → (result ≡ 6) × (handle.new ≡ handle.old)
        × (scale.new ≡ scale.old) }
{
    if handle.open != 1 {
        return NOT_SO;
    }
    let it = take_made(alloc, handle);
    *scale = scale_told(it.scale());
    put_made(handle, it);
    DONE
}
