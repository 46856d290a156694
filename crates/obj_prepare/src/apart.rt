//! Places that are all different.
ghost use Rattle.std.specs.Prelude.{◌≡◌, true, map, IfOk};
ghost use Rattle.std.specs.List.Sorted.{IsStrictlyIncreasing};
ghost use Rattle.obj_prepare.specs.Firsts.{place_key as place_key_of};
ghost use Rattle.obj_prepare.specs.Nothing.{AreApart};

use crate::OutOfMemory;
use crate::joining::place_key;
use pm_base::Point;
use std::alloc::Global;

// The places as numbers.
fn keys_of(alloc: Global, places: &[Point]) -> Result<Vec<u64>, OutOfMemory>
    ensures { IfOk result (λ keys. keys.items ≡ map place_key_of places.now) }
{
    let mut keys = Vec::with_capacity(alloc, places.len())?;
    for place in places {
        keys.push(place_key(place))?;
    }
    Ok(keys)
}

// Whether each number is above the one before it.
#[tactic(auto, using(crate::proofs::FittingLaws::rises_more))]
fn are_rising(keys: &[u64]) -> bool
    ensures { result ≡ true → IsStrictlyIncreasing keys.now }
{
    for at in 1..keys.len() {
        if keys[at] <= keys[at - 1] {
            return false;
        }
    }
    true
}

/// Whether no two places are the same, as their order shows. O(V log V) for V places.
#[tactic(auto, using(crate::proofs::FittingLaws::keys_apart))]
pub(crate) fn are_apart(alloc: Global, places: &[Point]) -> Result<bool, OutOfMemory>
    ensures { IfOk result (λ apart. apart ≡ true → AreApart places.now) }
{
    let mut keys = keys_of(alloc, places)?;
    keys.sort_unstable();
    Ok(are_rising(&keys))
}
