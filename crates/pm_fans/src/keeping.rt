//! Faces that became edges go, and so do those that stand twice. The corners of the faces that stay
//! are kept in a set, each three as one number.
ghost use Rattle.std.specs.Prelude.{◌≡◌, [], ◌∷◌, IfOk, OnOk};
ghost use Rattle.pm_fans.specs.Kept.{is_flat as is_flat_of, kept_after, kept_of};
ghost use Rattle.pm_fans.specs.Keys.{corners_key_of, HasShortCorners, HoldsKeys};

use crate::OutOfMemory;
use pm_base::Corners;
use std::alloc::Global;
use std::collections::BTreeSet;

// A key has 32 bits a corner.
const SHIFT: u128 = 1 << 32;

/// Of a list of faces those that stay, in order: each that has three different corners, unless an
/// earlier face that stays has the same ones, in either turn. O(F log F) for F faces.
#[tactic(auto, using(crate::proofs::KeySets::no_keys, crate::proofs::KeySets::none_yet, crate::proofs::KeySets::one_more, crate::proofs::KeySets::all_done))]
pub fn kept(alloc: Global, faces: &[Corners]) -> Result<Vec<Corners>, OutOfMemory>
    ensures { IfOk result (λ stay. stay.items ≡ kept_of faces.now) }
{
    let mut keys = BTreeSet::new(alloc);
    let mut stay = Vec::new(alloc);
    for at in 0..faces.len() {
        keep(&mut stay, &mut keys, faces[at])?;
    }
    Ok(stay)
}

// Keeps one more face, unless it goes. The set has the keys of the faces that stayed before it.
#[tactic(auto, using(crate::proofs::KeySets::old_holds))]
fn keep(
    stay: &mut Vec<Corners>,
    keys: &mut BTreeSet<u128>,
    face: Corners,
) -> Result<(), OutOfMemory>
    requires holds { HoldsKeys stay.old.items keys.old }
    ensures stay { OnOk result (stay.new.items ≡ kept_after stay.old.items (face ∷ [])) }
    ensures holds { OnOk result (HoldsKeys stay.new.items keys.new) }
{
    if is_flat(face) {
        return Ok(());
    }
    if !keys.insert(key(face))? {
        return Ok(());
    }
    stay.push(face)?;
    Ok(())
}

/// Whether two corners are one: the face became an edge, or a point.
pub fn is_flat(face: Corners) -> bool
    ensures { result ≡ is_flat_of face }
{
    face.a == face.b || face.b == face.c || face.c == face.a
}

// The corners in ascending order, as one number.
#[tactic(auto, unfolding(crate::specs::Keys::corners_key_of))]
fn key(face: Corners) -> u128
    ensures key { result ≡ corners_key_of face }
    ensures short { HasShortCorners face }
{
    let least = face.a.min(face.b).min(face.c);
    let greatest = face.a.max(face.b).max(face.c);
    let sum = u64::from(face.a) + u64::from(face.b) + u64::from(face.c);
    let middle = sum - u64::from(least) - u64::from(greatest);
    (u128::from(least) * SHIFT + u128::from(middle)) * SHIFT + u128::from(greatest)
}
