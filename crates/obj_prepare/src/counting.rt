//! Counting what was done.
ghost use Rattle.std.specs.Prelude.{◌≡◌, ◌≤◌, ◌&&◌, not, length};
ghost use Rattle.std.specs.List.{filter};
ghost use Rattle.pm_base.specs.declared.limits.TheConstants.{MOST_FACES, MOST_VERTICES};
ghost use Rattle.pm_fans.specs.Kept.{is_flat as is_flat_of};
ghost use Rattle.obj_prepare.specs.Pieces.{set_below, joined_below, gone_below};

use pm_base::Corners;
use pm_fans::is_flat;

/// How many of the flags are set.
#[tactic(auto, using(crate::proofs::CountLaws::none_set, crate::proofs::CountLaws::set_next, crate::proofs::CountLaws::unset_next))]
pub(crate) fn count_set(flags: &[bool]) -> u32
    requires { length flags.now ≤ MOST_VERTICES }
    ensures { result ≡ set_below flags.now (length flags.now) }
{
    let mut n = 0;
    for v in 0..flags.len() {
        if flags[v] {
            n += 1;
        }
    }
    n
}

/// How many vertices whose flag is set have another one that stands for them.
#[tactic(auto, using(crate::proofs::CountLaws::none_joined, crate::proofs::CountLaws::joined_next, crate::proofs::CountLaws::unnamed_next, crate::proofs::CountLaws::itself_next))]
pub(crate) fn count_joined(flags: &[bool], names: &[u32]) -> u32
    requires few { length names.now ≤ MOST_VERTICES }
    requires both { length flags.now ≡ length names.now }
    ensures { result ≡ joined_below flags.now names.now (length names.now) }
{
    let mut n = 0;
    for v in 0..names.len() {
        if flags[v] && names[v] as usize != v {
            n += 1;
        }
    }
    n
}

// Whether a vertex that was named and stands for itself isn't named any more.
fn is_gone(before: bool, itself: bool, after: bool) -> bool
    ensures { result ≡ (before && itself && not after) }
{
    before && itself && !after
}

/// How many vertices whose flag was set and that stand for themselves have none after.
#[tactic(auto, using(crate::proofs::CountLaws::none_gone, crate::proofs::CountLaws::gone_next, crate::proofs::CountLaws::there_next))]
pub(crate) fn count_gone(before: &[bool], names: &[u32], after: &[bool]) -> u32
    requires few { length names.now ≤ MOST_VERTICES }
    requires both { length before.now ≡ length names.now }
    requires as_many { length after.now ≡ length names.now }
    ensures { result ≡ gone_below before.now names.now after.now (length names.now) }
{
    let mut n = 0;
    for v in 0..names.len() {
        if is_gone(before[v], names[v] as usize == v, after[v]) {
            n += 1;
        }
    }
    n
}

/// How many faces became edges.
pub(crate) fn count_flat(faces: &[Corners]) -> u32
    requires { length faces.now ≤ MOST_FACES }
    ensures { result ≡ length (filter is_flat_of faces.now) }
{
    let mut n = 0;
    for face in faces {
        if is_flat(*face) {
            n += 1;
        }
    }
    n
}
