//! The sides of the faces that a front shows, and which of these faces are free.
ghost use Rattle.std.specs.Prelude.{◌≡◌, ◌<◌, true, IfSome, is_some, length};
ghost use Rattle.pm_base.specs.Sides.{next as next_of, face_of};
ghost use Rattle.pm_base.specs.Counts.{set_of};
ghost use Rattle.pm_forest.specs.Faces.{face_count};
ghost use Rattle.pm_beyond.specs.Walks.{number_of};
ghost use Rattle.pm_strips.specs.Strips.{exit_of as exit_of_in, free_beyond as free_beyond_in};
ghost use Rattle.pm_strips.specs.Strips.{leads_on as leads_on_in, first_side as first_side_in};
ghost use Rattle.pm_strips.specs.Shown.{is_there, beyond_in};

use pm_base::{FaceId, Side};
use pm_front::Front;

/// The side that follows in the same kept face.
#[tactic(auto, using(crate::proofs::SideLaws::few_sides))]
pub(crate) fn next(front: &Front, side: Side) -> Side
    requires { is_there front.now.h (set_of front.now.flags) (face_of side.0) ≡ true }
    ensures value { result.0 ≡ next_of side.0 }
    ensures there { is_there front.now.h (set_of front.now.flags) (face_of result.0) ≡ true }
{
    front.hierarchy().invariant();
    side.next()
}

/// Where a strip leaves the kept face that it entered by a side.
pub(crate) fn exit_of(front: &Front, is_odd: bool, side: Side) -> Side
    requires { is_there front.now.h (set_of front.now.flags) (face_of side.0) ≡ true }
    ensures value { result.0 ≡ exit_of_in is_odd side.0 }
    ensures there { is_there front.now.h (set_of front.now.flags) (face_of result.0) ≡ true }
{
    let second = next(front, side);
    if is_odd { next(front, second) } else { second }
}

// The side that stands beyond a side of a kept face, if one does.
fn beyond(front: &Front, side: Side) -> Option<Side>
    requires { is_there front.now.h (set_of front.now.flags) (face_of side.0) ≡ true }
    ensures value { number_of result ≡ beyond_in front.now.h (set_of front.now.flags) side.0 }
    ensures there { IfSome result (λ g. is_there front.now.h (set_of front.now.flags) (face_of g.0)
        ≡ true) }
{
    front.invariant();
    front.beyond(side)
}

/// The side of a free face that stands beyond a side of a kept face, if one does.
pub(crate) fn free_beyond(free: &[bool], front: &Front, side: Side) -> Option<Side>
    requires len { length free.now ≡ face_count front.now.h }
    requires there { is_there front.now.h (set_of front.now.flags) (face_of side.0) ≡ true }
    ensures value { number_of result
        ≡ free_beyond_in (beyond_in front.now.h (set_of front.now.flags)) (set_of free.now) side.0 }
    ensures there { IfSome result (λ g. is_there front.now.h (set_of front.now.flags) (face_of g.0)
        ≡ true) }
{
    match beyond(front, side) {
        Some(far) if free[far.face().0 as usize] => Some(far),
        _ => None,
    }
}

// Whether a free face stands beyond the side that follows.
fn leads_on(free: &[bool], front: &Front, side: Side) -> bool
    requires len { length free.now ≡ face_count front.now.h }
    requires there { is_there front.now.h (set_of front.now.flags) (face_of side.0) ≡ true }
    ensures { result ≡ leads_on_in (beyond_in front.now.h (set_of front.now.flags))
        (set_of free.now) side.0 }
{
    free_beyond(free, front, next(front, side)).is_some()
}

/// The side with which a strip from a face begins, where the face isn't free any more.
#[tactic(auto, using(crate::proofs::SideLaws::few_faces))]
pub(crate) fn first_side(free: &[bool], front: &Front, face: FaceId) -> Side
    requires len { length free.now ≡ face_count front.now.h }
    requires there { is_there front.now.h (set_of front.now.flags) face.0 ≡ true }
    ensures value { result.0
        ≡ first_side_in (beyond_in front.now.h (set_of front.now.flags)) (set_of free.now) face.0 }
    ensures there { is_there front.now.h (set_of front.now.flags) (face_of result.0) ≡ true }
{
    front.hierarchy().invariant();
    let first = face.side(0);
    let second = face.side(1);
    let third = face.side(2);
    if leads_on(free, front, first) {
        first
    } else if leads_on(free, front, second) {
        second
    } else if leads_on(free, front, third) {
        third
    } else {
        first
    }
}
