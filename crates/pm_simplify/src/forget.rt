//! The queue's entries of the edges of a face that was dropped.
ghost use Rattle.std.specs.Prelude.{◌≡◌, ◌+◌, ◌*◌, ◌<◌, length, IfSome};
ghost use Rattle.pm_base.specs.declared.limits.TheConstants.{MOST_FACES};
ghost use Rattle.pm_simplify.specs.Forgetting.{without_key, without_keys_of, forgotten};

use pm_base::{Gone, Side};
use pm_queue::Queue;

// Takes the key of a side's number away, if there is a side.
fn forget_side(queue: &mut Queue, side: Option<Side>)
    requires within { IfSome side (λ s. s.0 < length queue.old) }
    ensures room { length queue.new ≡ length queue.old }
    ensures keys { queue.new ≡ without_key queue.old side }
{
    if let Some(side) = side {
        queue.remove(side.0);
    }
}

// Takes the keys of the numbers of a face's three sides away.
fn forget_face(queue: &mut Queue, face: u32)
    requires small { face < MOST_FACES }
    requires within { 3 * face + 2 < length queue.old }
    ensures room { length queue.new ≡ length queue.old }
    ensures keys { queue.new ≡ without_keys_of queue.old face }
{
    queue.remove(3 * face);
    queue.remove(3 * face + 1);
    queue.remove(3 * face + 2);
}

/// Takes the keys of the edges of a dropped face away, whichever of their sides they were named by.
pub(crate) fn forget(queue: &mut Queue, gone: Option<Gone>)
    requires small { IfSome gone (λ g. g.face.0 < MOST_FACES) }
    requires face { IfSome gone (λ g. 3 * g.face.0 + 2 < length queue.old) }
    requires first { IfSome gone (λ g. IfSome g.first (λ s. s.0 < length queue.old)) }
    requires second { IfSome gone (λ g. IfSome g.second (λ s. s.0 < length queue.old)) }
    ensures room { length queue.new ≡ length queue.old }
    ensures keys { queue.new ≡ forgotten queue.old gone }
{
    if let Some(gone) = gone {
        forget_face(queue, gone.face.0);
        forget_side(queue, gone.first);
        forget_side(queue, gone.second);
    }
}
