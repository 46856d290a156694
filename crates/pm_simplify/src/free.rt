//! Pairs that wait for a face come back to the queue before a corner of the face is merged.
ghost use Rattle.std.specs.Prelude.{◌≡◌, ◌*◌, ◌<◌, ℕ, List, [], length, true};
ghost use Rattle.pm_base.specs.declared.log.Collapse.{Collapse};
ghost use Rattle.pm_base.specs.Meshes.{Mesh};
ghost use Rattle.pm_base.specs.Sides.{face_of, side_count, Stands};
ghost use Rattle.pm_links.specs.Lists.{list_of, without_item, IsHeld};
ghost use Rattle.pm_runs.specs.Surfaces.{is_live as is_live_in};
ghost use Rattle.pm_shrink.specs.Shrinking.{net_at};
ghost use Rattle.pm_policies.specs.Policies.{Policy};
ghost use Rattle.pm_simplify.specs.OnRuns.{IsOnRun, IsOnSomeRun};
ghost use Rattle.pm_simplify.specs.Choices.{IsRight};
ghost use Rattle.pm_simplify.specs.AwaitedVertices.{AreAwaited};

use crate::edges::Edges;
use crate::weigh::weigh;
use pm_base::Side;
use pm_costs::Costs;
use pm_links::Links;
use pm_queue::Queue;
use pm_shrink::Shrink;

// Takes an item out of its list, and gives its edge its key where it still names one.
fn release<C: Costs>(
    shrink: &Shrink,
    costs: &C,
    kept: &[bool],
    queue: &mut Queue,
    waiting: &mut Links,
    item: u32,
)
    requires known { IsOnSomeRun shrink.now (C.goes_by costs.now) kept.now }
    requires within { item < side_count (net_at shrink.now) }
    requires held { IsHeld waiting.old item }
    requires room { length queue.old ≡ side_count (net_at shrink.now) }
    ensures room { length queue.new ≡ length queue.old }
    ensures lists { waiting.new ≡ without_item waiting.old item }
    ensures right { (p : Policy) (m : Mesh) (log : List Collapse)
        → IsOnRun shrink.now (C.goes_by costs.now) kept.now p m log
        → IsRight p m log queue.old waiting.old
        → IsRight p m log queue.new waiting.new }
{
    waiting.unlink(item);
    if shrink.is_there(Side(item)) {
        weigh(shrink, costs, kept, queue, Side(item));
    }
}

// Weighs the pairs that wait for a face, so that none does.
fn free<C: Costs>(
    shrink: &Shrink,
    costs: &C,
    kept: &[bool],
    queue: &mut Queue,
    waiting: &mut Links,
    face: u32,
)
    requires known { IsOnSomeRun shrink.now (C.goes_by costs.now) kept.now }
    requires face_in { face < length waiting.old.lists }
    requires room { length queue.old ≡ side_count (net_at shrink.now) }
    requires items { waiting.old.items ≡ side_count (net_at shrink.now) }
    ensures room { length queue.new ≡ length queue.old }
    ensures items { waiting.new.items ≡ waiting.old.items }
    ensures heads { length waiting.new.lists ≡ length waiting.old.lists }
    ensures empty { list_of waiting.new face ≡ [] }
    ensures others { (f : ℕ) → list_of waiting.old f ≡ [] → list_of waiting.new f ≡ [] }
    ensures right { (p : Policy) (m : Mesh) (log : List Collapse)
        → IsOnRun shrink.now (C.goes_by costs.now) kept.now p m log
        → IsRight p m log queue.old waiting.old
        → IsRight p m log queue.new waiting.new }
{
    while let Some(item) = waiting.first(face) {
        release(shrink, costs, kept, queue, waiting, item);
    }
}

// Weighs the pairs that wait for a face at a live vertex, so that none does.
fn free_around<C: Costs>(
    shrink: &Shrink,
    costs: &C,
    kept: &[bool],
    queue: &mut Queue,
    waiting: &mut Links,
    v: u32,
)
    requires known { IsOnSomeRun shrink.now (C.goes_by costs.now) kept.now }
    requires live { is_live_in shrink.now.surface v ≡ true }
    requires room { length queue.old ≡ side_count (net_at shrink.now) }
    requires items { waiting.old.items ≡ side_count (net_at shrink.now) }
    requires heads { 3 * length waiting.old.lists ≡ side_count (net_at shrink.now) }
    ensures room { length queue.new ≡ length queue.old }
    ensures items { waiting.new.items ≡ waiting.old.items }
    ensures heads { length waiting.new.lists ≡ length waiting.old.lists }
    ensures empty { (e : ℕ) → Stands (net_at shrink.now) e → (net_at shrink.now).from e ≡ v
        → list_of waiting.new (face_of e) ≡ [] }
    ensures others { (f : ℕ) → list_of waiting.old f ≡ [] → list_of waiting.new f ≡ [] }
    ensures right { (p : Policy) (m : Mesh) (log : List Collapse)
        → IsOnRun shrink.now (C.goes_by costs.now) kept.now p m log
        → IsRight p m log queue.old waiting.old
        → IsRight p m log queue.new waiting.new }
{
    shrink.invariant();
    let mut at = shrink.first_corner(v);
    while let Some(corner) = at {
        free(shrink, costs, kept, queue, waiting, corner.face().0);
        at = shrink.next_corner(corner);
    }
}

/// The same. A vertex that isn't flagged has no such face, and takes O(1).
pub(crate) fn free_at<C: Costs>(
    shrink: &Shrink,
    costs: &C,
    kept: &[bool],
    edges: &mut Edges,
    v: u32,
)
    requires known { IsOnSomeRun shrink.now (C.goes_by costs.now) kept.now }
    requires live { is_live_in shrink.now.surface v ≡ true }
    requires room { length edges.old.queue ≡ side_count (net_at shrink.now) }
    requires items { edges.old.waiting.items ≡ side_count (net_at shrink.now) }
    requires heads { 3 * length edges.old.waiting.lists ≡ side_count (net_at shrink.now) }
    requires awaited { AreAwaited (net_at shrink.now) edges.old.waiting edges.old.awaited }
    ensures room { length edges.new.queue ≡ length edges.old.queue }
    ensures items { edges.new.waiting.items ≡ edges.old.waiting.items }
    ensures heads { length edges.new.waiting.lists ≡ length edges.old.waiting.lists }
    ensures awaited { AreAwaited (net_at shrink.now) edges.new.waiting edges.new.awaited }
    ensures border { edges.new.border ≡ edges.old.border }
    ensures empty { (e : ℕ) → Stands (net_at shrink.now) e → (net_at shrink.now).from e ≡ v
        → list_of edges.new.waiting (face_of e) ≡ [] }
    ensures others { (f : ℕ) → list_of edges.old.waiting f ≡ []
        → list_of edges.new.waiting f ≡ [] }
    ensures right { (p : Policy) (m : Mesh) (log : List Collapse)
        → IsOnRun shrink.now (C.goes_by costs.now) kept.now p m log
        → IsRight p m log edges.old.queue edges.old.waiting
        → IsRight p m log edges.new.queue edges.new.waiting }
{
    if edges.awaited.has(v) {
        free_around(shrink, costs, kept, &mut edges.queue, &mut edges.waiting, v);
    }
}
