//! One collapse, with what is known of each edge kept right.
ghost use Rattle.std.specs.Prelude.{◌≡◌, ◌*◌, ◌++◌, ◌∷◌, [], List, length};
ghost use Rattle.pm_base.specs.declared.log.Collapse.{Collapse as Entry};
ghost use Rattle.pm_base.specs.Meshes.{Mesh};
ghost use Rattle.pm_base.specs.Sides.{side_count};
ghost use Rattle.pm_runs.specs.Steps.{entry_of};
ghost use Rattle.pm_runs.specs.Runs.{surface_after};
ghost use Rattle.pm_policies.specs.Policies.{Policy};
ghost use Rattle.pm_policies.specs.PolicyRuns.{IsCandidateBy, IsPutBy};
ghost use Rattle.pm_shrink.specs.Shrinking.{net_at};
ghost use Rattle.pm_simplify.specs.OnRuns.{IsOnRun};
ghost use Rattle.pm_simplify.specs.Choices.{IsRight};
ghost use Rattle.pm_simplify.specs.KnownBorder.{AreOnBorder};
ghost use Rattle.pm_simplify.specs.AwaitedVertices.{AreAwaited};

use crate::around::renew_around;
use crate::choose::Choice;
use crate::edges::Edges;
use crate::forget::forget;
use crate::free::free_at;
use pm_base::Collapse;
use pm_costs::Costs;
use pm_shrink::Shrink;

/// Collapses a pair that may be collapsed, to where it is put. The pairs that wait for a face at
/// one of its ends come back to the queue, the edges of the dropped faces leave it, and those at
/// the new vertex get new keys.
pub(crate) fn collapse<C: Costs>(
    shrink: &mut Shrink,
    costs: &mut C,
    kept: &[bool],
    edges: &mut Edges,
    pair: Choice,
) -> Collapse
    requires candidate { (p : Policy) × (m : Mesh) × (log : List Entry)
        × IsOnRun shrink.old (C.goes_by costs.old) kept.now p m log
        × IsCandidateBy p m log pair.a pair.b }
    requires place { (p : Policy) (m : Mesh) (log : List Entry)
        → IsOnRun shrink.old (C.goes_by costs.old) kept.now p m log
        → IsPutBy p m log pair.a pair.b pair.place }
    requires room { length edges.old.queue ≡ side_count (net_at shrink.old) }
    requires items { edges.old.waiting.items ≡ side_count (net_at shrink.old) }
    requires heads { 3 * length edges.old.waiting.lists ≡ side_count (net_at shrink.old) }
    requires awaited { AreAwaited (net_at shrink.old) edges.old.waiting edges.old.awaited }
    requires noted { AreOnBorder shrink.old.surface edges.old.border }
    ensures sides { side_count (net_at shrink.new) ≡ side_count (net_at shrink.old) }
    ensures room { length edges.new.queue ≡ length edges.old.queue }
    ensures items { edges.new.waiting.items ≡ edges.old.waiting.items }
    ensures heads { length edges.new.waiting.lists ≡ length edges.old.waiting.lists }
    ensures awaited { AreAwaited (net_at shrink.new) edges.new.waiting edges.new.awaited }
    ensures noted { AreOnBorder shrink.new.surface edges.new.border }
    ensures entry { (p : Policy) (m : Mesh) (log : List Entry)
        → IsOnRun shrink.old (C.goes_by costs.old) kept.now p m log
        → result ≡ entry_of (surface_after m log) pair.a pair.b pair.place }
    ensures goes_on { (p : Policy) (m : Mesh) (log : List Entry)
        → IsOnRun shrink.old (C.goes_by costs.old) kept.now p m log
        → IsOnRun shrink.new (C.goes_by costs.new) kept.now p m (log ++ result ∷ []) }
    ensures right { (p : Policy) (m : Mesh) (log : List Entry)
        → IsOnRun shrink.old (C.goes_by costs.old) kept.now p m log
        → IsRight p m log edges.old.queue edges.old.waiting
        → IsRight p m (log ++ result ∷ []) edges.new.queue edges.new.waiting }
{
    shrink.invariant();
    free_at(shrink, costs, kept, edges, pair.a);
    free_at(shrink, costs, kept, edges, pair.b);
    let entry = shrink.collapse(pair.a, pair.b, pair.place);
    costs.merged(shrink, &entry);
    forget(&mut edges.queue, entry.left);
    forget(&mut edges.queue, entry.right);
    renew_around(
        shrink,
        costs,
        kept,
        &mut edges.queue,
        &mut edges.border,
        entry.s,
    );
    entry
}
