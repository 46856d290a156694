//! What is known of the edges between two collapses.
ghost use Rattle.std.specs.Prelude.{◌≡◌, ◌*◌, ◌<◌, ◌≤◌, ℕ, List, length, IfOk};
ghost use Rattle.pm_base.specs.declared.limits.TheConstants.{MOST_FACES, MOST_VERTICES};
ghost use Rattle.pm_base.specs.declared.log.Collapse.{Collapse};
ghost use Rattle.pm_base.specs.Meshes.{Mesh};
ghost use Rattle.pm_base.specs.Sides.{side_count, Stands};
ghost use Rattle.pm_policies.specs.Policies.{Policy};
ghost use Rattle.pm_shrink.specs.Shrinking.{net_at};
ghost use Rattle.pm_simplify.specs.OnRuns.{IsOnRun, IsOnSomeRun};
ghost use Rattle.pm_simplify.specs.Choices.{IsRight};
ghost use Rattle.pm_simplify.specs.KnownBorder.{AreOnBorder};
ghost use Rattle.pm_simplify.specs.AwaitedVertices.{AreAwaited};

use crate::awaited::AwaitedVertices;
use crate::border::KnownBorder;
use crate::run::OutOfMemory;
use crate::weigh::filled;
use pm_costs::Costs;
use pm_links::Links;
use pm_queue::Queue;
use pm_shrink::Shrink;
use std::alloc::Global;

/// The keys of the edges that have one, those that wait for a face, the vertices of such faces, and
/// the vertices that are known to be on the border.
#[derive(Drop)]
pub(crate) struct Edges {
    pub(crate) queue: Queue,
    pub(crate) waiting: Links,
    pub(crate) awaited: AwaitedVertices,
    pub(crate) border: KnownBorder,
}

impl Edges {
    /// Before the first collapse each edge has its key, but for those whose pairs are left out. All
    /// memory is taken here.
    pub(crate) fn of<C: Costs>(
        alloc: Global,
        shrink: &Shrink,
        costs: &C,
        kept: &[bool],
        faces: u32,
        vertices: usize,
    ) -> Result<Edges, OutOfMemory>
        requires known { IsOnSomeRun shrink.now (C.goes_by costs.now) kept.now }
        requires few { faces ≤ MOST_FACES }
        requires all { 3 * faces ≡ side_count (net_at shrink.now) }
        requires stand { (e : ℕ) → e < 3 * faces → Stands (net_at shrink.now) e }
        requires vertices { vertices ≤ MOST_VERTICES }
        ensures room { IfOk result (λ edges. length edges.queue ≡ side_count (net_at shrink.now)) }
        ensures items { IfOk result (λ edges. edges.waiting.items
            ≡ side_count (net_at shrink.now)) }
        ensures heads { IfOk result (λ edges. 3 * length edges.waiting.lists
            ≡ side_count (net_at shrink.now)) }
        ensures awaited { IfOk result (λ edges.
            AreAwaited (net_at shrink.now) edges.waiting edges.awaited) }
        ensures noted { IfOk result (λ edges. AreOnBorder shrink.now.surface edges.border) }
        ensures right { IfOk result (λ edges. (p : Policy) (m : Mesh) (log : List Collapse)
            → IsOnRun shrink.now (C.goes_by costs.now) kept.now p m log
            → IsRight p m log edges.queue edges.waiting) }
    {
        let sides = 3 * faces;
        let queue = filled(alloc, shrink, costs, kept, sides)?;
        let waiting = Links::new(alloc, sides, faces)?;
        // A collapse makes a vertex, so the numbers go up to twice the vertices.
        let awaited = AwaitedVertices::new(alloc, 2 * vertices)?;
        let border = KnownBorder::new(alloc, 2 * vertices)?;
        Ok(Edges {
            queue,
            waiting,
            awaited,
            border,
        })
    }
}
