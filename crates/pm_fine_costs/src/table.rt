//! The costs of the fine policy: two quadrics for each live vertex.
ghost use Rattle.std.specs.Prelude.{◌<◌, ℕ, Bool, [], IfOk};
ghost use Rattle.pm_fine_costs.specs.FinePolicy.{fine_keeping};
ghost use Rattle.pm_fine_costs.specs.FineCosts.{GoesByFine};

use crate::first::first_quadrics;
use crate::pair::BothQuadrics;
use crate::round::taken_at;
use crate::volume::volume_place;
use pm_base::{Collapse, Point};
use pm_costs::Costs;
use pm_fine::best_fine_place;
use pm_shrink::Shrink;
use pm_slots::SlotTable;
use pm_twins::Surface;
use std::alloc::{AllocError, Global};
use std::marker::Model;

/// The answer for want of memory.
pub type OutOfMemory = AllocError;

/// What each live vertex was brought, and that with what it has taken, as two quadrics. Contracts
/// see the slots of the vertices, and the quadrics in each slot.
#[derive(Drop)]
pub struct FineTable {
    vertices: SlotTable<BothQuadrics>,
}

impl Model for FineTable {
    ghost use Rattle.pm_slots.specs.Slots.{Slotted};
    ghost use Rattle.pm_fine_costs.specs.declared.pair.BothQuadrics.{BothQuadrics};

    ghost Value = { Slotted BothQuadrics };

    ghost view = { λ t. t.vertices };
}

impl FineTable {
    /// The quadrics of a surface before the first collapse. The only call that takes memory, some
    /// 360 bytes a point. O(V + F) for V points and F faces.
    pub fn new(alloc: Global, surface: &Surface) -> Result<FineTable, OutOfMemory>
        ensures { IfOk result (λ t. (kept : ℕ → Bool)
            → GoesByFine t (fine_keeping kept) surface.now []) }
    {
        surface.invariant();
        let quadrics = first_quadrics(alloc, surface)?;
        let room = 2 * quadrics.len();
        let vertices = SlotTable::new(alloc, quadrics, room)?;
        Ok(FineTable { vertices })
    }
}

impl Costs for FineTable {
    ghost goes_by = { GoesByFine };

    fn best(&self, shrink: &Shrink, a: u32, b: u32) -> (Point, u128) {
        let first = self.vertices.get(a);
        let both = first.all.plus(&self.vertices.get(b).all);
        best_fine_place(&both, shrink.place(a), shrink.place(b))
    }

    /// In O(d) for d faces round the pair.
    fn put(&self, shrink: &Shrink, a: u32, b: u32, place: Point) -> Point {
        volume_place(shrink, a, b, place)
    }

    /// In O(d) for d faces round the new vertex.
    fn merged(&mut self, shrink: &Shrink, entry: &Collapse) {
        let first = self.vertices.get(entry.t);
        let brought = first.brought.plus(&self.vertices.get(entry.u).brought);
        let taken = taken_at(shrink, entry.s);
        let all = taken.plus(&brought);
        self.vertices
            .put(entry.t, entry.s, BothQuadrics { brought, all });
    }
}
