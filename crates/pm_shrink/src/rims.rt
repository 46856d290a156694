//! Border sides by the vertex that they run from.
ghost use Rattle.std.specs.Prelude.{◌<◌};
ghost use Rattle.pm_base.specs.declared.limits.TheConstants.{MOST_SIDES};

use crate::shrink::OutOfMemory;
use pm_base::{OptionalSide, Side};
use std::alloc::Global;

/// For each vertex a side that ran from it with nothing across it when it was last noted, if one
/// was.
#[derive(Drop)]
pub(crate) struct RimTable {
    sides: Vec<OptionalSide>,
}

impl RimTable {
    /// No side for each of so many vertices. The only call that takes memory.
    pub(crate) fn new(alloc: Global, vertices: usize) -> Result<RimTable, OutOfMemory> {
        let sides = vec![in alloc; OptionalSide::of(None); vertices]?;
        Ok(RimTable { sides })
    }

    /// The side that was last noted for a vertex, if one was.
    pub(crate) fn get(&self, vertex: u32) -> Option<Side> {
        self.sides.get(vertex as usize)?.side()
    }

    /// Notes a side for the vertex that it runs from.
    pub(crate) fn note(&mut self, vertex: u32, side: Side)
        requires { side.0 < MOST_SIDES }
    {
        if (vertex as usize) < self.sides.len() {
            self.sides[vertex as usize] = OptionalSide::of(Some(side));
        }
    }
}
