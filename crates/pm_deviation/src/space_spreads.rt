//! What the headings under each node have along the three axes of space.
ghost use Rattle.std.specs.Prelude.{◌≡◌, ◌<◌, ℕ, length, Option, IfOk};
ghost use Rattle.pm_forest.specs.Forest.{Hierarchy, node_count};
ghost use Rattle.pm_deviation.specs.declared.axes.Axis.{Axis};
ghost use Rattle.pm_deviation.specs.declared.spread.Spread.{Spread};
ghost use Rattle.pm_deviation.specs.Normals.{box_by};
ghost use Rattle.pm_deviation.specs.Tables.{AreHeadings, HaveSpreads, AreSpaceSpreads};

use crate::OutOfMemory;
use crate::axes::Axis;
use crate::axis_spreads::axis_spreads;
use crate::heading::Heading;
use crate::spread::{Spread, or_none};
use crate::unit_box::UnitBox;
use pm_base::NodeId;
use pm_forest::Hierarchy;
use std::alloc::Global;

/// The spreads of all nodes along each axis, 36 bytes a node.
#[derive(Drop)]
pub struct SpaceSpreads {
    pub(crate) x: Vec<Option<Spread>>,
    pub(crate) y: Vec<Option<Spread>>,
    pub(crate) z: Vec<Option<Spread>>,
}

impl SpaceSpreads {
    /// Those of headings.
    pub(crate) fn of(
        alloc: Global,
        h: &Hierarchy,
        headings: &[Heading],
    ) -> Result<SpaceSpreads, OutOfMemory>
        requires { AreHeadings h.now headings.now }
        ensures { IfOk result (λ s. (spread : Axis → ℕ → Option Spread)
            → HaveSpreads h.now spread headings.now
            → AreSpaceSpreads h.now spread s.x.items s.y.items s.z.items) }
    {
        let x = axis_spreads(alloc, h, headings, Axis { x: 1, y: 0, z: 0 })?;
        let y = axis_spreads(alloc, h, headings, Axis { x: 0, y: 1, z: 0 })?;
        let z = axis_spreads(alloc, h, headings, Axis { x: 0, y: 0, z: 1 })?;
        Ok(SpaceSpreads { x, y, z })
    }

    /// The box of the headings under a node.
    pub(crate) fn under(&self, node: NodeId) -> UnitBox
        requires x { node.0 < length self.now.x.items }
        requires y { node.0 < length self.now.y.items }
        requires z { node.0 < length self.now.z.items }
        ensures { (h : Hierarchy) (spread : Axis → ℕ → Option Spread)
            → AreSpaceSpreads h spread self.now.x.items self.now.y.items self.now.z.items
            → result ≡ box_by (λ u. spread u node.0) }
    {
        let at = node.0 as usize;
        UnitBox {
            x: or_none(self.x[at]),
            y: or_none(self.y[at]),
            z: or_none(self.z[at]),
        }
    }
}
