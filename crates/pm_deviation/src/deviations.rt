//! The deviations of all nodes.
ghost use Rattle.std.specs.Prelude.{◌≡◌, ◌||◌, ◌==◌, ◌^◌, ◌<◌, ◌≤◌, min, max, if◌then◌else◌, IfOk};
ghost use Rattle.std.specs.Prelude.{length, slice_index_or};
ghost use Rattle.pm_base.specs.Sides.{NoSideTwice};
ghost use Rattle.pm_forest.specs.Forest.{node_count};
ghost use Rattle.pm_beyond.specs.Walks.{leaf_net};
ghost use Rattle.pm_bounds.specs.Bounds.{AreBoundsOf};
ghost use Rattle.pm_deviation.specs.Normals.{cosine_of};
ghost use Rattle.pm_deviation.specs.Lines.{line_spread_of, line_cosine_of};
ghost use Rattle.pm_deviation.specs.Deviations.{tilted, deviation_of, AreDeviationsOf};
ghost use Rattle.pm_deviation.specs.Deviations.{AreDeviationLists};
ghost use Rattle.pm_deviation.specs.Tables.{AreOfNodes, ArePlaneDeviations, AreLineDeviations};
ghost use Rattle.pm_deviation.specs.Tables.{AreHeadings, HaveSpreads};

use crate::OutOfMemory;
use crate::border::border_headings;
use crate::cosines::cosines;
use crate::face_headings::face_headings;
use crate::heading::Heading;
use crate::lines::line_deviations;
use crate::planes::plane_deviations;
use crate::space_spreads::SpaceSpreads;
use pm_base::NodeId;
use pm_bounds::Bounds;
use pm_forest::Hierarchy;
use std::alloc::Global;

// A distance from planes or lines, and their least cosine with an axis.
#[derive(Clone, Copy)]
struct Tilt {
    distance: u64,
    cosine: u32,
}

impl Tilt {
    // The distance measured along the axis.
    fn tilted(self) -> u64
        requires some { 0 < self.cosine }
        requires small { self.distance < 2 ^ 38 }
        ensures { result ≡ tilted self.distance self.cosine }
    {
        (16_384 * self.distance).div_ceil(u64::from(self.cosine))
    }
}

// The deviation of a node with this error, so far from planes and from lines.
fn deviation(error: u64, planes: Tilt, lines: Tilt) -> u64
    requires planes { planes.distance ≤ error }
    requires lines { lines.distance ≤ error }
    requires small { error < 2 ^ 38 }
    ensures value { result ≡ (if planes.cosine == 0 || lines.cosine == 0 then error
        else min error
        (max (tilted planes.distance planes.cosine) (tilted lines.distance lines.cosine))) }
    ensures small { result < 2 ^ 38 }
{
    if planes.cosine == 0 || lines.cosine == 0 {
        error
    } else {
        error.min(planes.tilted().max(lines.tilted()))
    }
}

// How far the place of each node may be from planes or lines, and their cosines.
#[derive(Drop)]
struct Tilts {
    distances: Vec<u64>,
    cosines: Vec<u32>,
}

impl Tilts {
    // Those of a node.
    fn of(&self, node: NodeId) -> Tilt
        requires distances { node.0 < length self.now.distances.items }
        requires cosines { node.0 < length self.now.cosines.items }
        ensures distance { result.distance ≡ slice_index_or self.now.distances.items node.0 0 }
        ensures cosine { result.cosine ≡ slice_index_or self.now.cosines.items node.0 0 }
    {
        let at = node.0 as usize;
        Tilt {
            distance: self.distances[at],
            cosine: self.cosines[at],
        }
    }
}

// Those from the planes of faces.
fn from_planes(alloc: Global, h: &Hierarchy) -> Result<Tilts, OutOfMemory>
    ensures distances { IfOk result (λ t. ArePlaneDeviations h.now t.distances.items) }
    ensures cosines { IfOk result (λ t. AreOfNodes h.now 0 (cosine_of h.now) t.cosines.items) }
{
    let headings = face_headings(alloc, h)?;
    let spreads = SpaceSpreads::of(alloc, h, &headings)?;
    let cosines = cosines(alloc, h, &headings, &spreads)?;
    let distances = plane_deviations(alloc, h, &headings, &spreads)?;
    Ok(Tilts { distances, cosines })
}

// Those from the lines of border sides.
fn from_lines(alloc: Global, h: &Hierarchy, border: &[Heading]) -> Result<Tilts, OutOfMemory>
    requires are { AreHeadings h.now border.now }
    requires spreads { HaveSpreads h.now (line_spread_of h.now) border.now }
    ensures distances { IfOk result (λ t. AreLineDeviations h.now t.distances.items) }
    ensures cosines { IfOk result (λ t. AreOfNodes h.now 0 (line_cosine_of h.now)
        t.cosines.items) }
{
    let spreads = SpaceSpreads::of(alloc, h, border)?;
    let cosines = cosines(alloc, h, border, &spreads)?;
    let distances = line_deviations(alloc, h, &spreads)?;
    Ok(Tilts { distances, cosines })
}

// The deviation of one node.
fn node_deviation(
    h: &Hierarchy,
    bounds: &Bounds,
    planes: &Tilts,
    lines: &Tilts,
    node: NodeId,
) -> u64
    requires node { node.0 < node_count h.now }
    requires bounds { AreBoundsOf h.now bounds.now }
    requires planes { ArePlaneDeviations h.now planes.now.distances.items }
    requires lines { AreLineDeviations h.now lines.now.distances.items }
    requires cosines { AreOfNodes h.now 0 (cosine_of h.now) planes.now.cosines.items }
    requires line_cosines { AreOfNodes h.now 0 (line_cosine_of h.now) lines.now.cosines.items }
    ensures value { result ≡ deviation_of h.now node.0 }
    ensures small { result < 2 ^ 38 }
{
    h.invariant();
    let error = bounds.error(node);
    deviation(error, planes.of(node), lines.of(node))
}

/// The deviation of each node, and whether the leaf mesh has a border.
#[derive(Drop)]
pub(crate) struct Deviations {
    pub(crate) by_node: Vec<u64>,
    pub(crate) has_border: bool,
}

impl Deviations {
    /// Those of a hierarchy.
    pub(crate) fn of(
        alloc: Global,
        h: &Hierarchy,
        bounds: &Bounds,
    ) -> Result<Deviations, OutOfMemory>
        requires bounds { AreBoundsOf h.now bounds.now }
        requires once { NoSideTwice (leaf_net h.now) }
        ensures are { IfOk result (λ ds. AreDeviationsOf h.now (record {
          by_node = ds.by_node.items;
          has_border = ds.has_border;
        })) }
        ensures lists { IfOk result (λ ds. AreDeviationLists (node_count h.now)
            ds.by_node.items) }
    {
        let planes = from_planes(alloc, h)?;
        let border = border_headings(alloc, h)?;
        let lines = from_lines(alloc, h, &border)?;
        let mut by_node = Vec::with_capacity(alloc, h.nodes() as usize)?;
        for node in 0..h.nodes() {
            by_node.push(node_deviation(h, bounds, &planes, &lines, NodeId(node)))?;
        }
        Ok(Deviations {
            by_node,
            has_border: !border.is_empty(),
        })
    }
}
