//! The fits of all nodes.
ghost use Rattle.std.specs.Prelude.{◌≡◌, ◌<◌, None, List, ℤ, length, map, IfOk, OnOk};
ghost use Rattle.std.specs.Prelude.{IfErr};
ghost use Rattle.std.specs.List.{range_with_len};
ghost use Rattle.pm_forest.specs.Forest.{leaf_count, node_count};
ghost use Rattle.pm_fit.specs.Fit.{AreMoments};
ghost use Rattle.pm_fits.specs.Faults.{IsRefusal, number_fault};
ghost use Rattle.pm_fits.specs.Fits.{AreNumbers, moments_of, range_under, fit_under, fit_at};
ghost use Rattle.pm_fits.specs.Sums.{ArePlaceTotals, AreNumberTotals, AreTotals};

use crate::OutOfMemory;
use crate::faults::{FitFault, number_fault};
use crate::numbers::numbers_by_leaf;
use crate::places::{place_totals, places_under, spot};
use crate::ranges::{Range, ranges};
use crate::weights::{number_totals, numbers_under};
use pm_base::{Items, NodeId};
use pm_fit::{Moments, NumberSums, PlaceSums, fit};
use pm_forest::Hierarchy;
use std::alloc::Global;

// The sums over the leaves under a node, by totals.
fn moments(h: &Hierarchy, places: &[PlaceSums], numbers: &[NumberSums], node: NodeId) -> Moments
    requires node { node.0 < node_count h.now }
    requires places { ArePlaceTotals h.now places.now }
    requires numbers { AreTotals h.now numbers.now }
    ensures value { (ns : List ℤ) → AreNumberTotals h.now ns numbers.now
        → result ≡ moments_of h.now ns node.0 }
    ensures small { AreMoments result }
{
    h.invariant();
    let (from, until) = h.interval(node);
    Moments {
        count: until - from,
        places: places_under(h, places, node),
        numbers: numbers_under(h, numbers, node),
    }
}

// The fit of a node, by totals and the range of its leaves' numbers.
fn node_fit(
    h: &Hierarchy,
    places: &[PlaceSums],
    numbers: &[NumberSums],
    range: &Range,
    node: NodeId,
) -> i32
    requires node { node.0 < node_count h.now }
    requires places { ArePlaceTotals h.now places.now }
    requires numbers { AreTotals h.now numbers.now }
    ensures { (ns : List ℤ) → AreNumberTotals h.now ns numbers.now
        → range.now ≡ range_under h.now ns node.0 → result ≡ fit_under h.now ns node.0 }
{
    let moments = moments(h, places, numbers, node);
    range.brought_within(fit(&moments, &spot(h, node)) - 2_097_152)
}

/// The fits of all nodes, by the totals of places.
pub(crate) fn fits_by(
    alloc: Global,
    h: &Hierarchy,
    places: &[PlaceSums],
    values: &[i32],
) -> Result<Items<i32>, OutOfMemory>
    requires places { ArePlaceTotals h.now places.now }
    requires len { length values.now ≡ leaf_count h.now }
    requires small { AreNumbers values.now }
    ensures { IfOk result (λ fits. fits.items
        ≡ map (fit_at h.now values.now) (range_with_len 0 (node_count h.now))) }
{
    h.invariant();
    let numbers = numbers_by_leaf(alloc, h, values)?;
    let totals = number_totals(alloc, h, numbers.as_slice())?;
    let ranges = ranges(alloc, h, numbers.as_slice())?;
    let mut fits = Items::new(alloc);
    fits.reserve(h.nodes() as usize)?;
    for node in 0..h.nodes() {
        let range = &ranges[node as usize];
        let fit = node_fit(h, places, totals.as_slice(), range, NodeId(node));
        fits.push_within_room(fit);
    }
    Ok(fits)
}

/// What each node has, by number, of a number that goes with places, as one of the two of a place
/// in a texture: `values` has one for each vertex of the input, in their order, of at most
/// `GREATEST_NUMBER` in absolute value. It takes time and memory linear in the nodes.
pub fn fits_of(alloc: Global, h: &Hierarchy, values: &[i32]) -> Result<Items<i32>, FitFault>
    ensures fits { IfOk result (λ fits. fits.items
        ≡ map (fit_at h.now values.now) (range_with_len 0 (node_count h.now))) }
    ensures taken { OnOk result (number_fault (leaf_count h.now) values.now ≡ None) }
    ensures refused { IfErr result (λ e. IsRefusal (number_fault (leaf_count h.now) values.now) e) }
{
    if let Some(fault) = number_fault(h.leaves() as usize, values) {
        return Err(fault);
    }
    match place_totals(alloc, h) {
        Ok(places) => match fits_by(alloc, h, places.as_slice(), values) {
            Ok(fits) => Ok(fits),
            Err(_) => Err(FitFault::OutOfMemory),
        },
        Err(_) => Err(FitFault::OutOfMemory),
    }
}
