//! Sums over the numbers of the leaves under a node, weighed by places.
ghost use Rattle.std.specs.Prelude.{◌≡◌, ◌+◌, ◌≤◌, ◌<◌, ◌*◌, ◌^◌, List, ℤ, unsigned_abs, IfOk};
ghost use Rattle.std.specs.Prelude.{length};
ghost use Rattle.pm_forest.specs.Forest.{leaf_count, node_count};
ghost use Rattle.pm_fit.specs.Fit.{IsSpot};
ghost use Rattle.pm_fits.specs.declared.numbers.TheConstants.{GREATEST_NUMBER};
ghost use Rattle.pm_fits.specs.Fits.{AreNumbers, lifted, number_terms, numbers_under};
ghost use Rattle.pm_fits.specs.Sums.{plus_numbers, less_numbers, AreNumbersWithin};
ghost use Rattle.pm_fits.specs.Sums.{AreNumbersUpTo, AreNumberTotals, AreTotals};

use crate::OutOfMemory;
use crate::numbers::GREATEST_NUMBER;
use crate::places::spot;
use pm_base::{Items, NodeId};
use pm_fit::{NumberSums, Spot};
use pm_forest::Hierarchy;
use std::alloc::Global;

// A number with 2^21 added.
fn lifted(n: i32) -> u32
    requires { unsigned_abs n ≤ GREATEST_NUMBER }
    ensures value { result ≡ lifted n }
    ensures small { result ≤ 2 ^ 22 }
{
    (n + 2_097_152).unsigned_abs()
}

// The product of a number and a coordinate.
fn product(w: u32, c: u32) -> u64
    requires w { w ≤ 2 ^ 22 }
    requires c { c ≤ 65534 }
    ensures value { result ≡ w * c }
    ensures small { result ≤ 2 ^ 38 }
{
    u64::from(w) * u64::from(c)
}

// The terms of a place that has the number w.
#[tactic(auto, unfolding(crate::specs::Fits::number_terms))]
fn number_terms(p: &Spot, w: u32) -> NumberSums
    requires place { IsSpot p.now }
    requires number { w ≤ 2 ^ 22 }
    ensures value { result ≡ number_terms p.now w }
    ensures small { AreNumbersWithin (2 ^ 38) result }
{
    NumberSums {
        w: u64::from(w),
        wx: product(w, p.x),
        wy: product(w, p.y),
        wz: product(w, p.z),
    }
}

fn plus(a: &NumberSums, b: &NumberSums) -> NumberSums
    requires a { AreNumbersWithin (2 ^ 38) a.now }
    requires b { AreNumbersWithin (2 ^ 60) b.now }
    ensures { result ≡ plus_numbers a.now b.now }
{
    NumberSums {
        w: a.w + b.w,
        wx: a.wx + b.wx,
        wy: a.wy + b.wy,
        wz: a.wz + b.wz,
    }
}

fn less(a: &NumberSums, b: &NumberSums) -> NumberSums
    requires { AreNumbersUpTo a.now b.now }
    ensures { result ≡ less_numbers a.now b.now }
{
    NumberSums {
        w: a.w - b.w,
        wx: a.wx - b.wx,
        wy: a.wy - b.wy,
        wz: a.wz - b.wz,
    }
}

const NOTHING: NumberSums = NumberSums {
    w: 0,
    wx: 0,
    wy: 0,
    wz: 0,
};

/// The sums over the leaves before each leaf, and over all, where `numbers` has what each leaf has.
pub(crate) fn number_totals(
    alloc: Global,
    h: &Hierarchy,
    numbers: &[i32],
) -> Result<Items<NumberSums>, OutOfMemory>
    requires len { length numbers.now ≡ leaf_count h.now }
    requires small { AreNumbers numbers.now }
    ensures { IfOk result (λ totals. AreNumberTotals h.now numbers.now totals.items) }
{
    h.invariant();
    let mut totals = Items::new(alloc);
    totals.reserve(h.leaves() as usize + 1)?;
    let mut total = NOTHING;
    totals.push_within_room(total);
    for leaf in 0..h.leaves() {
        let place = spot(h, h.leaf_node(leaf));
        total = plus(
            &number_terms(&place, lifted(numbers[leaf as usize])),
            &total,
        );
        totals.push_within_room(total);
    }
    Ok(totals)
}

/// The sums over the leaves under a node, by these totals.
pub(crate) fn numbers_under(h: &Hierarchy, totals: &[NumberSums], node: NodeId) -> NumberSums
    requires node { node.0 < node_count h.now }
    requires totals { AreTotals h.now totals.now }
    ensures { (numbers : List ℤ) → AreNumberTotals h.now numbers totals.now
        → result ≡ numbers_under h.now numbers node.0 }
{
    h.invariant();
    let (from, until) = h.interval(node);
    less(&totals[until as usize], &totals[from as usize])
}
