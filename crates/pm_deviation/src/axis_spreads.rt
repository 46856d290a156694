//! What the headings under each node have along one axis: they are gone through for the leaves, and
//! then the records from the last to the first.
ghost use Rattle.std.specs.Prelude.{◌≡◌, ℕ, ◌<◌, ◌≤◌, cond, true, Option, None, IfOk, IfSome};
ghost use Rattle.std.specs.Prelude.{replicate, length, slice_index_or, slice_set, unsigned_abs};
ghost use Rattle.pm_forest.specs.Forest.{node_count, leaf_count, record_count, t_of, u_of};
ghost use Rattle.pm_forest.specs.Tables.{leaf_node_of};
ghost use Rattle.pm_bounds.specs.Leaves.{is_leaf_corner};
ghost use Rattle.pm_deviation.specs.declared.axes.Axis.{Axis};
ghost use Rattle.pm_deviation.specs.declared.spread.Spread.{Spread};
ghost use Rattle.pm_deviation.specs.Spreads.{along, join};
ghost use Rattle.pm_deviation.specs.Normals.{direction_of};
ghost use Rattle.pm_deviation.specs.Tables.{IsUnitBox, IsHeading, is_axis, AreHeadings, AreOwn};
ghost use Rattle.pm_deviation.specs.Tables.{AreOfNodes, AreJoined, HaveSpreads, leaves_of};
ghost use Rattle.pm_deviation.specs.Tables.{heading_along, spread_among};

use crate::OutOfMemory;
use crate::axes::Axis;
use crate::heading::Heading;
use crate::nodes::nodes_of;
use crate::spread::{Spread, join};
use crate::unit_box::UnitBox;
use pm_forest::Hierarchy;
use std::alloc::Global;

// A sum of three parts in 32 bits.
fn narrow(n: i64) -> i32
    requires { unsigned_abs n ≤ 49152 }
    ensures { result ≡ n }
{
    n as i32
}

// What a box of parts has along an axis.
fn box_along(parts: &UnitBox, axis: Axis) -> Spread
    requires axis { is_axis axis ≡ true }
    requires small { IsUnitBox parts.now }
    ensures { result ≡ along parts.now (direction_of axis) }
{
    let (low, high) = parts.along(i64::from(axis.x), i64::from(axis.y), i64::from(axis.z));
    Spread {
        low: narrow(low),
        high: narrow(high),
    }
}

// What a heading has along an axis.
fn heading_along(heading: &Heading, axis: Axis) -> Option<Spread>
    requires axis { is_axis axis ≡ true }
    requires small { IfSome heading.now.parts IsUnitBox }
    ensures { result ≡ heading_along axis heading.now }
{
    match &heading.parts {
        Some(parts) => Some(box_along(parts, axis)),
        None => None,
    }
}

// Takes what a heading has into the spread of a leaf's node.
fn widen(h: &Hierarchy, table: &mut Vec<Option<Spread>>, leaf: u32, part: Option<Spread>)
    requires leaf { leaf < leaf_count h.now }
    requires len { length table.old.items ≡ node_count h.now }
    ensures len { length table.new.items ≡ node_count h.now }
    ensures wider { let old = table.old.items in
        table.new.items
        ≡ slice_set old (leaf_node_of h.now leaf)
        (join (slice_index_or old (leaf_node_of h.now leaf) None) part) }
{
    let node = h.leaf_node(leaf).0 as usize;
    table[node] = join(table[node], part);
}

// Takes what a heading has into the spreads of the nodes of its leaves.
fn widen_leaves(h: &Hierarchy, table: &mut Vec<Option<Spread>>, heading: &Heading, axis: Axis)
    requires heading { IsHeading h.now heading.now }
    requires axis { is_axis axis ≡ true }
    requires len { length table.old.items ≡ node_count h.now }
    ensures len { length table.new.items ≡ node_count h.now }
    ensures wider { (l : ℕ) → l < leaf_count h.now
        → let old = slice_index_or table.old.items (leaf_node_of h.now l) None in
        slice_index_or table.new.items (leaf_node_of h.now l) None
        ≡ cond (is_leaf_corner l (leaves_of heading.now))
        (join old (heading_along axis heading.now)) old }
{
    h.invariant();
    let part = heading_along(heading, axis);
    widen(h, table, heading.a, part);
    widen(h, table, heading.b, part);
    widen(h, table, heading.c, part);
}

// Gives each node that no record splits its spread.
fn see(h: &Hierarchy, headings: &[Heading], axis: Axis, table: &mut Vec<Option<Spread>>)
    requires headings { AreHeadings h.now headings.now }
    requires axis { is_axis axis ≡ true }
    requires missing { table.old.items ≡ replicate (node_count h.now) None }
    ensures len { length table.new.items ≡ node_count h.now }
    ensures own { AreOwn h.now None (spread_among h.now headings.now axis) table.new.items }
{
    h.invariant();
    for i in 0..headings.len() {
        widen_leaves(h, table, &headings[i], axis);
    }
}

// Joins the spreads of two children.
fn joined_children(h: &Hierarchy, table: &[Option<Spread>], k: u32) -> Option<Spread>
    requires record { k < record_count h.now }
    requires len { length table.now ≡ node_count h.now }
    ensures { result ≡ join (slice_index_or table.now (t_of h.now k) None)
        (slice_index_or table.now (u_of h.now k) None) }
{
    let nodes = nodes_of(h, k);
    join(table[nodes.t.0 as usize], table[nodes.u.0 as usize])
}

// Gives all nodes their spreads, where those that no record splits have theirs.
fn grow(h: &Hierarchy, table: &mut Vec<Option<Spread>>)
    requires { length table.old.items ≡ node_count h.now }
    ensures { (value : ℕ → Option Spread) → AreJoined h.now value
        → AreOwn h.now None value table.old.items → AreOfNodes h.now None value table.new.items }
{
    h.invariant();
    for k in (0..h.records()).rev() {
        let node = nodes_of(h, k).s.0 as usize;
        let spread = joined_children(h, table, k);
        table[node] = spread;
    }
}

// As many missing spreads as there are nodes. The length is a parameter, so that no proof unfolds
// the list.
fn missing(alloc: Global, nodes: usize) -> Result<Vec<Option<Spread>>, OutOfMemory>
    ensures { IfOk result (λ table. table.items ≡ replicate nodes None) }
{
    vec![in alloc; None; nodes]
}

/// What the headings under each node have along an axis, 12 bytes a node.
pub(crate) fn axis_spreads(
    alloc: Global,
    h: &Hierarchy,
    headings: &[Heading],
    axis: Axis,
) -> Result<Vec<Option<Spread>>, OutOfMemory>
    requires headings { AreHeadings h.now headings.now }
    requires axis { is_axis axis ≡ true }
    ensures { IfOk result (λ table. (spread : Axis → ℕ → Option Spread)
        → HaveSpreads h.now spread headings.now
        → AreOfNodes h.now None (spread axis) table.items) }
{
    h.invariant();
    let mut table = missing(alloc, h.nodes() as usize)?;
    // A closed surface has no border, and none of its nodes has a spread.
    if headings.is_empty() {
        return Ok(table);
    }
    see(h, headings, axis, &mut table);
    grow(h, &mut table);
    Ok(table)
}
