//! The sides of each edge, noted in a map by the edge's two vertices. Two faces are neighbours
//! where an edge has two sides and no third.
ghost use Rattle.std.specs.Prelude.{◌≡◌, ◌+◌, ◌*◌, ◌<◌, ◌≤◌, Option, length, IfOk, OnOk};
ghost use Rattle.std.specs.Prelude.{MatchOption, ℕ};
ghost use Rattle.std.specs.Ordering.{nat_cmp};
ghost use Rattle.std.specs.BTreeMap.{get};
ghost use Rattle.pm_base.specs.declared.limits.TheConstants.{MOST_FACES};
ghost use Rattle.pm_base.specs.Sides.{net_of, side_count};
ghost use Rattle.pm_fans.specs.Splits.{IsCuttable};
ghost use Rattle.pm_turn.specs.Turning.{AreMates};
ghost use Rattle.pm_turn.specs.Unions.{AreMated};
ghost use Rattle.pm_turn.specs.Edges.{
  edge_key,
  edge_with,
  has_two as has_two_of,
  comes_third,
  mate_in as mate_in_of,
  AreEdges,
};
ghost use Rattle.pm_turn.specs.Told.{crowded_of};

use crate::OutOfMemory;
use crate::counts::plus;
use crate::sides::{from, to};
use pm_base::{Corners, Side, SideMap};
use std::alloc::Global;
use std::collections::BTreeMap;

// A key has 32 bits an end.
const SHIFT: u64 = 1 << 32;

/// The sides that join two vertices, in either order: one, two, or more.
#[derive(Clone, Copy)]
pub(crate) enum Edge {
    One(Side),
    Two(Side, Side),
    More,
}

/// The sides of each edge, and how many edges have three sides or more.
#[derive(Drop)]
pub(crate) struct Edges {
    pub(crate) sides: BTreeMap<u64, Edge>,
    pub(crate) crowded: u32,
}

/// Beside each side the only other one that joins the same two vertices, in either order; `None`
/// where no other does, or several do. O(F log F) for F faces.
pub fn side_mates(alloc: Global, faces: &[Corners]) -> Result<SideMap, OutOfMemory>
    requires { IsCuttable (net_of faces.now) }
    ensures { IfOk result (AreMated (net_of faces.now)) }
{
    let edges = note_edges(alloc, faces)?;
    edge_mates(alloc, faces, &edges)
}

/// The same, by the edges of all sides.
pub(crate) fn edge_mates(
    alloc: Global,
    faces: &[Corners],
    edges: &Edges,
) -> Result<SideMap, OutOfMemory>
    requires cuttable { IsCuttable (net_of faces.now) }
    requires noted { AreEdges (net_of faces.now) (side_count (net_of faces.now)) edges.now.sides }
    ensures { IfOk result (AreMated (net_of faces.now)) }
{
    let mut mates = SideMap::new(alloc, 3 * faces.len() as u32)?;
    for number in 0..mates.len() {
        let side = Side(number);
        mates.set(side, mate_of(faces, &edges.sides, side));
    }
    Ok(mates)
}

/// All sides by their edges.
#[tactic(auto, using(crate::proofs::EdgeLaws::none_noted, crate::proofs::Summing::none_counted))]
pub(crate) fn note_edges(alloc: Global, faces: &[Corners]) -> Result<Edges, OutOfMemory>
    requires { IsCuttable (net_of faces.now) }
    ensures noted { IfOk result (λ e. AreEdges (net_of faces.now) (side_count (net_of faces.now))
        e.sides) }
    ensures crowded { IfOk result (λ e. e.crowded ≡ crowded_of (net_of faces.now)) }
{
    let mut sides = BTreeMap::new(alloc);
    let mut crowded = 0;
    for number in 0..3 * faces.len() as u32 {
        let third = note(&mut sides, faces, Side(number))?;
        crowded = plus(crowded, third);
    }
    Ok(Edges { sides, crowded })
}

// Notes one more side, and tells whether it is the third of its edge.
fn note(edges: &mut BTreeMap<u64, Edge>, faces: &[Corners], side: Side) -> Result<bool, OutOfMemory>
    requires short { length faces.now ≤ MOST_FACES }
    requires in_range { side.0 < 3 * length faces.now }
    requires noted { AreEdges (net_of faces.now) side.0 edges.old }
    ensures noted { OnOk result (AreEdges (net_of faces.now) (side.0 + 1) edges.new) }
    ensures third { IfOk result (λ third. third ≡ comes_third (net_of faces.now) side.0) }
{
    let key = ends(from(faces, side), to(faces, side));
    let edge = edge_at(edges, key);
    edges.insert(key, with_side(edge, side))?;
    Ok(has_two(edge))
}

// Whether two sides were noted of an edge, and no third.
fn has_two(edge: Option<Edge>) -> bool
    ensures { result ≡ has_two_of edge }
{
    matches!(edge, Some(Edge::Two(_, _)))
}

// The two ends of a side in ascending order, as one number.
fn ends(p: u32, q: u32) -> u64
    ensures { result ≡ edge_key p q }
{
    if p < q {
        u64::from(p) * SHIFT + u64::from(q)
    } else {
        u64::from(q) * SHIFT + u64::from(p)
    }
}

// What is noted of an edge.
fn edge_at(edges: &BTreeMap<u64, Edge>, key: u64) -> Option<Edge>
    ensures { result ≡ get nat_cmp edges.now key }
{
    edges.get(&key).copied()
}

// An edge with one more side.
fn with_side(edge: Option<Edge>, side: Side) -> Edge
    ensures { result ≡ edge_with edge side }
{
    match edge {
        None => Edge::One(side),
        Some(Edge::One(first)) => Edge::Two(first, side),
        Some(_) => Edge::More,
    }
}

// The other side of an edge of two.
fn mate_in(edge: Option<Edge>, side: Side) -> Option<Side>
    ensures { result ≡ mate_in_of edge side }
{
    match edge {
        Some(Edge::Two(one, other)) => Some(if one.0 == side.0 { other } else { one }),
        _ => None,
    }
}

// The only other side that joins the two vertices of a side.
fn mate_of(faces: &[Corners], edges: &BTreeMap<u64, Edge>, side: Side) -> Option<Side>
    requires cuttable { IsCuttable (net_of faces.now) }
    requires in_range { side.0 < 3 * length faces.now }
    requires noted { AreEdges (net_of faces.now) (3 * length faces.now) edges.now }
    ensures { MatchOption result ((k : ℕ) → AreMates (net_of faces.now) side.0 k → ⊥)
        (λ k. AreMates (net_of faces.now) side.0 k.0) }
{
    mate_in(
        edge_at(edges, ends(from(faces, side), to(faces, side))),
        side,
    )
}
