//! What each record needs, in a row of a table.
ghost use Rattle.std.specs.Prelude.{◌≡◌, ◌<◌, ◌*◌, length, IfOk, IfSome, slice_index_or, []};
ghost use Rattle.std.specs.List.{All};
ghost use Rattle.pm_base.specs.declared.limits.TheConstants.{MOST_VERTICES};
ghost use Rattle.pm_forest.specs.Forest.{record_count};
ghost use Rattle.pm_forest.specs.Faces.{face_count};
ghost use Rattle.pm_forest.specs.Moves.{side_in};
ghost use Rattle.pm_candidates.specs.Needed.{revealer_of, AreNeedsOf, AreNeeds};

use crate::OutOfMemory;
use pm_base::{NodeId, OptionalNumber, Side};
use pm_forest::Hierarchy;
use std::alloc::Global;
use std::marker::Model;

// What one record needs, in 20 bytes.
type Row = [OptionalNumber; 5];

/// What each record of a hierarchy needs: the maker of its node, and the revealers of the faces of
/// its recorded neighbours. A move then reads one row, where it would look up each of these faces.
/// Contracts see the rows.
#[derive(Drop)]
pub struct NeedTable {
    rows: Vec<Row>,
}

impl Model for NeedTable {
    ghost use Rattle.std.specs.Prelude.{ℕ, List, Option};

    ghost Value = { List (List (Option ℕ)) };

    ghost view = { λ n. n.rows.items };
}

impl NeedTable {
    /// The rows of all records: O(1) for each. The only call that takes memory: 20 bytes a record.
    pub fn new(alloc: Global, h: &Hierarchy) -> Result<NeedTable, OutOfMemory>
        ensures { IfOk result (AreNeeds h.now) }
    {
        h.invariant();
        let mut rows = Vec::with_capacity(alloc, h.records() as usize)?;
        for k in 0..h.records() {
            rows.push(row_of(needs_of(h, k)))?;
        }
        Ok(NeedTable { rows })
    }

    /// The row of record `k`. O(1).
    pub fn of(&self, k: u32) -> [Option<u32>; 5]
        requires { k < length self.now }
        ensures { result ≡ slice_index_or self.now k [] }
    {
        let row = &self.rows[k as usize];
        [
            row[0].get(),
            row[1].get(),
            row[2].get(),
            row[3].get(),
            row[4].get(),
        ]
    }
}

// Which record reveals the face of a recorded neighbour.
fn revealer(h: &Hierarchy, side: Option<Side>) -> Option<u32>
    requires { All (λ e. e < 3 * face_count h.now) (side_in side) }
    ensures value { result ≡ revealer_of h.now side }
    ensures there { IfSome result (λ j. j < record_count h.now) }
{
    h.revealed_by(side?.face())
}

// What record `k` needs, once for each reason; `None` where no neighbour is recorded, and where no
// record made a node or revealed a face.
fn needs_of(h: &Hierarchy, k: u32) -> [Option<u32>; 5]
    requires { k < record_count h.now }
    ensures { AreNeedsOf h.now k result }
{
    h.invariant();
    let change = h.record_at(k);
    let sides = change.neighbours();
    [
        h.maker(NodeId(change.s)),
        revealer(h, sides[0]),
        revealer(h, sides[1]),
        revealer(h, sides[2]),
        revealer(h, sides[3]),
    ]
}

// What a record needs, in four bytes each.
fn row_of(needed: [Option<u32>; 5]) -> Row
    requires { All (λ need. IfSome need (λ k. k < MOST_VERTICES)) needed }
    ensures { result ≡ needed }
{
    [
        OptionalNumber::of(needed[0]),
        OptionalNumber::of(needed[1]),
        OptionalNumber::of(needed[2]),
        OptionalNumber::of(needed[3]),
        OptionalNumber::of(needed[4]),
    ]
}
