//! While a vertex is gone through, each side that arrives there is stamped at the vertex from which
//! it comes. The twin of a side that leaves is then the stamp at the vertex to which it runs. A
//! stamp that an earlier vertex left behind is told by its target, where its side runs to, so the
//! stamps are never wiped.
ghost use Rattle.std.specs.Prelude.{◌≡◌, ◌+◌, ◌<◌, length, IfOk};
ghost use Rattle.pm_base.specs.Sides.{net_of};
ghost use Rattle.pm_twins.specs.Whole.{IsWhole};
ghost use Rattle.pm_twins.specs.SideLists.{IsLast};
ghost use Rattle.pm_twins.specs.Stamping.{no_stamps, stamped, with_side};
ghost use Rattle.pm_twins.specs.Stamping.{lesser_of, NoneStampedFrom, AreAllStamped, IsLeastRepeat};
ghost use Rattle.pm_twins.specs.Stamping.{ArePaired};

use crate::OutOfMemory;
use crate::sides::{third, to};
use pm_base::{Corners, Side, SideMap};
use std::alloc::Global;
use std::marker::Model;

// The target where no side is stamped yet. No vertex has this number, since it is past
// `MOST_VERTICES`.
const NOWHERE: u32 = u32::MAX;

// A side, and beside it the vertex to which it runs, so that one look finds both.
#[derive(Clone, Copy)]
struct Stamp {
    side: Side,
    target: u32,
}

/// At some vertices a side that leaves them, and the least side so far that runs between the same
/// vertices as an earlier one.
#[derive(Drop)]
pub(crate) struct Stamps {
    at: Vec<Stamp>,
    repeat: Option<Side>,
}

impl Model for Stamps {
    ghost use Rattle.pm_twins.specs.Stamping.{Stamps};

    ghost Value = { Stamps };

    ghost view = { λ s. record { at = s.at.items; repeat = s.repeat } };
}

impl Stamps {
    /// No side stamped at any vertex.
    pub(crate) fn none(alloc: Global, vertices: usize) -> Result<Stamps, OutOfMemory>
        ensures { IfOk result (λ s. s ≡ no_stamps vertices) }
    {
        let none = Stamp {
            side: Side(0),
            target: NOWHERE,
        };
        let at = vec![in alloc; none; vertices]?;
        Ok(Stamps { at, repeat: None })
    }

    /// The least side so far that runs between the same vertices as an earlier one.
    pub(crate) fn repeat(&self) -> Option<Side>
        ensures { result ≡ self.now.repeat }
    {
        self.repeat
    }

    // The stamped side to `vertex` from `start`, if there is one.
    fn side(&self, vertex: u32, start: u32) -> Option<Side>
        requires { start < length self.now.at }
        ensures { result ≡ stamped self.now vertex start }
    {
        let stamp = self.at[start as usize];
        if stamp.target == vertex {
            Some(stamp.side)
        } else {
            None
        }
    }

    // Stamps a side to `vertex` at `start`. Of two such sides the earlier keeps the stamp.
    fn add(&mut self, vertex: u32, start: u32, side: Side)
        requires { start < length self.old.at }
        ensures { self.new ≡ with_side self.old vertex start side }
    {
        let first = match self.side(vertex, start) {
            None => side,
            Some(other) => {
                self.repeat = lesser(self.repeat, other.max(side));
                other.min(side)
            }
        };
        self.at[start as usize] = Stamp {
            side: first,
            target: vertex,
        };
    }
}

// The lesser of two sides, or the second alone.
fn lesser(known: Option<Side>, side: Side) -> Option<Side>
    ensures { result ≡ lesser_of known (Some side) }
{
    match known {
        Some(other) => Some(other.min(side)),
        None => Some(side),
    }
}

/// Stamps the sides that arrive at a vertex. Each is the one before a side that leaves it.
pub(crate) fn stamp_arriving(
    faces: &[Corners],
    table: &SideMap,
    last: Option<Side>,
    vertex: u32,
    stamps: &mut Stamps,
)
    requires whole { IsWhole (net_of faces.now) (length stamps.old.at) }
    requires in_range { vertex < length stamps.old.at }
    requires last { IsLast (net_of faces.now) vertex last }
    requires paired { ArePaired (net_of faces.now) vertex table.now }
    requires none { NoneStampedFrom vertex stamps.old }
    requires repeat { IsLeastRepeat (net_of faces.now) vertex stamps.old.repeat }
    ensures len { length stamps.new.at ≡ length stamps.old.at }
    ensures none { NoneStampedFrom (vertex + 1) stamps.new }
    ensures all { AreAllStamped (net_of faces.now) vertex stamps.new }
    ensures repeat { IsLeastRepeat (net_of faces.now) (vertex + 1) stamps.new.repeat }
{
    let mut at = last;
    while let Some(side) = at {
        stamps.add(vertex, third(faces, side), side.prev());
        at = table.get(side);
    }
}

/// Notes the twin of each side that leaves a vertex, where its link stands, which is read before.
/// The sides that arrive are stamped.
pub(crate) fn pair_leaving(
    faces: &[Corners],
    last: Option<Side>,
    vertex: u32,
    stamps: &Stamps,
    table: &mut SideMap,
)
    requires whole { IsWhole (net_of faces.now) (length stamps.now.at) }
    requires in_range { vertex < length stamps.now.at }
    requires last { IsLast (net_of faces.now) vertex last }
    requires all { AreAllStamped (net_of faces.now) vertex stamps.now }
    requires paired { ArePaired (net_of faces.now) vertex table.old }
    ensures paired { ArePaired (net_of faces.now) (vertex + 1) table.new }
{
    let mut at = last;
    while let Some(side) = at {
        at = table.get(side);
        table.set(side, stamps.side(vertex, to(faces, side)));
    }
}
