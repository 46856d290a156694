//! Tables from sides to sides.
ghost use Rattle.std.specs.Prelude.{◌≡◌, ◌<◌, ◌≤◌, None, length, replicate, slice_index_or};
ghost use Rattle.std.specs.Prelude.{slice_set, IfOk, IfSome};
ghost use Rattle.std.specs.Option.{option_map};
ghost use Rattle.pm_base.specs.declared.limits.TheConstants.{MOST_SIDES};

use crate::{OptionalNumber, OutOfMemory, Side};
use std::alloc::Global;
use std::marker::Model;

/// A side or none in four bytes, where an `Option<Side>` takes eight. Contracts see the number of
/// the side, or none.
#[derive(Clone, Copy)]
pub struct OptionalSide {
    number: OptionalNumber,
}

impl Model for OptionalSide {
    ghost use Rattle.std.specs.Prelude.{ℕ, Option};

    ghost Value = { Option ℕ };

    ghost view = { λ s. s.number };

    ghost inverse = { λ o. record { number = o } };
}

impl OptionalSide {
    /// The same in four bytes. The side is one of a mesh.
    pub fn of(side: Option<Side>) -> OptionalSide
        requires { IfSome side (λ s. s.0 < MOST_SIDES) }
        ensures { result ≡ option_map (λ s. s.0) side }
    {
        OptionalSide {
            number: OptionalNumber::of(side.map(|s| s.0)),
        }
    }

    /// The side, if there is one.
    pub fn side(&self) -> Option<Side>
        ensures { option_map (λ s. s.0) result ≡ self.now }
    {
        self.number.get().map(Side)
    }
}

/// For each side below a bound another side, or none: four bytes a side. Contracts see a list with
/// the number, or none, for each.
#[derive(Drop)]
pub struct SideMap {
    others: Vec<OptionalSide>,
}

impl Model for SideMap {
    ghost use Rattle.std.specs.Prelude.{ℕ, ◌≤◌, Option, List, length};
    ghost use Rattle.pm_base.specs.declared.limits.TheConstants.{MOST_SIDES};

    ghost Value = { List (Option ℕ) };

    ghost view = { λ m. m.others.items };

    ghost invariant = { λ m. length m.others.items ≤ MOST_SIDES };
}

impl SideMap {
    /// None for each of so many sides. The only call that takes memory.
    pub fn new(alloc: Global, sides: u32) -> Result<SideMap, OutOfMemory>
        requires { sides ≤ MOST_SIDES }
        ensures { IfOk result (λ m. m ≡ replicate sides None) }
    {
        let others = vec![in alloc; OptionalSide::of(None); sides as usize]?;
        Ok(SideMap { others })
    }

    /// How many sides there are.
    pub fn len(&self) -> u32
        ensures value { result ≡ length self.now }
        ensures few { result ≤ MOST_SIDES }
    {
        self.others.len() as u32
    }

    /// The side that a side is mapped to, if it is. O(1).
    pub fn get(&self, side: Side) -> Option<Side>
        requires { side.0 < length self.now }
        ensures { option_map (λ s. s.0) result ≡ slice_index_or self.now side.0 None }
    {
        self.others[side.0 as usize].side()
    }

    /// Maps a side to another one, or to none. O(1).
    pub fn set(&mut self, side: Side, other: Option<Side>)
        requires there { side.0 < length self.old }
        requires small { IfSome other (λ s. s.0 < MOST_SIDES) }
        ensures { self.new ≡ slice_set self.old side.0 (option_map (λ s. s.0) other) }
    {
        self.others[side.0 as usize] = OptionalSide::of(other);
    }
}
