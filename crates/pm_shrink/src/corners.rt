//! The corners of a face, or none where it was dropped.
ghost use Rattle.std.specs.Prelude.{◌≡◌, ◌<◌, None, Some, true, is_some, option_map, unwrap_or};
ghost use Rattle.pm_base.specs.declared.limits.TheConstants.{MOST_NODES};
ghost use Rattle.pm_base.specs.Sides.{corner_in, no_corners};
ghost use Rattle.pm_shrink.specs.Writes.{with_vertex};

use pm_base::Corners;
use std::marker::Model;

// Stands for each corner where there is no face. No vertex has this number, since it is past
// `MOST_NODES`.
const NONE: u32 = u32::MAX;

/// The corners of a face, or none, in twelve bytes, where an `Option<Corners>` takes sixteen.
/// Contracts see the corners, or none.
#[derive(Clone, Copy)]
pub(crate) struct OptionalCorners {
    a: u32,
    b: u32,
    c: u32,
}

impl Model for OptionalCorners {
    ghost use Rattle.std.specs.Prelude.{◌≡◌, Option, unwrap_or};
    ghost use Rattle.pm_base.specs.declared.mesh.Corners.{Corners};
    ghost use Rattle.pm_shrink.specs.declared.corners.TheConstants.{NONE};
    ghost use Rattle.pm_shrink.specs.CornerNumbers.{none_numbers, held_by, given_back};

    ghost Value = { Option Corners };

    ghost view = { λ k. held_by (record { a = k.a; b = k.b; c = k.c }) };

    ghost invariant = { λ k. k.a ≡ NONE → (k.b ≡ NONE) × (k.c ≡ NONE) };

    ghost inverse = { λ o. record {
      a = (unwrap_or o none_numbers).a;
      b = (unwrap_or o none_numbers).b;
      c = (unwrap_or o none_numbers).c;
    } };

    ghost inverse_ok = { λ k kept i. record {
      a = (given_back (record { a = k.a; b = k.b; c = k.c }) kept i).a;
      b = (given_back (record { a = k.a; b = k.b; c = k.c }) kept i).b;
      c = (given_back (record { a = k.a; b = k.b; c = k.c }) kept i).c;
    } };
}

impl OptionalCorners {
    /// No face.
    pub(crate) fn none() -> OptionalCorners
        ensures { result ≡ None }
    {
        OptionalCorners {
            a: NONE,
            b: NONE,
            c: NONE,
        }
    }

    /// The corners of a face. The first is a vertex.
    pub(crate) fn of(face: Corners) -> OptionalCorners
        requires { face.a < MOST_NODES }
        ensures { result ≡ Some face }
    {
        OptionalCorners {
            a: face.a,
            b: face.b,
            c: face.c,
        }
    }

    /// The vertex at corner number i of a face that is there.
    pub(crate) fn get(&self, i: u32) -> u32
        requires corner { i < 3 }
        requires there { is_some self.now ≡ true }
        ensures { result ≡ corner_in (unwrap_or self.now no_corners) i }
    {
        // Which corner it is can't be foreseen, and a wrong guess costs more than a look-up.
        [self.a, self.b, self.c][i as usize]
    }

    /// Puts a vertex at corner number i, if the face is there.
    pub(crate) fn set(&mut self, i: u32, vertex: u32)
        requires { vertex < MOST_NODES }
        ensures { self.new ≡ option_map (λ k. with_vertex k i vertex) self.old }
    {
        if self.a == NONE {
            return;
        }
        match i {
            0 => self.a = vertex,
            1 => self.b = vertex,
            _ => self.c = vertex,
        }
    }
}
