//! What can be told of turning beside the flags.
ghost use Rattle.std.specs.Prelude.{◌≡◌, ◌+◌, ◌*◌, ◌≤◌, length};
ghost use Rattle.pm_base.specs.declared.limits.TheConstants.{MOST_FACES};
ghost use Rattle.pm_base.specs.Counts.{one_if, count};
ghost use Rattle.pm_base.specs.Sides.{net_of};
ghost use Rattle.pm_turn.specs.Turning.{flag_of, AreTraced};
ghost use Rattle.pm_turn.specs.Unions.{AreMated};
ghost use Rattle.pm_turn.specs.Sums.{root_at, parity_at, AreSums};
ghost use Rattle.pm_turn.specs.Told.{IsCount, IsTwisted, AreInsideOut, is_inward as is_inward_of};

use crate::choice::Sums;
use crate::patches::Root;
use pm_base::{Corners, Point, SideMap};

/// What is told of turning beside the flags.
#[derive(Clone, Copy, Debug, PartialEq, Eq)]
pub struct TurnCounts {
    /// How many faces are turned.
    pub turned: u32,
    /// How many faces lie in patches that can't be turned so that neighbours agree.
    pub twisted: u32,
    /// How many edges have three faces or more.
    pub crowded: u32,
    /// How many closed patches agree as they are, and are inside out.
    pub inside_out: u32,
}

/// How many flags are set.
#[tactic(auto, using(crate::proofs::Summing::none_counted))]
pub(crate) fn count_set(flags: &[bool]) -> u32
    requires short { length flags.now ≤ MOST_FACES }
    ensures { result ≡ count (flag_of flags.now) (length flags.now) }
{
    let mut set = 0;
    for at in 0..flags.len() {
        set = plus(set, flags[at]);
    }
    set
}

/// One more if told so.
pub(crate) fn plus(n: u32, more: bool) -> u32
    requires { n ≤ 3 * MOST_FACES }
    ensures { result ≡ n + one_if more }
{
    n + u32::from(more)
}

/// How many faces lie in patches that have an odd closed way.
#[tactic(auto, using(crate::proofs::Summing::none_counted))]
pub(crate) fn twisted_faces(faces: &[Corners], odd: &[bool], roots: &[Root]) -> u32
    requires short { length faces.now ≤ MOST_FACES }
    requires odd { length odd.now ≡ length faces.now }
    requires long { length roots.now ≡ length faces.now }
    requires traced { AreTraced (net_of faces.now) (root_at roots.now) (parity_at roots.now)
        (flag_of odd.now) }
    ensures { IsCount (IsTwisted (net_of faces.now)) (length faces.now) result }
{
    let mut twisted = 0;
    for face in 0..faces.len() {
        let root = roots[face];
        twisted = plus(twisted, odd[root.face as usize]);
    }
    twisted
}

/// How many closed patches agree as they are, and are inside out.
#[tactic(auto, using(crate::proofs::Summing::none_counted))]
pub(crate) fn inside_out(
    faces: &[Corners],
    places: &[Point],
    mates: &SideMap,
    odd: &[bool],
    roots: &[Root],
    sums: &[Sums],
) -> u32
    requires short { length faces.now ≤ MOST_FACES }
    requires mated { AreMated (net_of faces.now) mates.now }
    requires odd { length odd.now ≡ length faces.now }
    requires long { length roots.now ≡ length faces.now }
    requires traced { AreTraced (net_of faces.now) (root_at roots.now) (parity_at roots.now)
        (flag_of odd.now) }
    requires sums { AreSums (net_of faces.now) places.now mates.now roots.now (length faces.now)
        sums.now }
    ensures { AreInsideOut (net_of faces.now) places.now result }
{
    let mut inward = 0;
    for face in 0..faces.len() {
        inward = plus(
            inward,
            is_inward(roots[face].face as usize == face, odd[face], sums[face]),
        );
    }
    inward
}

// Whether a face stands for a closed patch that agrees as it is and is inside out.
fn is_inward(own: bool, odd: bool, s: Sums) -> bool
    ensures { result ≡ is_inward_of own odd s }
{
    own && !odd && s.bare == 0 && s.odd == 0 && s.volume < 0
}
