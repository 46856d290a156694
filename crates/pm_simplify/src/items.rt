//! The numbers of edges in the queue, and the sides of a face. An edge has the number of one of its
//! sides: the lesser of the two where two faces have it.
ghost use Rattle.std.specs.Prelude.{◌≡◌, ◌<◌};
ghost use Rattle.pm_base.specs.Sides.{next as next_of, prev as prev_of, side_count, Stands};
ghost use Rattle.pm_shrink.specs.Shrinking.{net_at};
ghost use Rattle.pm_simplify.specs.Items.{item_of as item_in};

use pm_base::Side;
use pm_shrink::Shrink;

/// The side that follows in the same face.
pub(crate) fn next(shrink: &Shrink, side: Side) -> Side
    requires { Stands (net_at shrink.now) side.0 }
    ensures value { result.0 ≡ next_of side.0 }
    ensures stands { Stands (net_at shrink.now) result.0 }
{
    shrink.invariant();
    side.next()
}

/// The side that comes before in the same face.
pub(crate) fn prev(shrink: &Shrink, side: Side) -> Side
    requires { Stands (net_at shrink.now) side.0 }
    ensures value { result.0 ≡ prev_of side.0 }
    ensures stands { Stands (net_at shrink.now) result.0 }
{
    next(shrink, next(shrink, side))
}

/// The number of the edge of a side.
#[tactic(auto, unfolding(crate::specs::Items::item_of))]
pub(crate) fn item_of(shrink: &Shrink, side: Side) -> u32
    requires { Stands (net_at shrink.now) side.0 }
    ensures value { result ≡ item_in (net_at shrink.now) side.0 }
    ensures within { result < side_count (net_at shrink.now) }
{
    match shrink.across(side) {
        None => side.0,
        Some(twin) => twin.0.min(side.0),
    }
}
