//! Spreads: the whole numbers from one to another.
ghost use Rattle.std.specs.Prelude.{◌≡◌};
ghost use Rattle.std.specs.Option.{unwrap_or};
ghost use Rattle.pm_deviation.specs.Spreads.{joined, join, mirrored, no_spread};
ghost use Rattle.pm_deviation.specs.Tables.{IsPart};

/// The numbers from `low` to `high`: parts of 1 / 16,384 of normals' lengths along an axis.
#[derive(Clone, Copy)]
pub struct Spread {
    pub low: i32,
    pub high: i32,
}

impl Spread {
    // The least spread that has two others in it.
    fn joined(self, other: Spread) -> Spread
        ensures { result ≡ joined self other }
    {
        Spread {
            low: self.low.min(other.low),
            high: self.high.max(other.high),
        }
    }

    /// All its numbers with their signs turned.
    pub(crate) fn mirrored(self) -> Spread
        requires { IsPart self }
        ensures { result ≡ mirrored self }
    {
        Spread {
            low: -self.high,
            high: -self.low,
        }
    }
}

/// The least spread that has two others in it, one or both of which may be missing.
pub(crate) fn join(a: Option<Spread>, b: Option<Spread>) -> Option<Spread>
    ensures { result ≡ join a b }
{
    match (a, b) {
        (Some(a), Some(b)) => Some(a.joined(b)),
        (Some(a), None) => Some(a),
        (None, b) => b,
    }
}

/// A spread that may be missing: from 0 to 0 where it is.
pub(crate) fn or_none(a: Option<Spread>) -> Spread
    ensures { result ≡ unwrap_or a no_spread }
{
    a.unwrap_or(Spread { low: 0, high: 0 })
}
