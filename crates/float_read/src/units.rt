//! A whole number times a power of two, in units.
ghost use Rattle.std.specs.Prelude.{◌≡◌, ◌<◌, ◌≤◌, ◌+◌, ◌-◌, ◌*◌, ◌/◌, ◌^◌, IfSome, IfNone};
ghost use Rattle.float_read.specs.Floats.{units};

// The greatest absolute value of a coordinate in units.
const GREATEST: u128 = 100_000_000_000_000_000_000_000_000_000_000;

// The units in 1.
const UNITS: u128 = 1_000_000_000_000_000_000;

// Past the greatest, shifted down so far, nothing is left.
const MOST_UP: u32 = 107;

// Of twice 2^53 units in 1, shifted down so far, nothing is left.
const MOST_DOWN: u32 = 114;

// A number of units times a power of two, unless it is past the greatest.
fn shifted_up(n: u128, up: u32) -> Option<u128>
    ensures some { IfSome result (λ r. r ≡ n * 2 ^ up) }
    ensures small { IfSome result (λ r. r ≤ 10 ^ 32) }
    ensures none { IfNone result (10 ^ 32 < n * 2 ^ up) }
{
    let up = up.min(MOST_UP);
    if n > GREATEST >> up {
        None
    } else {
        Some(n << up)
    }
}

// Half of 2^down more, divided by 2^down.
#[tactic(auto, using(crate::proofs::UnitLaws::shifted_none, crate::proofs::UnitLaws::half_fits))]
fn shifted_down(n: u128, down: u32) -> u128
    requires n { n < 2 ^ 113 }
    requires down { 1 ≤ down }
    ensures value { result ≡ (n + 2 ^ (down - 1)) / 2 ^ down }
{
    if down > MOST_DOWN {
        return 0;
    }
    (n + (1 << (down - 1))) >> down
}

/// The number m * 2^power / 2^scale as the nearest number of units; none where it is past the
/// greatest.
pub(crate) fn units(m: u64, power: u32, scale: u32) -> Option<u128>
    requires m { m < 2 ^ 53 }
    ensures some { IfSome result (λ n. n ≡ units m power scale) }
    ensures small { IfSome result (λ n. n ≤ 10 ^ 32) }
    ensures none { IfNone result (10 ^ 32 < units m power scale) }
{
    let n = u128::from(m) * UNITS;
    if power >= scale {
        return shifted_up(n, power - scale);
    }
    let nearest = shifted_down(n, scale - power);
    if nearest > GREATEST {
        None
    } else {
        Some(nearest)
    }
}
