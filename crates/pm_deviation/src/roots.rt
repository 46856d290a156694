//! Square roots of squared lengths, rounded down and up.
ghost use Rattle.std.specs.Prelude.{◌≡◌, ◌^◌, ◌<◌, ◌≤◌, ◌*◌};
ghost use Rattle.pm_base.specs.Rounded.{root_up};
ghost use Rattle.pm_deviation.specs.Normals.{root_down};

/// The greatest whole number whose square is at most n. Most squares fit in 64 bits, where roots
/// are found in half the steps.
pub(crate) fn root_down(n: u128) -> u64
    requires { n < 2 ^ 68 }
    ensures value { result ≡ root_down n }
    ensures small { result < 2 ^ 34 }
{
    match u64::try_from(n) {
        Ok(small) => small.isqrt(),
        Err(_) => n.isqrt() as u64,
    }
}

/// The least whole number whose square is at least n, by the greatest whose square is at most n.
pub(crate) fn root_up(n: u128, down: u64) -> u64
    requires square { n < 2 ^ 68 }
    requires down { down ≡ root_down n }
    requires small { down < 2 ^ 34 }
    ensures value { result ≡ root_up n }
    ensures small { result ≤ 2 ^ 34 }
{
    let square = u128::from(down) * u128::from(down);
    if square < n { down + 1 } else { down }
}
