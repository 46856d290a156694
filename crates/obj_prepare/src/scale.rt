//! Points scaled by their box.
ghost use Rattle.std.specs.Prelude.{◌≡◌, ◌<◌, ◌≤◌, ◌*◌, ◌^◌, unsigned_abs};
ghost use Rattle.pm_base.specs.declared.limits.TheConstants.{GREATEST_COORDINATE};
ghost use Rattle.obj_prepare.specs.Numbers.{nearest};
ghost use Rattle.obj_prepare.specs.Boxes.{along};

/// The whole number nearest to a quotient, halves up. Its parts are at most 2^125.
#[tactic(auto, unfolding(crate::specs::Numbers::nearest))]
pub fn nearest(n: u128, d: u128) -> u128
    requires positive { 0 < d }
    requires room { n ≤ 2 ^ 125 }
    requires least { d ≤ 2 ^ 125 }
    ensures { result ≡ nearest n d }
{
    (2 * n + d) / (2 * d)
}

// A size times twice a way from the middle of a box.
fn stretched(size: u32, way: u128) -> u128
    requires size { size ≤ GREATEST_COORDINATE }
    requires way { way ≤ 2 * 10 ^ 32 }
    ensures value { result ≡ size * way }
    ensures bound { result ≤ 2 ^ 125 }
{
    u128::from(size) * way
}

/// The place of a coordinate along one axis of a box: `off` is twice its way from the middle, and
/// the extent of the box becomes twice the size. It is the nearest whole number, halves away from
/// 0, and at most the size away from 0.
#[tactic(auto, unfolding(crate::specs::Boxes::along), using(crate::proofs::NearestLaws::nearest_within))]
pub fn along(size: u32, extent: u128, off: i128) -> i32
    requires size { size ≤ GREATEST_COORDINATE }
    requires positive { 0 < extent }
    requires extent { extent ≤ 2 * 10 ^ 32 }
    requires within { unsigned_abs off ≤ extent }
    ensures value { result ≡ along size extent off }
    ensures within { unsigned_abs result ≤ size }
{
    let n = nearest(stretched(size, off.unsigned_abs()), extent) as i32;
    if off < 0 { -n } else { n }
}
