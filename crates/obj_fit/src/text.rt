//! Text that is put together in memory.
ghost use Rattle.std.specs.Prelude.{◌≡◌, ◌<◌, ◌≤◌, ◌+◌, ◌*◌, ◌^◌, ◌++◌, codes, OnOk, pos};
ghost use Rattle.std.specs.Prelude.{unsigned_abs};
ghost use Rattle.std.specs.Fmt.{decimal};
ghost use Rattle.pm_base.specs.Canonical.{last_digits, minus_if, coordinate_text};

use itoa::Buffer;
use std::alloc::AllocError;

// 10 to the power of 18, and of 19.
pub(crate) const SCALE_18: u64 = 1_000_000_000_000_000_000;

pub(crate) const SCALE_19: u64 = 10_000_000_000_000_000_000;

/// Adds a number in decimal digits.
pub fn add_number(text: &mut Vec<u8>, n: u64) -> Result<(), AllocError>
    ensures { OnOk result (text.new.items ≡ text.old.items ++ decimal n) }
{
    let mut buffer = Buffer::new();
    text.extend_from_slice(buffer.format(n).as_bytes())
}

// A tenth of 10 to a power.
#[tactic(auto, using(crate::proofs::TextLaws::tenth_is, crate::proofs::TextLaws::power_some))]
fn tenth(power: u32, unit: u64) -> u64
    requires few { power ≤ 19 }
    requires unit { unit ≡ 10 ^ (power + 1) }
    ensures value { result ≡ 10 ^ power }
    ensures some { 0 < result }
{
    unit / 10
}

// Adds the last digits of a number, exactly so many. The scale is 10 to their number.
#[tactic(auto, using(crate::proofs::TextLaws::whole_power))]
fn add_digits(text: &mut Vec<u8>, digits: u32, scale: u64, n: u64) -> Result<(), AllocError>
    requires few { digits ≤ 19 }
    requires scale { scale ≡ 10 ^ digits }
    ensures { OnOk result (text.new.items ≡ text.old.items ++ last_digits digits n) }
{
    let mut left = digits;
    let mut unit = scale;
    while 0 < left {
        left -= 1;
        unit = tenth(left, unit);
        text.push(b'0' + (n / unit % 10) as u8)?;
    }
    Ok(())
}

// Adds a number with decimals: what stands before the point, and so many digits after it.
fn add_parts(
    text: &mut Vec<u8>,
    negative: bool,
    whole: u64,
    digits: u32,
    scale: u64,
    part: u64,
) -> Result<(), AllocError>
    requires few { digits ≤ 19 }
    requires scale { scale ≡ 10 ^ digits }
    ensures { OnOk result (text.new.items ≡ text.old.items
        ++ (minus_if negative ++ decimal whole ++ codes "." ++ last_digits digits part)) }
{
    if negative {
        text.extend_from_slice(b"-")?;
    }
    add_number(text, whole)?;
    text.extend_from_slice(b".")?;
    add_digits(text, digits, scale, part)
}

/// Adds a length in units of 10^-18.
#[tactic(auto, unfolding(pm_base::specs::Canonical::coordinate_text))]
pub fn add_length(text: &mut Vec<u8>, n: u128) -> Result<(), AllocError>
    requires { n ≤ 3 * 10 ^ 32 }
    ensures { OnOk result (text.new.items ≡ text.old.items ++ coordinate_text 18 (pos n)) }
{
    let whole = (n / u128::from(SCALE_18)) as u64;
    let part = (n % u128::from(SCALE_18)) as u64;
    add_parts(text, false, whole, 18, SCALE_18, part)
}

/// Adds a coordinate in units of 10^-19.
#[tactic(auto, unfolding(pm_base::specs::Canonical::coordinate_text))]
pub fn add_coordinate(text: &mut Vec<u8>, n: i128) -> Result<(), AllocError>
    requires { unsigned_abs n ≤ 10 ^ 33 }
    ensures { OnOk result (text.new.items ≡ text.old.items ++ coordinate_text 19 n) }
{
    let whole = (n.unsigned_abs() / u128::from(SCALE_19)) as u64;
    let part = (n.unsigned_abs() % u128::from(SCALE_19)) as u64;
    add_parts(text, n < 0, whole, 19, SCALE_19, part)
}
