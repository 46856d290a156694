//! How positions lead back to coordinates, as whole numbers.
ghost use Rattle.std.specs.Prelude.{◌≡◌, ◌≤◌, ◌*◌, ◌^◌, pos, unsigned_abs};
ghost use Rattle.obj_prepare.specs.Back.{middle};
ghost use Rattle.obj_prepare.specs.Placing.{IsSized};
ghost use Rattle.obj_fit.specs.Scales.{decimal_of, scale_in, scale_of_way};
ghost use Rattle.obj_prepare.specs.Back.{way_back_of};

use crate::notes::middle;
use crate::text::{SCALE_18, SCALE_19};
use obj_prepare::{Fit, PointBox, extent};

/// A number with D decimals: `whole + part / 10^D`, and less than zero where `negative`.
#[derive(Clone, Copy, Debug, PartialEq, Eq)]
pub struct Decimal {
    pub negative: bool,
    pub whole: u64,
    /// Less than 10^D.
    pub part: u64,
}

/// How positions lead back to coordinates: a coordinate is `extent / steps * position + middle`, to
/// within half a step.
#[derive(Clone, Copy, Debug, PartialEq, Eq)]
pub struct Scale {
    /// How long the longest axis of the bounding box is, with 18 decimals.
    pub extent: Decimal,
    /// Into how many steps it is divided: from 2 to 65,534.
    pub steps: u32,
    /// The middle of the bounding box on each axis, with 19 decimals.
    pub x: Decimal,
    pub y: Decimal,
    pub z: Decimal,
}

// A length in units of 10^-18.
fn length_of(n: u128) -> Decimal
    requires { n ≤ 3 * 10 ^ 32 }
    ensures { result ≡ decimal_of 18 (pos n) }
{
    Decimal {
        negative: false,
        whole: (n / u128::from(SCALE_18)) as u64,
        part: (n % u128::from(SCALE_18)) as u64,
    }
}

// The middle of an axis with these ends.
fn middle_of_axis(low: i128, high: i128) -> Decimal
    requires low { unsigned_abs low ≤ 10 ^ 32 }
    requires high { unsigned_abs high ≤ 10 ^ 32 }
    ensures { result ≡ decimal_of 19 (middle low high) }
{
    let n = middle(low, high);
    Decimal {
        negative: n < 0,
        whole: (n.unsigned_abs() / u128::from(SCALE_19)) as u64,
        part: (n.unsigned_abs() % u128::from(SCALE_19)) as u64,
    }
}

// The scale of points that were brought onto the grid by their box.
fn scale_by(size: u32, b: &PointBox) -> Scale
    requires { size ≤ 32767 }
    ensures { result ≡ scale_of_way (way_back_of size b.now) }
{
    Scale {
        extent: length_of(extent(b)),
        steps: 2 * size,
        x: middle_of_axis(b.low.x(), b.high.x()),
        y: middle_of_axis(b.low.y(), b.high.y()),
        z: middle_of_axis(b.low.z(), b.high.z()),
    }
}

/// How positions lead back to coordinates, where points were scaled; none where they stand as they
/// stood.
pub(crate) fn scale_of(fit: &Fit) -> Option<Scale>
    requires { IsSized fit.now }
    ensures { result ≡ scale_in fit.now }
{
    match fit {
        Fit::Standing => None,
        Fit::Scaled(size, b) => Some(scale_by(*size, b)),
    }
}
