//! Tests of pm_fit: rows worked by hand.
ghost use Rattle.std.specs.Prelude.{◌≤◌};

use pm_fit::{Moments, NumberSums, PlaceSums, Spot, fit};
use std::test::Fail;

// What is fitted at x to two places 1,000 apart along x, which have 100 and 2,100. The spread is
// 10^6, the ridge 245, and so the slope is 2 * 10^6 / 1,000,245.
fn along_a_line(x: u32) -> i128
    requires { x ≤ 65534 }
{
    let places = PlaceSums {
        x: 66_534,
        y: 65_534,
        z: 65_534,
        xx: 2_213_886_578,
        xy: 2_180_119_578,
        xz: 2_180_119_578,
        yy: 2_147_352_578,
        yz: 2_147_352_578,
        zz: 2_147_352_578,
    };
    let numbers = NumberSums {
        w: 2_200,
        wx: 74_187_400,
        wy: 72_087_400,
        wz: 72_087_400,
    };
    let moments = Moments {
        count: 2,
        places,
        numbers,
    };
    let place = Spot {
        x,
        y: 32_767,
        z: 32_767,
    };
    fit(&moments, &place)
}

// What is fitted at x to two places one apart along x, which have 0 and 4,000,000: the slope would
// be 2,000,000.
fn on_a_cliff(x: u32) -> i128
    requires { x ≤ 65534 }
{
    let places = PlaceSums {
        x: 1,
        y: 0,
        z: 0,
        xx: 1,
        xy: 0,
        xz: 0,
        yy: 0,
        yz: 0,
        zz: 0,
    };
    let numbers = NumberSums {
        w: 4_000_000,
        wx: 4_000_000,
        wy: 0,
        wz: 0,
    };
    let moments = Moments {
        count: 2,
        places,
        numbers,
    };
    fit(&moments, &Spot { x, y: 0, z: 0 })
}

#[test]
fn a_line_goes_on(rt: HostRuntime) -> Result<(), Fail> {
    assert!(rt; along_a_line(32_767) == 100);
    assert!(rt; along_a_line(33_267) == 1_100);
    assert!(rt; along_a_line(33_767) == 2_100);
    assert!(rt; along_a_line(34_767) == 4_099);
    Ok(())
}

#[test]
fn a_cliff_has_its_mean(rt: HostRuntime) -> Result<(), Fail> {
    assert!(rt; on_a_cliff(0) == 2_000_000);
    assert!(rt; on_a_cliff(1) == 2_000_000);
    Ok(())
}
