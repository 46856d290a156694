//! Tests of float_read: rows worked by hand.
use float_read::{FloatFault, double_coordinate, single_coordinate, whole_coordinate};
use std::test::Fail;

const ONE: i128 = 1_000_000_000_000_000_000;

#[test]
fn singles_are_read(rt: HostRuntime) -> Result<(), Fail> {
    assert!(rt; single_coordinate(0x3f80_0000) == Ok(ONE));
    assert!(rt; single_coordinate(0xbfc0_0000) == Ok(-ONE - ONE / 2));
    assert!(rt; single_coordinate(0) == Ok(0));
    assert!(rt; single_coordinate(0x8000_0000) == Ok(0));
    // 0.1 as a binary32 is 13421773 / 2^27 = 0.100000001490116119384765625.
    assert!(rt; single_coordinate(0x3dcc_cccd) == Ok(100_000_001_490_116_119));
    // 2^46, the greatest power within range, and 2^47.
    assert!(rt; single_coordinate(0x5680_0000) == Ok(70_368_744_177_664 * ONE));
    assert!(rt; single_coordinate(0x5700_0000) == Err(FloatFault::TooLarge));
    assert!(rt; single_coordinate(0x7f7f_ffff) == Err(FloatFault::TooLarge));
    // Infinities, and what isn't a number.
    assert!(rt; single_coordinate(0x7f80_0000) == Err(FloatFault::NotFinite));
    assert!(rt; single_coordinate(0xff80_0000) == Err(FloatFault::NotFinite));
    assert!(rt; single_coordinate(0x7fc0_0001) == Err(FloatFault::NotFinite));
    // The least above 0, and 2^-60 = 0.867 units, 2^-61 = 0.434 units.
    assert!(rt; single_coordinate(1) == Ok(0));
    assert!(rt; single_coordinate(0x2180_0000) == Ok(1));
    assert!(rt; single_coordinate(0xa180_0000) == Ok(-1));
    assert!(rt; single_coordinate(0x2100_0000) == Ok(0));
    Ok(())
}

#[test]
fn doubles_are_read(rt: HostRuntime) -> Result<(), Fail> {
    assert!(rt; double_coordinate(0x3ff0_0000_0000_0000) == Ok(ONE));
    assert!(rt; double_coordinate(0xbff8_0000_0000_0000) == Ok(-ONE - ONE / 2));
    // 0.1 as a binary64 is 0.1000000000000000055511151231257827...
    assert!(rt; double_coordinate(0x3fb9_9999_9999_999a) == Ok(100_000_000_000_000_006));
    // 10^14, the next above it, and 2^-19 units of halves: 2^-19 = 1907348632812.5 units.
    assert!(rt; double_coordinate(0x42d6_bcc4_1e90_0000) == Ok(100_000_000_000_000 * ONE));
    assert!(rt; double_coordinate(0x42d6_bcc4_1e90_0001) == Err(FloatFault::TooLarge));
    assert!(rt; double_coordinate(0x3ec0_0000_0000_0000) == Ok(1_907_348_632_813));
    assert!(rt; double_coordinate(0xbec0_0000_0000_0000) == Ok(-1_907_348_632_813));
    assert!(rt; double_coordinate(0x7ff0_0000_0000_0000) == Err(FloatFault::NotFinite));
    assert!(rt; double_coordinate(0xfff8_0000_0000_0000) == Err(FloatFault::NotFinite));
    assert!(rt; double_coordinate(0x7fef_ffff_ffff_ffff) == Err(FloatFault::TooLarge));
    assert!(rt; double_coordinate(1) == Ok(0));
    Ok(())
}

#[test]
fn whole_numbers_are_read(rt: HostRuntime) -> Result<(), Fail> {
    assert!(rt; whole_coordinate(-7) == Ok(-7 * ONE));
    assert!(rt; whole_coordinate(100_000_000_000_000) == Ok(100_000_000_000_000 * ONE));
    assert!(rt; whole_coordinate(-100_000_000_000_001) == Err(FloatFault::TooLarge));
    Ok(())
}
