//! The numbers of a file whose numbers are bytes.
ghost use Rattle.std.specs.Prelude.{◌≡◌, ◌≤◌, ◌<◌, ◌^◌, IfOk, unsigned_abs};
ghost use Rattle.ply_read.specs.Numbers.{size, byte_at, two_bytes, four_bytes, eight_bytes};
ghost use Rattle.ply_read.specs.Numbers.{signed, binary_coordinate, below, binary_whole};

use crate::declared::{Order, ScalarType};
use float_read::{FloatFault, double_coordinate, single_coordinate, whole_coordinate};

/// How many bytes a number has.
pub(crate) fn size(scalar: ScalarType) -> usize
    ensures value { result ≡ size scalar }
    ensures few { result ≤ 8 }
{
    match scalar {
        ScalarType::Int8 | ScalarType::Uint8 => 1,
        ScalarType::Int16 | ScalarType::Uint16 => 2,
        ScalarType::Int32 | ScalarType::Uint32 | ScalarType::Float32 => 4,
        ScalarType::Float64 => 8,
    }
}

// The byte at a place, or 0 past the last one.
fn byte_at(bytes: &[u8], at: usize) -> u8
    ensures { result ≡ byte_at bytes.now at }
{
    bytes.get(at).copied().unwrap_or(0)
}

#[tactic(auto, unfolding(crate::specs::Numbers::two_bytes))]
fn two_bytes(order: Order, bytes: &[u8], at: usize) -> u16
    requires { at < 8 }
    ensures { result ≡ two_bytes order bytes.now at }
{
    let first = u16::from(byte_at(bytes, at));
    let second = u16::from(byte_at(bytes, at + 1));
    match order {
        Order::Little => first + 256 * second,
        Order::Big => 256 * first + second,
    }
}

#[tactic(auto, unfolding(crate::specs::Numbers::four_bytes))]
fn four_bytes(order: Order, bytes: &[u8], at: usize) -> u32
    requires { at < 6 }
    ensures { result ≡ four_bytes order bytes.now at }
{
    let first = u32::from(two_bytes(order, bytes, at));
    let second = u32::from(two_bytes(order, bytes, at + 2));
    match order {
        Order::Little => first + 65_536 * second,
        Order::Big => 65_536 * first + second,
    }
}

#[tactic(auto, unfolding(crate::specs::Numbers::eight_bytes))]
fn eight_bytes(order: Order, bytes: &[u8]) -> u64
    ensures { result ≡ eight_bytes order bytes.now }
{
    let first = u64::from(four_bytes(order, bytes, 0));
    let second = u64::from(four_bytes(order, bytes, 4));
    match order {
        Order::Little => first + 4_294_967_296 * second,
        Order::Big => 4_294_967_296 * first + second,
    }
}

// A number whose upper half stands for those below 0.
#[tactic(auto, unfolding(crate::specs::Numbers::signed))]
fn signed(half: u32, n: u32) -> i64
    ensures { result ≡ signed half n }
{
    if n < half {
        i64::from(n)
    } else {
        i64::from(n) - 2 * i64::from(half)
    }
}

/// The coordinate that the bytes of a number are.
#[tactic(auto, unfolding(crate::specs::Numbers::binary_coordinate))]
pub(crate) fn binary_coordinate(
    order: Order,
    scalar: ScalarType,
    bytes: &[u8],
) -> Result<i128, FloatFault>
    ensures value { result ≡ binary_coordinate order scalar bytes.now }
    ensures range { IfOk result (λ x. unsigned_abs x ≤ 10 ^ 32) }
{
    match scalar {
        ScalarType::Int8 => whole_coordinate(signed(128, u32::from(byte_at(bytes, 0)))),
        ScalarType::Uint8 => whole_coordinate(i64::from(byte_at(bytes, 0))),
        ScalarType::Int16 => {
            whole_coordinate(signed(32_768, u32::from(two_bytes(order, bytes, 0))))
        }
        ScalarType::Uint16 => whole_coordinate(i64::from(two_bytes(order, bytes, 0))),
        ScalarType::Int32 => whole_coordinate(signed(2_147_483_648, four_bytes(order, bytes, 0))),
        ScalarType::Uint32 => whole_coordinate(i64::from(four_bytes(order, bytes, 0))),
        ScalarType::Float32 => single_coordinate(four_bytes(order, bytes, 0)),
        ScalarType::Float64 => double_coordinate(eight_bytes(order, bytes)),
    }
}

fn below(half: u32, n: u32) -> Option<u32>
    ensures { result ≡ below half n }
{
    if n < half { Some(n) } else { None }
}

/// The whole number from 0 on that the bytes of a number are.
#[tactic(auto, unfolding(crate::specs::Numbers::binary_whole))]
pub(crate) fn binary_whole(order: Order, scalar: ScalarType, bytes: &[u8]) -> Option<u32>
    ensures { result ≡ binary_whole order scalar bytes.now }
{
    match scalar {
        ScalarType::Int8 => below(128, u32::from(byte_at(bytes, 0))),
        ScalarType::Uint8 => Some(u32::from(byte_at(bytes, 0))),
        ScalarType::Int16 => below(32_768, u32::from(two_bytes(order, bytes, 0))),
        ScalarType::Uint16 => Some(u32::from(two_bytes(order, bytes, 0))),
        ScalarType::Int32 => below(2_147_483_648, four_bytes(order, bytes, 0)),
        ScalarType::Uint32 => Some(four_bytes(order, bytes, 0)),
        ScalarType::Float32 | ScalarType::Float64 => None,
    }
}
