//! Points that fit the grid as they stand.
ghost use Rattle.std.specs.Prelude.{◌≡◌, ◌≤◌, ◌*◌, ◌%◌, ◌^◌, ◌==◌, ◌&&◌, nat_le, true};
ghost use Rattle.std.specs.Prelude.{unsigned_abs};
ghost use Rattle.pm_base.specs.declared.limits.TheConstants.{GREATEST_COORDINATE};
ghost use Rattle.obj_prepare.specs.Whole.{is_whole_coordinate, whole_part_of, stands_on_grid};

use crate::exact::ExactPoint;
use pm_base::GREATEST_COORDINATE;

// The units in one step of the grid, which are 2^18 times 5^18.
const STEP: u128 = 1_000_000_000_000_000_000;

const TWOS: u128 = 1 << 18;

const FIVES: u64 = 3_814_697_265_625;

// Whether a number of units is one of steps, and in range. It is divided in two parts, since the
// second fits 64 bits.
#[tactic(auto, using(crate::proofs::WholeLaws::steps_by_parts))]
fn are_steps(units: u128) -> bool
    ensures { result ≡ (units % 10 ^ 18 == 0 && nat_le units (GREATEST_COORDINATE * 10 ^ 18)) }
{
    if units > u128::from(GREATEST_COORDINATE) * STEP {
        return false;
    }
    units % TWOS == 0 && (units / TWOS) as u64 % FIVES == 0
}

fn is_whole(n: i128) -> bool
    ensures { result ≡ is_whole_coordinate n }
{
    are_steps(n.unsigned_abs())
}

/// Whether each coordinate of a point is a whole number, at most `GREATEST_COORDINATE` away from 0.
pub fn stands(p: &ExactPoint) -> bool
    ensures { result ≡ stands_on_grid p.now }
{
    is_whole(p.x()) && is_whole(p.y()) && is_whole(p.z())
}

/// The whole number that a coordinate is.
#[tactic(auto, using(crate::proofs::WholeLaws::quotient_by_parts))]
pub fn whole(n: i128) -> i32
    requires { is_whole_coordinate n ≡ true }
    ensures value { result ≡ whole_part_of n }
    ensures within { unsigned_abs result ≤ GREATEST_COORDINATE }
{
    let whole = ((n.unsigned_abs() / TWOS) as u64 / FIVES) as i32;
    if n < 0 { -whole } else { whole }
}
