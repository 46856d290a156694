//! Quotients to the nearest whole number, and roots rounded down.
ghost use Rattle.std.specs.Prelude.{ℕ, ◌≡◌, true, ◌<◌, ◌≤◌, ◌+◌, ◌*◌, ◌^◌, unsigned_abs};
ghost use Rattle.std.specs.Prelude.{pos, int_lt, ◌-ℤ◌, ◌*ℤ◌};
ghost use Rattle.std.specs.Int.{int_div_euclid};
ghost use Rattle.pm_fine.specs.Rounded.{near, root};

// One turn of Newton's rule towards 2^31 times the inverse root of x / 2^32. It only multiplies: a
// division takes ten times as long.
fn nearer(x: u64, y: u64) -> u64 {
    let square = y.wrapping_mul(y) >> 32;
    let lacks = 0xc000_0000_0000_0000u64.wrapping_sub(x.wrapping_mul(square));
    (lacks >> 32).wrapping_mul(y) >> 31
}

// About 2^31 times the inverse root of x / 2^32, where x has 31 or 32 binary digits. The parabola
// is at most 2.5 per cent off, and each turn squares what is lacking.
fn inverse_root(x: u64) -> u64 {
    let short = x >> 16;
    let slope = 0x1_a487u64.wrapping_sub(0xd1bdu64.wrapping_mul(short) >> 16);
    let start = 0x1_55dd_ef1du64.wrapping_sub(slope.wrapping_mul(short));
    nearer(x, nearer(x, start))
}

// About the root of m, where m has 63 or 64 binary digits, by such an inverse: a number below it,
// and what that lacks. A hundredth more makes up for what is cut off.
fn short_guess(m: u64, inverse: u64) -> u64 {
    let below = ((m >> 32).wrapping_mul(inverse) >> 31).wrapping_sub(8);
    let lacks = m.wrapping_sub(below.wrapping_mul(below));
    let more = (lacks >> 16).wrapping_add(1400).wrapping_mul(inverse);
    below.wrapping_add(more >> 48)
}

// The last 64 binary digits of n.
fn last_digits(n: u128) -> u64 {
    (n & 0xffff_ffff_ffff_ffff) as u64
}

// About the root of n, which has more than 64 binary digits: that of its first 63 or 64, and what
// that lacks.
fn long_guess(n: u128) -> u64 {
    let down = 32u32.wrapping_sub(n.leading_zeros() / 2);
    let first = last_digits(n.wrapping_shr(down.wrapping_mul(2)));
    let inverse = inverse_root(first >> 32);
    let below = short_guess(first, inverse)
        .wrapping_sub(1)
        .wrapping_shl(down);
    let lacks = n.wrapping_sub(u128::from(below) * u128::from(below));
    let half = last_digits(lacks.wrapping_shr(down.wrapping_add(1)));
    let more = u128::from(half) * u128::from(nearer(first >> 32, inverse));
    below.wrapping_add(last_digits(more >> 63))
}

// About the root of n. No clause tells how near it is, so it has to be tried.
fn guessed_root(n: u128) -> u64 {
    match u64::try_from(n) {
        Ok(small) => {
            let up = small.leading_zeros() / 2;
            let first = small.wrapping_shl(up.wrapping_mul(2));
            short_guess(first, inverse_root(first >> 32)).wrapping_shr(up)
        }
        Err(_) => long_guess(n),
    }
}

// Whether r is the greatest whole number whose square is at most n.
fn is_root(n: u128, r: u64) -> bool
    ensures square { result ≡ true → r * r ≤ n }
    ensures next { result ≡ true → n < (r + 1) * (r + 1) }
{
    let r = u128::from(r);
    r * r <= n && n - r * r <= 2 * r
}

/// The greatest whole number whose square is at most n. It is guessed, or one less than that, but
/// for one number in some seven hundred, for which there is a search of 64 steps.
#[tactic(auto, using(crate::proofs::RootLaws::root_only))]
pub(crate) fn root(n: u128) -> u64
    ensures value { result ≡ root n }
    ensures square { result * result ≤ n }
    ensures next { n < (result + 1) * (result + 1) }
{
    let guess = guessed_root(n);
    if is_root(n, guess) {
        return guess;
    }
    let below = guess.wrapping_sub(1);
    if is_root(n, below) {
        return below;
    }
    n.isqrt() as u64
}

/// About 2^63 / b, for quotients by b. No clause tells how near it is.
pub(crate) fn inverse_of(b: u64) -> u64 {
    match u64::MAX.checked_div(b.wrapping_mul(2)) {
        Some(inverse) => inverse,
        None => 0,
    }
}

// About a / 2^64 times the inverse of a divisor.
fn guessed_quotient(a: i64, inverse: u64) -> i64 {
    let product = i128::from(a).wrapping_mul(i128::from(inverse));
    match i64::try_from(product >> 64) {
        Ok(guess) => guess,
        Err(_) => 0,
    }
}

// The product of two numbers.
fn product(a: i64, b: i64) -> i128
    ensures value { result ≡ a *ℤ b }
    ensures small { unsigned_abs result ≤ 2 ^ 126 }
{
    i128::from(a) * i128::from(b)
}

// What a number is above a product.
fn rest(a: i64, product: i128) -> i128
    requires { unsigned_abs product ≤ 2 ^ 126 }
    ensures { result ≡ a -ℤ product }
{
    i128::from(a) - product
}

// The quotient whose remainder is from 0 on and below b. Where it isn't what is guessed it is
// divided.
#[tactic(auto, using(crate::proofs::QuotientLaws::quotient_only))]
fn divided(a: i64, b: i64, guess: i64) -> i64
    requires { int_lt (pos 0) b ≡ true }
    ensures { result ≡ int_div_euclid a b }
{
    let rest = rest(a, product(guess, b));
    if 0 <= rest && rest < i128::from(b) {
        return guess;
    }
    a.div_euclid(b)
}

/// The whole number nearest to a / b, by about the inverse of b.
pub(crate) fn near(a: i64, b: u64, inverse: u64) -> i64
    requires a_small { unsigned_abs a ≤ 2 ^ 61 }
    requires b_small { b ≤ 2 ^ 60 }
    requires some { 0 < b }
    ensures value { result ≡ near a b }
    ensures within { (m : ℕ) → unsigned_abs a ≤ m * b → unsigned_abs result ≤ m }
{
    let b = b as i64;
    let above = 2 * a + b;
    divided(above, 2 * b, guessed_quotient(above, inverse))
}

/// The same of numbers that need not fit in 64 bits.
pub fn near_wide(a: i128, b: u64) -> i128
    requires a_small { unsigned_abs a ≤ 2 ^ 72 }
    requires some { 0 < b }
    ensures value { result ≡ near a b }
    ensures within { (m : ℕ) → unsigned_abs a ≤ m * b → unsigned_abs result ≤ m }
{
    let b = i128::from(b);
    (2 * a + b).div_euclid(2 * b)
}
