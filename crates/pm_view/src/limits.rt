//! The limits of views, which code and clauses cite by name.
ghost use Rattle.std.specs.Prelude.{◌≡◌, nat_le, unsigned_abs};

/// The greatest coordinate of the eye in absolute value. The eye may stand outside the range of
/// points.
pub const GREATEST_EYE_COORDINATE: u32 = 16_777_215;

/// The greatest focal length.
pub const GREATEST_FOCAL_LENGTH: u32 = 65_535;

/// The greatest tolerance.
pub const GREATEST_TOLERANCE: u32 = 65_535;

/// The greatest component of a plane's normal in absolute value: of the numbers a, b and c.
pub const GREATEST_NORMAL_COMPONENT: u32 = 32_767;

/// The greatest offset of a plane in absolute value: of the number d.
pub const GREATEST_OFFSET: u64 = 4_398_046_511_104;

// Clauses and definitions cite the limits by name, so their values are said here.
const _: () = prove!(GREATEST_EYE_COORDINATE == 16_777_215);

const _: () = prove!(GREATEST_FOCAL_LENGTH == 65_535);

const _: () = prove!(GREATEST_TOLERANCE == 65_535);

const _: () = prove!(GREATEST_NORMAL_COMPONENT == 32_767);

const _: () = prove!(GREATEST_OFFSET == 4_398_046_511_104);

/// Whether a number is at most `most` away from 0.
pub fn is_within(n: i32, most: u32) -> bool
    ensures { result ≡ nat_le (unsigned_abs n) most }
{
    n.unsigned_abs() <= most
}
