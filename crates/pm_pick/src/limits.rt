//! The limit of the way of a ray, which code and clauses cite by name. The origin has the limit of
//! an eye.

/// The greatest component of a ray's way in absolute value.
pub const GREATEST_WAY_COMPONENT: u32 = 32_767;

// Clauses and definitions cite the limit by name, so its value is said here.
const _: () = prove!(GREATEST_WAY_COMPONENT == 32_767);
