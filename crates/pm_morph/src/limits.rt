//! The limit of the parts that a morph's way is cut into, which code and clauses cite by name.

/// The greatest number of parts of the way from the marked front to the one that is shown.
pub const MOST_PARTS: u32 = 65_535;

// Clauses and definitions cite the limit by name, so its value is said here.
const _: () = prove!(MOST_PARTS == 65_535);
