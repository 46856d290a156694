//! The limit of scripts, which code and clauses cite by name.

/// The most bytes of a script.
pub const MOST_SCRIPT_BYTES: u32 = 1_073_741_824;

// Clauses and definitions cite the limit by name, so its value is said here.
const _: () = prove!(MOST_SCRIPT_BYTES == 1_073_741_824);
