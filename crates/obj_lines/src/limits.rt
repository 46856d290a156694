//! The limits of texts, which code and clauses cite by name.

/// The most bytes of a line before its LF.
pub const MOST_LINE_BYTES: usize = 65_536;

/// The most bytes of a text.
pub const MOST_TEXT_BYTES: u32 = 1_073_741_824;

// Clauses and definitions cite the limits by name, so their values are said here.
const _: () = prove!(MOST_LINE_BYTES == 65_536);

const _: () = prove!(MOST_TEXT_BYTES == 1_073_741_824);
