//! The limits of meshes and of their hierarchies, which code and clauses cite by name.

/// The most vertices of a mesh, and so the most leaves, roots and records of its hierarchy.
pub const MOST_VERTICES: u32 = 1_048_576;

/// The most faces of a mesh or of a hierarchy.
pub const MOST_FACES: u32 = 1_048_576;

/// The most sides of faces: three for each of `MOST_FACES`.
pub const MOST_SIDES: u32 = 3_145_728;

/// The most nodes of a hierarchy: fewer than two for each of its leaves. A run of collapses names
/// no more vertices.
pub const MOST_NODES: u32 = 2_097_152;

/// The greatest coordinate of a point in absolute value, in units of the grid. With it a quadric's
/// value stays within 128 bits.
pub const GREATEST_COORDINATE: u32 = 32_767;

// Clauses and definitions cite the limits by name, so their values are said here.
const _: () = prove!(MOST_VERTICES == 1_048_576);

const _: () = prove!(MOST_FACES == 1_048_576);

const _: () = prove!(MOST_SIDES == 3 * MOST_FACES);

const _: () = prove!(MOST_NODES == 2 * MOST_VERTICES);

const _: () = prove!(GREATEST_COORDINATE == 32_767);
