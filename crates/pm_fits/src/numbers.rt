//! What each leaf has: the number of its vertex of the input.
ghost use Rattle.std.specs.Prelude.{◌≡◌, ◌<◌, IfOk, length, replicate};
ghost use Rattle.pm_forest.specs.Forest.{leaf_count};
ghost use Rattle.pm_paint.specs.Inputs.{vertices_by_node};
ghost use Rattle.pm_fits.specs.Fits.{number_of, numbers_by_leaf};

use crate::OutOfMemory;
use pm_base::Items;
use pm_forest::Hierarchy;
use pm_paint::write_vertices;
use std::alloc::Global;

/// The greatest number in absolute value: with numbers in 65,536ths of a texture's width, 32 times
/// that width.
pub const GREATEST_NUMBER: u32 = 2_097_152;

// Clauses and definitions cite the limit by its name, so its value is said here.
const _: () = prove!(GREATEST_NUMBER == 2_097_152);

// So many zeros. The length is a parameter, so that no proof unfolds the list.
fn no_vertices(alloc: Global, most: usize) -> Result<Vec<u32>, OutOfMemory>
    ensures { IfOk result (λ v. v.items ≡ replicate most 0) }
{
    vec![in alloc; 0u32; most]
}

// The vertex of the input that each node is.
fn vertices(alloc: Global, h: &Hierarchy) -> Result<Vec<u32>, OutOfMemory>
    ensures { IfOk result (λ v. v.items ≡ vertices_by_node h.now) }
{
    let mut by_node = no_vertices(alloc, h.nodes() as usize)?;
    write_vertices(h, &mut by_node);
    Ok(by_node)
}

// What a leaf has.
fn leaf_number(h: &Hierarchy, vertices: &[u32], values: &[i32], leaf: u32) -> i32
    requires leaf { leaf < leaf_count h.now }
    requires vertices { vertices.now ≡ vertices_by_node h.now }
    requires len { length values.now ≡ leaf_count h.now }
    ensures { result ≡ number_of h.now values.now leaf }
{
    h.invariant();
    let vertex = vertices[h.leaf_node(leaf).0 as usize];
    values[vertex as usize]
}

/// What each leaf has, by the numbers of the input's vertices.
pub(crate) fn numbers_by_leaf(
    alloc: Global,
    h: &Hierarchy,
    values: &[i32],
) -> Result<Items<i32>, OutOfMemory>
    requires { length values.now ≡ leaf_count h.now }
    ensures { IfOk result (λ numbers. numbers.items ≡ numbers_by_leaf h.now values.now) }
{
    let vertices = vertices(alloc, h)?;
    let mut numbers = Items::new(alloc);
    numbers.reserve(h.leaves() as usize)?;
    for leaf in 0..h.leaves() {
        numbers.push_within_room(leaf_number(h, &vertices, values, leaf));
    }
    Ok(numbers)
}
