//! Tests of pm_bounds.
ghost use Rattle.std.specs.Prelude.{◌≡◌, length};
ghost use Rattle.pm_forest.specs.Forest.{node_count};

use pm_base::{NodeId, Normal};
use pm_bounds::{Bounds, NormalBox};
use pm_forest::Hierarchy;
use pm_samples::{Unit, face, head, octahedron, shaped};
use std::alloc::Global;
use std::test::Fail;

// A square of two faces, one vertex of which was merged into another, and a vertex without faces.
fn square(alloc: Global) -> Result<Hierarchy, Fail> {
    let units = [
        Unit::Root([0, 10, 0], 1, 3),
        Unit::Root([10, 10, 0], 1, 4),
        Unit::Root([0, 0, 0], 2, 0),
        Unit::Root([7, 7, 7], 1, 5),
        Unit::Base(face(2, 1, 0, 2)),
        Unit::Head(head(2, ([0, 0, 0], 1), ([10, 0, 0], 2), 1)),
        Unit::Face(face(2, 3, 1, 1), 0, 1),
    ];
    shaped(alloc, [5, 4, 1, 1], &units)
}

// The errors and the radii of the first eight nodes, and 0 beyond the last node.
fn measures(h: &Hierarchy, bounds: &Bounds) -> ([u64; 8], [u64; 8])
    requires { length bounds.now.errors ≡ node_count h.now }
{
    let mut errors = [0u64; 8];
    let mut radii = [0u64; 8];
    for node in 0..h.nodes().min(8) {
        errors[node as usize] = bounds.error(NodeId(node));
        radii[node as usize] = bounds.radius(NodeId(node));
    }
    (errors, radii)
}

fn octahedron_measures(alloc: Global) -> Result<([u64; 8], [u64; 8]), Fail> {
    let h = octahedron(alloc)?;
    let bounds = Bounds::of(alloc, &h)?;
    Ok(measures(&h, &bounds))
}

#[test]
fn errors_and_radii_of_the_octahedron(rt: HostRuntime) -> Result<(), Fail> {
    let (errors, radii) = octahedron_measures(rt.alloc())?;
    assert!(rt; errors == [0, 0, 71, 71, 0, 0, 0, 0]);
    assert!(rt; radii == [142, 142, 213, 213, 142, 142, 142, 142]);
    Ok(())
}

// The box of one normal, which stands upright.
fn upright(height: i64) -> NormalBox {
    let normal = Normal {
        x: 0,
        y: 0,
        z: height,
    };
    NormalBox {
        low: normal,
        high: normal,
    }
}

// Whether the boxes of the nodes are of one upright normal each, of these heights.
fn are_upright(h: &Hierarchy, bounds: &Bounds, heights: &[i64]) -> bool
    requires { length bounds.now.errors ≡ node_count h.now }
{
    let nodes = h.nodes();
    for node in 0..nodes {
        let Some(&height) = heights.get(node as usize) else {
            return false;
        };
        if bounds.normals(NodeId(node)) != upright(height) {
            return false;
        }
    }
    heights.len() == nodes as usize
}

fn is_square_bounded(h: &Hierarchy, bounds: &Bounds) -> bool
    requires { length bounds.now.errors ≡ node_count h.now }
{
    let (errors, radii) = measures(h, bounds);
    let far = errors == [0, 0, 10, 0, 0, 0, 0, 0] && radii == [10, 15, 20, 0, 15, 10, 0, 0];
    far && are_upright(h, bounds, &[100, 100, 100, 0, 100, 100])
}

fn square_is_bounded(alloc: Global) -> Result<bool, Fail> {
    let h = square(alloc)?;
    let bounds = Bounds::of(alloc, &h)?;
    Ok(is_square_bounded(&h, &bounds))
}

#[test]
fn boxes_of_the_square_and_of_a_vertex_apart(rt: HostRuntime) -> Result<(), Fail> {
    assert!(rt; square_is_bounded(rt.alloc())?);
    Ok(())
}
