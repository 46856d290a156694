//! Tests of pm_forest.
use pm_base::{FaceId, NodeId};
use pm_forest::Hierarchy;
use pm_samples::{face, octahedron};
use std::alloc::Global;
use std::test::Fail;

// The first leaves of the first eight nodes, and the leaves after their last ones.
fn intervals(h: &Hierarchy) -> ([u32; 8], [u32; 8]) {
    let mut from = [0u32; 8];
    let mut until = [0u32; 8];
    for node in 0..h.nodes().min(8) {
        let interval = h.interval(NodeId(node));
        from[node as usize] = interval.0;
        until[node as usize] = interval.1;
    }
    (from, until)
}

// The nodes of the first six leaves.
fn leaf_nodes(h: &Hierarchy) -> [u32; 6] {
    let mut nodes = [0u32; 6];
    for leaf in 0..h.leaves().min(6) {
        nodes[leaf as usize] = h.leaf_node(leaf).0;
    }
    nodes
}

fn is_octahedron(h: &Hierarchy) -> bool {
    let (from, until) = intervals(h);
    let are_counts = [h.roots(), h.nodes(), h.leaves(), h.faces()] == [4, 8, 6, 8];
    let are_intervals = from == [0, 1, 2, 4, 4, 5, 2, 3] && until == [1, 2, 4, 6, 5, 6, 3, 4];
    let are_leaves = leaf_nodes(h) == [0, 1, 6, 7, 4, 5];
    are_counts && are_intervals && are_leaves
}

fn has_last_face(h: &Hierarchy) -> bool {
    h.faces() == 8 && h.face_at(FaceId(7)) == face(3, 2, 1, 5)
}

fn shapes_an_octahedron(alloc: Global) -> Result<bool, Fail> {
    let h = octahedron(alloc)?;
    Ok(is_octahedron(&h) && has_last_face(&h))
}

#[test]
fn octahedron_has_its_nodes_and_faces(rt: HostRuntime) -> Result<(), Fail> {
    assert!(rt; shapes_an_octahedron(rt.alloc())?);
    Ok(())
}
