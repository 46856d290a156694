//! The active nodes and their places.
ghost use Rattle.std.specs.Prelude.{◌≡◌, ◌+◌, ◌*◌, ◌≤◌, ◌<◌, ◌∷◌, [], ◌++◌, length, take, drop};
ghost use Rattle.pm_base.specs.Counts.{set_of};
ghost use Rattle.pm_forest.specs.Forest.{node_count};
ghost use Rattle.pm_front.specs.Shown.{active_nodes};
ghost use Rattle.pm_arrays.specs.Arrays.{coordinates_of, place_array, ArePositions};

use crate::storing::{store, store_place};
use pm_base::NodeId;
use pm_front::Front;

// Stores a node and its place behind the first `count` of them.
fn store_node(front: &Front, node: u32, count: usize, nodes: &mut [u32], places: &mut [i32])
    requires node { node < node_count front.now.h }
    requires nodes_fit { count < length nodes.old }
    requires places_fit { 3 * count + 3 ≤ length places.old }
    ensures node { take (count + 1) nodes.new ≡ take count nodes.old ++ node ∷ [] }
    ensures place { take (3 * (count + 1)) places.new
        ≡ take (3 * count) places.old ++ coordinates_of front.now.h node }
    ensures nodes_behind { drop (count + 1) nodes.new ≡ drop (count + 1) nodes.old }
    ensures places_behind { drop (3 * (count + 1)) places.new
        ≡ drop (3 * (count + 1)) places.old }
    ensures nodes_len { length nodes.new ≡ length nodes.old }
    ensures places_len { length places.new ≡ length places.old }
{
    store(nodes, count, node);
    store_place(places, count, &front.hierarchy().place(NodeId(node)));
}

/// Writes the numbers of the active nodes into `nodes`, ascending, and their places into `places`,
/// three coordinates for each. The arrays have just that room. `positions` has room for a number
/// for each node of the hierarchy: at an active node it tells then at which position of `nodes`
/// that stands, counted from 0. It costs a pass over all nodes, and takes no memory.
pub fn write_nodes(front: &Front, nodes: &mut [u32], places: &mut [i32], positions: &mut [u32])
    requires nodes_fit { length nodes.old
        ≡ length (active_nodes front.now.h (set_of front.now.flags)) }
    requires places_fit { length places.old
        ≡ 3 * length (active_nodes front.now.h (set_of front.now.flags)) }
    requires positions_fit { length positions.old ≡ node_count front.now.h }
    ensures nodes { nodes.new ≡ active_nodes front.now.h (set_of front.now.flags) }
    ensures places { places.new ≡ place_array front.now.h (set_of front.now.flags) }
    ensures positions { ArePositions front.now.h (set_of front.now.flags) positions.new }
{
    let mut count = 0u32;
    for node in 0..front.hierarchy().nodes() {
        if front.is_active(NodeId(node)) {
            store_node(front, node, count as usize, nodes, places);
            positions[node as usize] = count;
            count += 1;
        }
    }
}
