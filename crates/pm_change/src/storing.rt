//! Stores a change in arrays, from the sets of its numbers.
ghost use Rattle.std.specs.Prelude.{◌≡◌, ◌≤◌, ◌*◌, ℕ, true, length, take, drop};
ghost use Rattle.std.specs.Prelude.{IfOk, IfErr, OnOk, OnErr};
ghost use Rattle.std.specs.List.{flat_map};
ghost use Rattle.pm_base.specs.declared.limits.TheConstants.{MOST_NODES};
ghost use Rattle.pm_base.specs.Counts.{set_of};
ghost use Rattle.pm_forest.specs.Forest.{node_count};
ghost use Rattle.pm_forest.specs.Faces.{face_count};
ghost use Rattle.pm_forest.specs.Kept.{is_kept};
ghost use Rattle.pm_arrays.specs.Arrays.{coordinates_of, face_nodes};
ghost use Rattle.pm_change.specs.Arrays.{sizes_of_change, ChangeFits, BeginWith, LeavesBehind};
ghost use Rattle.pm_change.specs.Gathering.{numbers_in, size_of, HaveRoomFor};
ghost use Rattle.pm_change.specs.Storing.{change_in};

use crate::fitting::{ChangeSizes, fits, sizes_of_sets};
use crate::sets::ChangeSets;
use pm_arrays::{corners_of, store, store_place, store_three};
use pm_base::NodeId;
use pm_front::Front;
use pm_sets::NumberSet;

// Stores the numbers of a set at the front of an array, ascending.
fn store_numbers(numbers: &NumberSet, to: &mut [u32])
    requires few { length numbers.now ≤ MOST_NODES }
    requires room { size_of numbers.now ≤ length to.old }
    ensures stored { take (size_of numbers.now) to.new ≡ numbers_in numbers.now }
    ensures behind { drop (size_of numbers.now) to.new ≡ drop (size_of numbers.now) to.old }
{
    let mut count = 0;
    let mut from = 0;
    while let Some(number) = numbers.first_from(from) {
        store(to, count, number);
        count += 1;
        from = number + 1;
    }
}

// Stores the places of the nodes of a set, three coordinates for each.
fn store_places(front: &Front, nodes: &NumberSet, to: &mut [i32])
    requires there { length nodes.now ≡ node_count front.now.h }
    requires room { 3 * size_of nodes.now ≤ length to.old }
    ensures stored { take (3 * size_of nodes.now) to.new
        ≡ flat_map (coordinates_of front.now.h) (numbers_in nodes.now) }
    ensures behind { drop (3 * size_of nodes.now) to.new ≡ drop (3 * size_of nodes.now) to.old }
{
    front.invariant();
    let mut count = 0;
    let mut from = 0;
    while let Some(node) = nodes.first_from(from) {
        store_place(to, count, &front.hierarchy().place(NodeId(node)));
        count += 1;
        from = node + 1;
    }
}

// Stores the corners of the faces of a set, three nodes for each.
fn store_corners(front: &Front, faces: &NumberSet, to: &mut [u32])
    requires there { length faces.now ≡ face_count front.now.h }
    requires kept { (f : ℕ) → set_of faces.now f ≡ true
        → is_kept front.now.h (set_of front.now.flags) f ≡ true }
    requires room { 3 * size_of faces.now ≤ length to.old }
    ensures stored { take (3 * size_of faces.now) to.new
        ≡ flat_map (face_nodes front.now.h (set_of front.now.flags)) (numbers_in faces.now) }
    ensures behind { drop (3 * size_of faces.now) to.new ≡ drop (3 * size_of faces.now) to.old }
{
    front.invariant();
    let mut count = 0;
    let mut from = 0;
    while let Some(face) = faces.first_from(from) {
        store_three(to, count, corners_of(front, face));
        count += 1;
        from = face + 1;
    }
}

/// Stores the change whose numbers the sets have at the front of the arrays, where it fits, and
/// tells how large it is.
pub(crate) fn store_sets(
    front: &Front,
    sets: &ChangeSets,
    gone_faces: &mut [u32],
    gone_nodes: &mut [u32],
    new_nodes: &mut [u32],
    new_places: &mut [i32],
    put_faces: &mut [u32],
    put_corners: &mut [u32],
) -> Result<ChangeSizes, ChangeSizes>
    requires room { HaveRoomFor front.now.h sets.now }
    requires kept { (f : ℕ) → set_of sets.now.put_faces f ≡ true
        → is_kept front.now.h (set_of front.now.flags) f ≡ true }
    ensures fits { let c = change_in front.now.h (set_of front.now.flags) sets.now in
        OnOk result (ChangeFits (sizes_of_change c) (length gone_faces.old)
        (length gone_nodes.old) (length new_nodes.old) (length new_places.old)
        (length put_faces.old) (length put_corners.old)) }
    ensures refused { let c = change_in front.now.h (set_of front.now.flags) sets.now in
        OnErr result (ChangeFits (sizes_of_change c) (length gone_faces.old)
        (length gone_nodes.old) (length new_nodes.old) (length new_places.old)
        (length put_faces.old) (length put_corners.old) → ⊥) }
    ensures sizes { let c = change_in front.now.h (set_of front.now.flags) sets.now in
        IfOk result (λ s. s ≡ sizes_of_change c) }
    ensures wanted { let c = change_in front.now.h (set_of front.now.flags) sets.now in
        IfErr result (λ s. s ≡ sizes_of_change c) }
    ensures arrays { let c = change_in front.now.h (set_of front.now.flags) sets.now in
        OnOk result (BeginWith c gone_faces.new gone_nodes.new new_nodes.new new_places.new
        put_faces.new put_corners.new) }
    ensures behind { let c = change_in front.now.h (set_of front.now.flags) sets.now in
        OnOk result (LeavesBehind c gone_faces.old gone_nodes.old new_nodes.old new_places.old
        put_faces.old put_corners.old gone_faces.new gone_nodes.new new_nodes.new new_places.new
        put_faces.new put_corners.new) }
    ensures unwritten { OnErr result ((gone_faces.new ≡ gone_faces.old)
        × (gone_nodes.new ≡ gone_nodes.old) × (new_nodes.new ≡ new_nodes.old)
        × (new_places.new ≡ new_places.old) × (put_faces.new ≡ put_faces.old)
        × (put_corners.new ≡ put_corners.old)) }
{
    front.invariant();
    let sizes = sizes_of_sets(front, sets);
    if !fits(
        &sizes,
        gone_faces,
        gone_nodes,
        new_nodes,
        new_places,
        put_faces,
        put_corners,
    ) {
        return Err(sizes);
    }
    store_numbers(&sets.gone_faces, gone_faces);
    store_numbers(&sets.gone_nodes, gone_nodes);
    store_numbers(&sets.new_nodes, new_nodes);
    store_places(front, &sets.new_nodes, new_places);
    store_numbers(&sets.put_faces, put_faces);
    store_corners(front, &sets.put_faces, put_corners);
    Ok(sizes)
}
