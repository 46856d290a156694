//! The new vertices, by their heads: they are numbered in the order of the heads' keys.
ghost use Rattle.std.specs.Prelude.{◌≡◌, ℕ, ◌+◌, ◌*◌, ◌<◌, ◌≤◌, Some, length, slice_index, IfOk};
ghost use Rattle.std.specs.Prelude.{OnOk, MatchBool};
ghost use Rattle.pm_base.specs.declared.limits.TheConstants.{MOST_FACES, MOST_SIDES};
ghost use Rattle.pm_base.specs.Sides.{net_of, beside_side};
ghost use Rattle.pm_fans.specs.Heads.{HasHead};
ghost use Rattle.pm_fans.specs.HeadKeys.{order_key, side_of_key, AreCollected, AreHeadKeys};
ghost use Rattle.pm_fans.specs.HeadKeys.{AreKeyPlaces, new_of, AreRenamed};

use crate::OutOfMemory;
use crate::sides::from;
use pm_base::{Corners, FaceId, Side, SideMap};
use std::alloc::Global;

// A key has 22 bits for the side, one more for a closed chain, and above them the old vertex.
const SIDES: u64 = 1 << 22;

/// The keys of all heads, in ascending order. O(F log F) for F faces.
pub(crate) fn head_keys(
    alloc: Global,
    faces: &[Corners],
    glued: &SideMap,
    heads: &SideMap,
) -> Result<Vec<u64>, OutOfMemory>
    requires short { length faces.now ≤ MOST_FACES }
    requires glued { length glued.now ≡ 3 * length faces.now }
    requires heads { length heads.now ≡ 3 * length faces.now }
    ensures { IfOk result (λ keys. AreHeadKeys (net_of faces.now) glued.now heads.now keys.items) }
{
    let mut keys = Vec::new(alloc);
    for number in 0..heads.len() {
        push_head_key(&mut keys, faces, glued, heads, Side(number))?;
    }
    keys.sort_unstable();
    Ok(keys)
}

// Puts the key of a side, if that is a head.
fn push_head_key(
    keys: &mut Vec<u64>,
    faces: &[Corners],
    glued: &SideMap,
    heads: &SideMap,
    side: Side,
) -> Result<(), OutOfMemory>
    requires short { length faces.now ≤ MOST_FACES }
    requires in_range { side.0 < 3 * length faces.now }
    requires glued { length glued.now ≡ 3 * length faces.now }
    requires heads { length heads.now ≡ 3 * length faces.now }
    requires so_far { AreCollected (net_of faces.now) glued.now heads.now side.0 keys.old.items }
    ensures { OnOk result
        (AreCollected (net_of faces.now) glued.now heads.now (side.0 + 1) keys.new.items) }
{
    if !is_head(heads, side) {
        return Ok(());
    }
    keys.push(key(faces, glued, side))?;
    Ok(())
}

// Whether a side is the head of its chain.
fn is_head(heads: &SideMap, side: Side) -> bool
    requires { side.0 < length heads.now }
    ensures { MatchBool result (beside_side heads.now side.0 ≡ Some side.0)
        (beside_side heads.now side.0 ≡ Some side.0 → ⊥) }
{
    match heads.get(side) {
        Some(head) => head == side,
        None => false,
    }
}

// A head's key.
#[tactic(auto, unfolding(crate::specs::HeadKeys::order_key))]
fn key(faces: &[Corners], glued: &SideMap, side: Side) -> u64
    requires in_range { side.0 < 3 * length faces.now }
    requires glued { length glued.now ≡ 3 * length faces.now }
    requires short { length faces.now ≤ MOST_FACES }
    ensures { result ≡ order_key (net_of faces.now) glued.now side.0 }
{
    let closed = u64::from(glued.get(side).is_some());
    (u64::from(from(faces, side)) * 2 + closed) * SIDES + u64::from(side.0)
}

// The side in a key.
fn side_of(key: u64) -> Side
    ensures { result.0 ≡ side_of_key key }
{
    Side((key % SIDES) as u32)
}

/// For each side that is a head, the place of its key. O(F) for F faces.
pub(crate) fn key_places(alloc: Global, keys: &[u64], sides: usize) -> Result<Vec<u32>, OutOfMemory>
    requires few { length keys.now ≤ MOST_SIDES }
    requires in_range { (i : ℕ) → i < length keys.now
        → side_of_key (slice_index keys.now i) < sides }
    requires apart { (i j : ℕ) → i < j → j < length keys.now
        → side_of_key (slice_index keys.now i) ≡ side_of_key (slice_index keys.now j) → ⊥ }
    ensures { IfOk result (λ places. AreKeyPlaces keys.now places.items sides (length keys.now)) }
{
    let mut places = vec![in alloc; 0; sides]?;
    for place in 0..keys.len() {
        places[side_of(keys[place]).0 as usize] = place as u32;
    }
    Ok(places)
}

/// The old vertex of each new one. O(F) for F faces.
pub(crate) fn old_vertices(
    alloc: Global,
    faces: &[Corners],
    keys: &[u64],
) -> Result<Vec<u32>, OutOfMemory>
    requires { (i : ℕ) → i < length keys.now
        → side_of_key (slice_index keys.now i) < 3 * length faces.now }
    ensures sides { IfOk result (λ old. length old.items ≡ length keys.now) }
    ensures each { IfOk result (λ old. (i : ℕ) → i < length keys.now
        → slice_index old.items i
        ≡ (net_of faces.now).from (side_of_key (slice_index keys.now i))) }
{
    let mut old = Vec::new(alloc);
    for place in 0..keys.len() {
        old.push(from(faces, side_of(keys[place])))?;
    }
    Ok(old)
}

/// As many faces with their new vertices. O(F) for F faces.
pub(crate) fn new_faces(
    alloc: Global,
    heads: &SideMap,
    places: &[u32],
    count: u32,
) -> Result<Vec<Corners>, OutOfMemory>
    requires few { count ≤ MOST_FACES }
    requires sides { length heads.now ≡ 3 * count }
    requires headed { (e : ℕ) → e < length heads.now → HasHead heads.now e }
    requires in_range { (e h : ℕ) → beside_side heads.now e ≡ Some h → h < length places.now }
    ensures { IfOk result (λ new. AreRenamed heads.now places.now count new.items) }
{
    let mut faces = Vec::new(alloc);
    for number in 0..count {
        let face = FaceId(number);
        let a = new_vertex(heads, places, face.side(0));
        let b = new_vertex(heads, places, face.side(1));
        let c = new_vertex(heads, places, face.side(2));
        faces.push(Corners { a, b, c })?;
    }
    Ok(faces)
}

// The new vertex of a side.
fn new_vertex(heads: &SideMap, places: &[u32], side: Side) -> u32
    requires in_range { side.0 < length heads.now }
    requires headed { HasHead heads.now side.0 }
    requires heads { (e h : ℕ) → beside_side heads.now e ≡ Some h → h < length places.now }
    ensures { result ≡ new_of heads.now places.now side.0 }
{
    let Some(head) = heads.get(side) else {
        unreachable!()
    };
    places[head.0 as usize]
}
