//! Patches of faces that are mates, found by joining them pair by pair.
ghost use Rattle.std.specs.Prelude.{◌≡◌, ◌≢◌, ℕ, ◌+◌, ◌*◌, ◌<◌, ◌≤◌, ◌||◌, true};
ghost use Rattle.std.specs.Prelude.{length, slice_index_or};
ghost use Rattle.pm_base.specs.Sides.{Net, net_of, side_count, face_of};
ghost use Rattle.pm_turn.specs.Turning.{flipped_if as flipped_if_of, clash as clash_of, AreMates};
ghost use Rattle.pm_turn.specs.Unions.{Up, AreElders, AreTables, AreMated, AreShorter, under};
ghost use Rattle.pm_turn.specs.Unions.{marked, elders_of};

use crate::sides::from;
use pm_base::{Corners, Side, SideMap};

/// The face that stands for a patch, and whether the way to it is odd.
#[derive(Clone, Copy, Debug, PartialEq, Eq)]
pub(crate) struct Root {
    pub(crate) face: u32,
    pub(crate) parity: bool,
}

/// The flag, turned round if told so.
pub(crate) fn flipped_if(turn: bool, flag: bool) -> bool
    ensures { result ≡ flipped_if_of turn flag }
{
    if turn { !flag } else { flag }
}

/// What each face has: its elder, whether the way to that is odd, and of a face that stands for a
/// patch whether an odd closed way was found in it.
#[derive(Drop)]
pub(crate) struct Patches {
    pub(crate) elders: Vec<u32>,
    pub(crate) parities: Vec<bool>,
    pub(crate) odd: Vec<bool>,
}

// The elder of a face's elder becomes its own, unless the elder stands for the patch.
fn shorten(p: &mut Patches, face: u32)
    requires in_range { face < length p.old.elders.items }
    requires tables { AreTables (length p.old.elders.items) p.old.elders.items p.old.parities.items
        p.old.odd.items }
    requires below { (x : ℕ) → slice_index_or p.old.elders.items x 0 ≤ x }
    requires apart { slice_index_or p.old.elders.items face 0 ≢ face }
    ensures tables { AreTables (length p.old.elders.items) p.new.elders.items p.new.parities.items
        p.new.odd.items }
    ensures shorter { AreShorter (elders_of p.old.elders.items p.old.parities.items p.old.odd.items)
        (elders_of p.new.elders.items p.new.parities.items p.new.odd.items) }
{
    let elder = p.elders[face as usize];
    let next = p.elders[elder as usize];
    if next != elder {
        let parity = flipped_if(p.parities[elder as usize], p.parities[face as usize]);
        p.elders[face as usize] = next;
        p.parities[face as usize] = parity;
    }
}

/// The face that stands for the patch of a face. The way to it is about halved, so that all
/// searches together take O(F log F) for F faces.
pub(crate) fn root_of(p: &mut Patches, face: u32) -> Root
    requires in_range { face < length p.old.elders.items }
    requires tables { AreTables (length p.old.elders.items) p.old.elders.items p.old.parities.items
        p.old.odd.items }
    requires below { (x : ℕ) → slice_index_or p.old.elders.items x 0 ≤ x }
    ensures tables { AreTables (length p.old.elders.items) p.new.elders.items p.new.parities.items
        p.new.odd.items }
    ensures shorter { AreShorter (elders_of p.old.elders.items p.old.parities.items p.old.odd.items)
        (elders_of p.new.elders.items p.new.parities.items p.new.odd.items) }
    ensures low { result.face < length p.old.elders.items }
    ensures root { Up (elders_of p.new.elders.items p.new.parities.items p.new.odd.items) face
        result.face result.parity }
{
    let mut at = face;
    let mut parity = false;
    while p.elders[at as usize] != at {
        shorten(p, at);
        parity = flipped_if(p.parities[at as usize], parity);
        at = p.elders[at as usize];
    }
    Root { face: at, parity }
}

// Whether one of two flags is set.
fn either(one: bool, other: bool) -> bool
    ensures { result ≡ (one || other) }
{
    one || other
}

// The patch for which `high` stands goes under `low`.
fn put_under(p: &mut Patches, low: u32, high: u32, parity: bool)
    requires low { low < length p.old.elders.items }
    requires high { high < length p.old.elders.items }
    requires tables { AreTables (length p.old.elders.items) p.old.elders.items p.old.parities.items
        p.old.odd.items }
    ensures tables { AreTables (length p.old.elders.items) p.new.elders.items p.new.parities.items
        p.new.odd.items }
    ensures value { elders_of p.new.elders.items p.new.parities.items p.new.odd.items
        ≡ under (elders_of p.old.elders.items p.old.parities.items p.old.odd.items) low high
        parity }
{
    let odd = either(p.odd[low as usize], p.odd[high as usize]);
    p.elders[high as usize] = low;
    p.parities[high as usize] = parity;
    p.odd[low as usize] = odd;
}

// An odd closed way was found in the patch for which this face stands.
fn mark(p: &mut Patches, root: u32)
    requires root { root < length p.old.elders.items }
    requires tables { AreTables (length p.old.elders.items) p.old.elders.items p.old.parities.items
        p.old.odd.items }
    ensures tables { AreTables (length p.old.elders.items) p.new.elders.items p.new.parities.items
        p.new.odd.items }
    ensures value { elders_of p.new.elders.items p.new.parities.items p.new.odd.items
        ≡ marked (elders_of p.old.elders.items p.old.parities.items p.old.odd.items) root }
{
    p.odd[root as usize] = true;
}

// Whether two sides run from one vertex.
fn clash(faces: &[Corners], side: Side, mate: Side) -> bool
    requires side { side.0 < 3 * length faces.now }
    requires mate { mate.0 < 3 * length faces.now }
    ensures { result ≡ clash_of (net_of faces.now) side.0 mate.0 }
{
    from(faces, side) == from(faces, mate)
}

// Joins two patches at a pair of mates, as the ways up from the two faces tell.
fn join_roots(p: &mut Patches, one: Root, other: Root, clash: bool)
    requires one { one.face < length p.old.elders.items }
    requires other { other.face < length p.old.elders.items }
    requires tables { AreTables (length p.old.elders.items) p.old.elders.items p.old.parities.items
        p.old.odd.items }
    ensures tables { AreTables (length p.old.elders.items) p.new.elders.items p.new.parities.items
        p.new.odd.items }
    ensures one_more { (m : Net) (n k : ℕ) → AreMates m n k → clash ≡ clash_of m n k
        → AreElders m n (elders_of p.old.elders.items p.old.parities.items p.old.odd.items)
        → Up (elders_of p.old.elders.items p.old.parities.items p.old.odd.items) (face_of n)
        one.face one.parity
        → Up (elders_of p.old.elders.items p.old.parities.items p.old.odd.items) (face_of k)
        other.face other.parity
        → AreElders m (n + 1) (elders_of p.new.elders.items p.new.parities.items p.new.odd.items) }
{
    let crossing = flipped_if(clash, one.parity);
    if one.face < other.face {
        let parity = flipped_if(one.parity, flipped_if(clash, other.parity));
        put_under(p, one.face, other.face, parity);
        return;
    }
    if other.face < one.face {
        let parity = flipped_if(other.parity, crossing);
        put_under(p, other.face, one.face, parity);
        return;
    }
    let wrong = flipped_if(other.parity, crossing);
    if wrong {
        mark(p, one.face);
    }
}

// Joins the faces of a side and its mate.
fn join(p: &mut Patches, faces: &[Corners], side: Side, mate: Side)
    requires mates { AreMates (net_of faces.now) side.0 mate.0 }
    requires tables { AreTables (length faces.now) p.old.elders.items p.old.parities.items
        p.old.odd.items }
    requires so_far { AreElders (net_of faces.now) side.0
        (elders_of p.old.elders.items p.old.parities.items p.old.odd.items) }
    ensures tables { AreTables (length faces.now) p.new.elders.items p.new.parities.items
        p.new.odd.items }
    ensures one_more { AreElders (net_of faces.now) (side.0 + 1)
        (elders_of p.new.elders.items p.new.parities.items p.new.odd.items) }
{
    let one = root_of(p, side.face().0);
    let other = root_of(p, mate.face().0);
    let clash = clash(faces, side, mate);
    join_roots(p, one, other, clash);
}

// Joins the faces of a side and its mate, if it has one.
fn join_side(p: &mut Patches, faces: &[Corners], mates: &SideMap, side: Side)
    requires in_range { side.0 < 3 * length faces.now }
    requires mated { AreMated (net_of faces.now) mates.now }
    requires tables { AreTables (length faces.now) p.old.elders.items p.old.parities.items
        p.old.odd.items }
    requires so_far { AreElders (net_of faces.now) side.0
        (elders_of p.old.elders.items p.old.parities.items p.old.odd.items) }
    ensures tables { AreTables (length faces.now) p.new.elders.items p.new.parities.items
        p.new.odd.items }
    ensures one_more { AreElders (net_of faces.now) (side.0 + 1)
        (elders_of p.new.elders.items p.new.parities.items p.new.odd.items) }
{
    match mates.get(side) {
        None => {}
        Some(mate) => join(p, faces, side, mate),
    }
}

/// Joins all faces that are mates, where each was its own elder.
pub(crate) fn join_all(p: &mut Patches, faces: &[Corners], mates: &SideMap)
    requires mated { AreMated (net_of faces.now) mates.now }
    requires tables { AreTables (length faces.now) p.old.elders.items p.old.parities.items
        p.old.odd.items }
    requires begun { AreElders (net_of faces.now) 0
        (elders_of p.old.elders.items p.old.parities.items p.old.odd.items) }
    ensures tables { AreTables (length faces.now) p.new.elders.items p.new.parities.items
        p.new.odd.items }
    ensures all { AreElders (net_of faces.now) (side_count (net_of faces.now))
        (elders_of p.new.elders.items p.new.parities.items p.new.odd.items) }
{
    for number in 0..mates.len() {
        join_side(p, faces, mates, Side(number));
    }
}
