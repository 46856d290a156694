//! Which way round each patch is turned: sums over its faces, and the choice by them.
ghost use Rattle.std.specs.Prelude.{◌≡◌, ℕ, ◌+◌, ◌*◌, ◌<◌, ◌≤◌, ◌^◌, length, slice_index_or};
ghost use Rattle.std.specs.Prelude.{slice_set, replicate, unsigned_abs, IfOk, OnOk};
ghost use Rattle.pm_base.specs.declared.limits.TheConstants.{MOST_FACES};
ghost use Rattle.pm_base.specs.Sides.{net_of, side_count};
ghost use Rattle.pm_fans.specs.Splits.{IsCuttable};
ghost use Rattle.pm_turn.specs.Turning.{flag_of, AreTraced};
ghost use Rattle.pm_turn.specs.Unions.{AreElders, AreTables, AreMated, elders_of};
ghost use Rattle.pm_turn.specs.Choice.{ArePlaced, area_at, volume_at, AreChosenTurns};
ghost use Rattle.pm_turn.specs.Told.{AreTurnCounts};
ghost use Rattle.pm_turn.specs.Sums.{
  root_at,
  parity_at,
  is_bare as is_bare_of,
  no_sums as no_sums_of,
  with_face as with_face_of,
  IsSmall,
  AreSums,
  is_reversed as is_reversed_of,
  chosen_flag as chosen_flag_of,
};

use crate::OutOfMemory;
use crate::areas::area_of;
use crate::counts::{TurnCounts, count_set, inside_out, twisted_faces};
use crate::edges::{edge_mates, note_edges};
use crate::patches::{Patches, Root, flipped_if, join_all, root_of};
use crate::turning::own_patches;
use crate::volumes::volume_of;
use pm_base::{Corners, Point, Side, SideMap};
use std::alloc::Global;

/// What is added up over the faces of a patch: the area of those with an even way to the face that
/// stands for it, that of those with an odd one, how many have an odd one, how many have a side
/// without a mate, and six times the volume, where faces with an odd way are turned.
#[derive(Clone, Copy)]
pub(crate) struct Sums {
    pub(crate) even_area: u64,
    pub(crate) odd_area: u64,
    pub(crate) odd: u32,
    pub(crate) bare: u32,
    pub(crate) volume: i128,
}

/// Which faces are turned, and what can be told of that.
#[derive(Drop)]
pub struct Turned {
    /// For each face whether it is turned round.
    pub flags: Vec<bool>,
    pub counts: TurnCounts,
}

/// For each face whether it is turned round, as `turns` tells, but each patch the better way round,
/// and what can be told of that. No face is turned where neighbours agree already. Of a patch with
/// a side that has no mate the least area is turned, and faces without area follow the others; of
/// two equal choices the face of least number stays. A closed patch has a volume that isn't below
/// 0; without volume it is turned as an open one. Sums are exact. There is one such list of flags.
/// O(F log F) for F faces.
pub fn chosen_turns(
    alloc: Global,
    faces: &[Corners],
    places: &[Point],
) -> Result<Turned, OutOfMemory>
    requires cuttable { IsCuttable (net_of faces.now) }
    requires placed { ArePlaced (net_of faces.now) places.now }
    ensures flags { IfOk result (λ t. AreChosenTurns (net_of faces.now) places.now t.flags.items) }
    ensures counts { IfOk result (λ t. AreTurnCounts (net_of faces.now) places.now t.flags.items
        t.counts) }
{
    let edges = note_edges(alloc, faces)?;
    let mates = edge_mates(alloc, faces, &edges)?;
    let mut patches = own_patches(alloc, faces.len() as u32)?;
    join_all(&mut patches, faces, &mates);
    let roots = all_roots(alloc, &mut patches, faces)?;
    let sums = patch_sums(alloc, faces, places, &mates, &roots)?;
    let flags = chosen_flags(alloc, faces, places, &mates, &patches.odd, &roots, &sums)?;
    let counts = TurnCounts {
        turned: count_set(&flags),
        twisted: twisted_faces(faces, &patches.odd, &roots),
        crowded: edges.crowded,
        inside_out: inside_out(faces, places, &mates, &patches.odd, &roots, &sums),
    };
    Ok(Turned { flags, counts })
}

// The root of each face, once all that are mates are joined.
#[tactic(auto, using(crate::proofs::Rooting::none_rooted))]
pub(crate) fn all_roots(
    alloc: Global,
    p: &mut Patches,
    faces: &[Corners],
) -> Result<Vec<Root>, OutOfMemory>
    requires short { length faces.now ≤ MOST_FACES }
    requires tables { AreTables (length faces.now) p.old.elders.items p.old.parities.items
        p.old.odd.items }
    requires all { AreElders (net_of faces.now) (side_count (net_of faces.now))
        (elders_of p.old.elders.items p.old.parities.items p.old.odd.items) }
    ensures odd { OnOk result (length p.new.odd.items ≡ length faces.now) }
    ensures long { IfOk result (λ rs. length rs.items ≡ length faces.now) }
    ensures traced { IfOk result
        (λ rs. AreTraced (net_of faces.now) (root_at rs.items) (parity_at rs.items)
        (flag_of p.new.odd.items)) }
{
    let mut roots = Vec::new(alloc);
    for face in 0..faces.len() as u32 {
        roots.push(root_of(p, face))?;
    }
    Ok(roots)
}

// The sums over each patch.
pub(crate) fn patch_sums(
    alloc: Global,
    faces: &[Corners],
    places: &[Point],
    mates: &SideMap,
    roots: &[Root],
) -> Result<Vec<Sums>, OutOfMemory>
    requires short { length faces.now ≤ MOST_FACES }
    requires placed { ArePlaced (net_of faces.now) places.now }
    requires mated { length mates.now ≡ side_count (net_of faces.now) }
    requires long { length roots.now ≡ length faces.now }
    requires below { (f : ℕ) → root_at roots.now f ≤ f }
    ensures { IfOk result
        (λ sums. AreSums (net_of faces.now) places.now mates.now roots.now (length faces.now)
        sums.items) }
{
    let mut sums = no_sums(alloc, faces.len())?;
    for face in 0..faces.len() {
        let root = roots[face];
        let bare = is_bare(mates, face as u32);
        add_face(&mut sums, faces, places, face, root, bare);
    }
    Ok(sums)
}

// So many sums, each over no face.
fn no_sums(alloc: Global, patches: usize) -> Result<Vec<Sums>, OutOfMemory>
    ensures { IfOk result (λ sums. sums.items ≡ replicate patches no_sums_of) }
{
    let none = Sums {
        even_area: 0,
        odd_area: 0,
        odd: 0,
        bare: 0,
        volume: 0,
    };
    let sums = vec![in alloc; none; patches]?;
    Ok(sums)
}

// Whether a side of the face has no mate.
fn is_bare(mates: &SideMap, face: u32) -> bool
    requires few { face < MOST_FACES }
    requires in_range { 3 * face + 2 < length mates.now }
    ensures { result ≡ is_bare_of mates.now face }
{
    mates.get(Side(3 * face)).is_none()
        || mates.get(Side(3 * face + 1)).is_none()
        || mates.get(Side(3 * face + 2)).is_none()
}

// Adds a face to the sums of its patch.
fn add_face(
    sums: &mut Vec<Sums>,
    faces: &[Corners],
    places: &[Point],
    face: usize,
    root: Root,
    bare: bool,
)
    requires face { face < length faces.now }
    requires placed { ArePlaced (net_of faces.now) places.now }
    requires root { root.face < length sums.old.items }
    requires small { IsSmall 1048575 (slice_index_or sums.old.items root.face no_sums_of) }
    ensures items { sums.new.items ≡ slice_set sums.old.items root.face
        (with_face_of (slice_index_or sums.old.items root.face no_sums_of) root.parity bare
        (area_at (net_of faces.now) places.now face)
        (volume_at (net_of faces.now) places.now root.parity face)) }
    ensures area { area_at (net_of faces.now) places.now face < 2 ^ 35 }
    ensures volume { unsigned_abs (volume_at (net_of faces.now) places.now root.parity face) ≤ 2 ^
        51 }
{
    let old = sums[root.face as usize];
    let area = area_of(faces, places, face);
    let volume = volume_of(faces, places, face, root.parity);
    sums[root.face as usize] = with_face(old, root.parity, bare, area, volume);
}

// The sums with one more face.
fn with_face(s: Sums, parity: bool, bare: bool, area: u64, volume: i128) -> Sums
    requires small { IsSmall 1048575 s }
    requires area { area < 2 ^ 35 }
    requires volume { unsigned_abs volume ≤ 2 ^ 51 }
    ensures { result ≡ with_face_of s parity bare area volume }
{
    Sums {
        even_area: s.even_area + if parity { 0 } else { area },
        odd_area: s.odd_area + if parity { area } else { 0 },
        odd: s.odd + u32::from(parity),
        bare: s.bare + u32::from(bare),
        volume: s.volume + volume,
    }
}

// The flags of all faces by the sums over their patches.
pub(crate) fn chosen_flags(
    alloc: Global,
    faces: &[Corners],
    places: &[Point],
    mates: &SideMap,
    odd: &[bool],
    roots: &[Root],
    sums: &[Sums],
) -> Result<Vec<bool>, OutOfMemory>
    requires short { length faces.now ≤ MOST_FACES }
    requires mated { AreMated (net_of faces.now) mates.now }
    requires odd { length odd.now ≡ length faces.now }
    requires long { length roots.now ≡ length faces.now }
    requires traced { AreTraced (net_of faces.now) (root_at roots.now) (parity_at roots.now)
        (flag_of odd.now) }
    requires sums { AreSums (net_of faces.now) places.now mates.now roots.now (length faces.now)
        sums.now }
    ensures { IfOk result (λ flags. AreChosenTurns (net_of faces.now) places.now flags.items) }
{
    let mut flags = Vec::new(alloc);
    for face in 0..faces.len() {
        flags.push(flag_at(odd, roots, sums, face))?;
    }
    Ok(flags)
}

// The flag of a face.
fn flag_at(odd: &[bool], roots: &[Root], sums: &[Sums], face: usize) -> bool
    requires in_range { face < length roots.now }
    requires odd { root_at roots.now face < length odd.now }
    requires sums { root_at roots.now face < length sums.now }
    ensures { result ≡ chosen_flag_of (flag_of odd.now (root_at roots.now face))
        (is_reversed_of (slice_index_or sums.now (root_at roots.now face) no_sums_of))
        (parity_at roots.now face) }
{
    let root = roots[face];
    let reversed = is_reversed(sums[root.face as usize]);
    chosen_flag(odd[root.face as usize], reversed, root.parity)
}

// Whether the way round by parities is to be reversed: of a closed patch that has a clash if its
// volume is below 0, and of another, or without volume, if more area would be turned than stays.
fn is_reversed(s: Sums) -> bool
    ensures { result ≡ is_reversed_of s }
{
    if s.bare == 0 && s.odd != 0 && s.volume != 0 {
        s.volume < 0
    } else {
        s.even_area < s.odd_area
    }
}

// The flag of a face, by whether its patch has an odd closed way, is reversed, and the face's
// parity.
fn chosen_flag(odd: bool, reversed: bool, parity: bool) -> bool
    ensures { result ≡ chosen_flag_of odd reversed parity }
{
    if odd {
        false
    } else {
        flipped_if(reversed, parity)
    }
}
