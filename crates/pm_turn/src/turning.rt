//! Which faces are turned, told by the patches that their neighbours make.
ghost use Rattle.std.specs.Prelude.{◌≡◌, ℕ, ◌<◌, ◌≤◌, length, slice_index_or, replicate, false};
ghost use Rattle.std.specs.Prelude.{IfOk};
ghost use Rattle.pm_base.specs.declared.limits.TheConstants.{MOST_FACES};
ghost use Rattle.pm_base.specs.Sides.{Net, net_of, side_count};
ghost use Rattle.pm_fans.specs.Splits.{IsCuttable};
ghost use Rattle.pm_turn.specs.Turning.{flag_with, AreTurns, turned_if as turned_if_of, turned_by};
ghost use Rattle.pm_turn.specs.Unions.{AreElders, AreTables, AreShorter, IsFlagged, elders_of};

use crate::OutOfMemory;
use crate::edges::side_mates;
use crate::patches::{Patches, join_all, root_of};
use pm_base::Corners;
use std::alloc::Global;

/// For each face whether it is turned round. Faces are neighbours where they alone share an edge,
/// and a patch is all that is reached from a face over neighbours. Once the flagged faces are
/// turned, neighbours run along their edge in opposite orders; the face of least number in each
/// patch stays. Of a patch of which that can't be had, as of a Moebius strip, no face is flagged.
/// There is one such list of flags. O(F log F) for F faces.
pub fn turns(alloc: Global, faces: &[Corners]) -> Result<Vec<bool>, OutOfMemory>
    requires { IsCuttable (net_of faces.now) }
    ensures { IfOk result (λ flags. AreTurns (net_of faces.now) flags.items) }
{
    let mates = side_mates(alloc, faces)?;
    let mut patches = own_patches(alloc, faces.len() as u32)?;
    join_all(&mut patches, faces, &mates);
    flags(alloc, &mut patches, faces)
}

/// The faces, of which those are turned whose flag is set: (a, b, c) becomes (a, c, b). O(F).
pub fn turned(alloc: Global, faces: &[Corners], flags: &[bool]) -> Result<Vec<Corners>, OutOfMemory>
    requires { length flags.now ≡ length faces.now }
    ensures { IfOk result (λ fs. fs.items ≡ turned_by flags.now faces.now) }
{
    let mut all = Vec::new(alloc);
    for at in 0..faces.len() {
        all.push(turned_if(flags[at], faces[at]))?;
    }
    Ok(all)
}

// A face, turned round if told so.
fn turned_if(turn: bool, face: Corners) -> Corners
    ensures { result ≡ turned_if_of turn face }
{
    if turn {
        return Corners {
            a: face.a,
            b: face.c,
            c: face.b,
        };
    }
    face
}

/// Each face in a patch of its own.
pub(crate) fn own_patches(alloc: Global, faces: u32) -> Result<Patches, OutOfMemory>
    ensures tables { IfOk result
        (λ p. AreTables faces p.elders.items p.parities.items p.odd.items) }
    ensures begun { IfOk result (λ p. (m : Net) → m.faces ≡ faces
        → AreElders m 0 (elders_of p.elders.items p.parities.items p.odd.items)) }
{
    let elders = own_elders(alloc, faces)?;
    let parities = none_set(alloc, faces)?;
    let odd = none_set(alloc, faces)?;
    Ok(Patches {
        elders,
        parities,
        odd,
    })
}

// So many flags, none of them set.
fn none_set(alloc: Global, faces: u32) -> Result<Vec<bool>, OutOfMemory>
    ensures { IfOk result (λ bs. bs.items ≡ replicate faces false) }
{
    let flags = vec![in alloc; false; faces as usize]?;
    Ok(flags)
}

// The numbers from 0.
fn own_elders(alloc: Global, faces: u32) -> Result<Vec<u32>, OutOfMemory>
    ensures long { IfOk result (λ es. length es.items ≡ faces) }
    ensures each { IfOk result (λ es. (x : ℕ) → x < faces → slice_index_or es.items x 0 ≡ x) }
{
    let mut elders = Vec::new(alloc);
    for face in 0..faces {
        elders.push(face)?;
    }
    Ok(elders)
}

// The flags of all faces, of which all that are mates are joined.
#[tactic(auto, using(crate::proofs::Flags::none_flagged))]
fn flags(alloc: Global, p: &mut Patches, faces: &[Corners]) -> Result<Vec<bool>, OutOfMemory>
    requires short { length faces.now ≤ MOST_FACES }
    requires tables { AreTables (length faces.now) p.old.elders.items p.old.parities.items
        p.old.odd.items }
    requires all { AreElders (net_of faces.now) (side_count (net_of faces.now))
        (elders_of p.old.elders.items p.old.parities.items p.old.odd.items) }
    ensures { IfOk result (λ flags. AreTurns (net_of faces.now) flags.items) }
{
    let mut flags = Vec::new(alloc);
    for face in 0..faces.len() as u32 {
        flags.push(is_turned(p, face))?;
    }
    Ok(flags)
}

// Whether a face is turned: the way to the face that stands for its patch is odd, and the patch has
// no odd closed way.
fn is_turned(p: &mut Patches, face: u32) -> bool
    requires in_range { face < length p.old.elders.items }
    requires tables { AreTables (length p.old.elders.items) p.old.elders.items p.old.parities.items
        p.old.odd.items }
    requires below { (x : ℕ) → slice_index_or p.old.elders.items x 0 ≤ x }
    ensures tables { AreTables (length p.old.elders.items) p.new.elders.items p.new.parities.items
        p.new.odd.items }
    ensures shorter { AreShorter (elders_of p.old.elders.items p.old.parities.items p.old.odd.items)
        (elders_of p.new.elders.items p.new.parities.items p.new.odd.items) }
    ensures flag { IsFlagged (elders_of p.new.elders.items p.new.parities.items p.new.odd.items)
        face result }
{
    let root = root_of(p, face);
    flag(p.odd[root.face as usize], root.parity)
}

// The flag of a face by the parity of its way, in a patch that has an odd closed way or not.
fn flag(odd: bool, parity: bool) -> bool
    ensures { result ≡ flag_with odd parity }
{
    if odd { false } else { parity }
}
