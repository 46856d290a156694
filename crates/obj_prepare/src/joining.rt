//! Vertices at one place become one. The first at each place is kept in a map by the place as one
//! number.
ghost use Rattle.std.specs.Prelude.{◌≡◌, ◌<◌, ◌≤◌, ◌+◌, List, length, true, unsigned_abs, IfOk};
ghost use Rattle.std.specs.Prelude.{OnOk};
ghost use Rattle.pm_base.specs.declared.limits.TheConstants.{GREATEST_COORDINATE, MOST_VERTICES};
ghost use Rattle.pm_base.specs.declared.mesh.Corners.{Corners as FaceCorners};
ghost use Rattle.pm_base.specs.Place.{IsPlace};
ghost use Rattle.obj_prepare.specs.Named.{AreVerticesBelow, IsWithinMesh, is_some_corner};
ghost use Rattle.obj_prepare.specs.Joining.{AreJoined, IsFirstAt, renamed as renamed_of};
ghost use Rattle.obj_prepare.specs.Joining.{joined_faces as joined_faces_of};
ghost use Rattle.obj_prepare.specs.Firsts.{raised as raised_of, place_key as place_key_of};
ghost use Rattle.obj_prepare.specs.Firsts.{AreFirsts};

use crate::OutOfMemory;
use crate::named::named;
use pm_base::{Corners, GREATEST_COORDINATE, Point};
use std::alloc::Global;
use std::collections::BTreeMap;

// How many numbers a raised coordinate may be.
const SHIFT: u64 = 1 << 16;

/// The vertex that stands for each: of those that a face names the first at the same place, and of
/// the others each itself. O(F + V log V) for F faces and V vertices.
#[tactic(auto, using(crate::proofs::JoiningLaws::none_first, crate::proofs::JoiningLaws::no_names, crate::proofs::JoiningLaws::all_joined))]
pub(crate) fn joined(
    alloc: Global,
    places: &[Point],
    faces: &[Corners],
) -> Result<Vec<u32>, OutOfMemory>
    requires { IsWithinMesh (length places.now) faces.now }
    ensures { IfOk result (λ names. AreJoined places.now faces.now names.items) }
{
    let named = named(alloc, places.len(), faces)?;
    let mut firsts = BTreeMap::new(alloc);
    let mut names = Vec::new(alloc);
    for v in 0..places.len() {
        if named[v] {
            names.push(first_at(&mut firsts, places, v)?)?;
        } else {
            names.push(v as u32)?;
        }
    }
    Ok(names)
}

// The first vertex at the place of one that a face names. Where that is itself, the map notes it.
#[tactic(auto, using(crate::proofs::JoiningLaws::old_is_first, crate::proofs::JoiningLaws::old_on, crate::proofs::JoiningLaws::new_is_first, crate::proofs::JoiningLaws::new_on))]
fn first_at(firsts: &mut BTreeMap<u64, u32>, places: &[Point], v: usize) -> Result<u32, OutOfMemory>
    requires few { length places.now ≤ MOST_VERTICES }
    requires in_range { v < length places.now }
    ensures first { (faces : List FaceCorners) → AreFirsts places.now faces v firsts.old
        → is_some_corner faces v ≡ true → IfOk result (IsFirstAt places.now faces v) }
    ensures noted { (faces : List FaceCorners) → AreFirsts places.now faces v firsts.old
        → is_some_corner faces v ≡ true
        → OnOk result (AreFirsts places.now faces (v + 1) firsts.new) }
{
    let key = place_key(&places[v]);
    if let Some(&first) = firsts.get(&key) {
        return Ok(first);
    }
    firsts.insert(key, v as u32)?;
    Ok(v as u32)
}

// How far a coordinate is above the least one.
#[tactic(auto, using(crate::proofs::JoiningLaws::raised_small))]
fn raised(n: i32) -> u64
    requires { unsigned_abs n ≤ GREATEST_COORDINATE }
    ensures value { result ≡ raised_of n }
    ensures small { result < 65536 }
{
    u64::from((n + GREATEST_COORDINATE as i32).unsigned_abs())
}

/// A place as one number.
#[tactic(auto, unfolding(crate::specs::Firsts::place_key))]
pub(crate) fn place_key(p: &Point) -> u64
    ensures value { result ≡ place_key_of p.now }
    ensures place { IsPlace p.now }
{
    (raised(p.x()) * SHIFT + raised(p.y())) * SHIFT + raised(p.z())
}

/// The faces over joined vertices.
pub(crate) fn joined_faces(
    alloc: Global,
    names: &[u32],
    faces: &[Corners],
) -> Result<Vec<Corners>, OutOfMemory>
    requires { IsWithinMesh (length names.now) faces.now }
    ensures { IfOk result (λ fs. fs.items ≡ joined_faces_of names.now faces.now) }
{
    let mut joined = Vec::new(alloc);
    for at in 0..faces.len() {
        joined.push(renamed(names, faces[at]))?;
    }
    Ok(joined)
}

fn renamed(names: &[u32], face: Corners) -> Corners
    requires { AreVerticesBelow (length names.now) face }
    ensures { result ≡ renamed_of names.now face }
{
    Corners {
        a: names[face.a as usize],
        b: names[face.b as usize],
        c: names[face.c as usize],
    }
}
