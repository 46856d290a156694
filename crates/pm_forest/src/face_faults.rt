//! What is wrong with the next face of a record that comes, and with the input numbers of all
//! faces.
ghost use Rattle.std.specs.Prelude.{if◌then◌else◌, slice_index_or, true, false, ◌≡◌, ◌+◌, ◌-◌, ◌*◌};
ghost use Rattle.std.specs.Prelude.{◌<◌, ◌≤◌, ◌||◌, ◌&&◌, not, nat_le, length, None, Some, IfSome};
ghost use Rattle.std.specs.Prelude.{is_some};
ghost use Rattle.pm_base.specs.declared.limits.TheConstants.{MOST_VERTICES};
ghost use Rattle.pm_forest.specs.Marks.{AreMarked};
ghost use Rattle.pm_forest.specs.Forest.{Hierarchy, Interval, leaf_count, node_count, record_count};
ghost use Rattle.pm_forest.specs.Forest.{t_of, u_of, interval_of, within};
ghost use Rattle.pm_forest.specs.Faces.{faces_of, face_count, first_face, revealed_by};
ghost use Rattle.pm_forest.specs.Rules.{face_inputs, new_face_is_bad, new_face_fault, past_fault};
ghost use Rattle.pm_forest.specs.Rules.{runs, runs_from, heads_before};
ghost use Rattle.pm_forest.specs.Shaping.{side_of};
ghost use Rattle.pm_forest.specs.Tables.{grown};

use crate::faults::next_field;
use crate::growing::Growing;
use crate::marks::is_face_input_bad;
use crate::{Face, Record, Shape};
use pm_base::{MOST_FACES, Side};

fn is_within(leaves: (u32, u32), x: u32) -> bool
    ensures { result ≡ within (record { from = leaves.0; until = leaves.1 }) x }
{
    leaves.0 <= x && x < leaves.1
}

// Whether in this order one corner is under p, the next under q, and the one after it outside s.
fn runs_from(p: (u32, u32), q: (u32, u32), s: (u32, u32), corners: [u32; 3]) -> bool
    ensures { result ≡ runs_from (record { from = p.0; until = p.1 })
        (record { from = q.0; until = q.1 }) (record { from = s.0; until = s.1 })
        (slice_index_or corners 0 0) (slice_index_or corners 1 0) (slice_index_or corners 2 0) }
{
    is_within(p, corners[0]) && is_within(q, corners[1]) && !is_within(s, corners[2])
}

#[tactic(auto, unfolding(crate::specs::Rules::runs))]
fn runs(p: (u32, u32), q: (u32, u32), s: (u32, u32), f: &Face) -> bool
    ensures { result
        ≡ runs (record { from = p.0; until = p.1 }) (record { from = q.0; until = q.1 })
        (record { from = s.0; until = s.1 }) f.now }
{
    runs_from(p, q, s, [f.a, f.b, f.c])
        || runs_from(p, q, s, [f.b, f.c, f.a])
        || runs_from(p, q, s, [f.c, f.a, f.b])
}

// The number of the first face of the coming record.
#[tactic(auto, using(crate::proofs::FaultLaws::faces_coming))]
fn first_face(forest: &Growing, split: &Record) -> u32
    requires { forest.now.coming ≡ Some split.now }
    ensures value { result ≡ first_face (grown forest.now) (record_count forest.now.h) }
    ensures most { result ≤ MOST_FACES }
{
    forest.faces() - u32::from(split.left.is_some()) - u32::from(split.right.is_some())
}

// Whether a face of the coming record has a corner that is no leaf, or doesn't have its corners
// under the children and outside their parent in its order.
fn is_out_of_place(forest: &Growing, split: &Record, left: bool, f: &Face) -> bool
    requires coming { forest.now.coming ≡ Some split.now }
    requires node { split.now.s < node_count (grown forest.now) }
    ensures { let h : Hierarchy = forest.now.h in
        let t : Interval = interval_of (grown forest.now) (t_of h (record_count h)) in
        let u : Interval = interval_of (grown forest.now) (u_of h (record_count h)) in
        let s : Interval = interval_of (grown forest.now) split.now.s in
        result ≡ (nat_le (leaf_count h) f.now.a || nat_le (leaf_count h) f.now.b || nat_le
        (leaf_count h) f.now.c
        || not (if left then runs t u s f.now else runs u t s f.now)) }
{
    let leaves = forest.leaves();
    if f.a >= leaves || f.b >= leaves || f.c >= leaves {
        return true;
    }
    let (from, until) = forest.interval(split.s);
    let cut = forest.cut(split);
    if left {
        !runs((from, cut), (cut, until), (from, until), f)
    } else {
        !runs((cut, until), (from, cut), (from, until), f)
    }
}

fn is_new_face_bad(
    forest: &Growing,
    split: &Record,
    left: bool,
    f: &Face,
    first: u32,
    second: u32,
) -> bool
    requires coming { forest.now.coming ≡ Some split.now }
    requires node { split.now.s < node_count (grown forest.now) }
    ensures exact { new_face_is_bad (grown forest.now) left f.now first second ≡ result }
    ensures few { result ≡ false → face_count (grown forest.now) < MOST_FACES }
{
    if is_out_of_place(forest, split, left, f) {
        return true;
    }
    let sides = 3 * first_face(forest, split);
    first > sides || second > sides || forest.faces() >= MOST_FACES
}

/// What is wrong with the next face of the coming record.
#[tactic(auto, unfolding(crate::specs::Rules::new_face_fault))]
pub fn new_face_fault(
    forest: &Growing,
    flags: &[bool],
    left: bool,
    f: &Face,
    first: u32,
    second: u32,
) -> Option<Shape>
    requires coming { is_some forest.now.coming ≡ true }
    requires node { IfSome forest.now.coming (λ r. r.s < node_count (grown forest.now)) }
    requires marked { AreMarked flags.now (face_inputs (faces_of (grown forest.now))) }
    requires flags { length flags.now ≡ MOST_FACES }
    ensures exact { new_face_fault (grown forest.now) left f.now first second ≡ result }
    ensures few { result ≡ None → face_count (grown forest.now) < MOST_FACES }
    ensures within { result ≡ None → f.now.input ≤ length flags.now }
{
    let Some(split) = forest.coming() else {
        return None;
    };
    if is_new_face_bad(forest, split, left, f, first, second) {
        Some(Shape::BadRecord(forest.records().len() as u32))
    } else if is_face_input_bad(flags, f.input) {
        Some(Shape::BadInput(next_field(forest)))
    } else {
        None
    }
}

/// The neighbour that a stream's word names: none for 0.
pub fn neighbour(word: u32) -> Option<Side>
    ensures { result ≡ side_of word }
{
    word.checked_sub(1).map(Side)
}

// How many heads come before face `f`.
#[tactic(auto, using(crate::proofs::FaultLaws::revealed_below))]
fn heads_before(forest: &Growing, f: u32) -> u32
    requires settled { forest.now.coming ≡ None }
    requires face { f < face_count forest.now.h }
    ensures value { result ≡ heads_before (revealed_by forest.now.h f) }
    ensures most { result ≤ MOST_VERTICES }
{
    // There are no more than this, so that the number after one fits.
    let _records = forest.records();
    match forest.revealed_by(f) {
        None => 0,
        Some(k) => k + 1,
    }
}

/// The first face whose input number passes the number of faces.
#[tactic(auto, using(crate::proofs::FaultLaws::past_nowhere), unfolding(crate::specs::Rules::past_fault))]
pub fn past_fault(forest: &Growing) -> Option<Shape>
    requires { forest.now.coming ≡ None }
    ensures { past_fault forest.now.h ≡ result }
{
    let faces = forest.faces();
    for f in 0..faces {
        if forest.face(f).input > faces {
            let field = forest.roots().len() as u32 + f + 2 * heads_before(forest, f);
            return Some(Shape::BadInput(field));
        }
    }
    None
}
