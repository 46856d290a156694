//! Points numbered by their first appearance.
ghost use Rattle.std.specs.Prelude.{◌≡◌, ◌≤◌, IfOk, OnOk, IfErr, length, Ok, [], ◌∷◌, ◌++◌};
ghost use Rattle.std.specs.Prelude.{◌<◌, None, replicate};
ghost use Rattle.pm_base.specs.declared.limits.TheConstants.{MOST_VERTICES};
ghost use Rattle.stl_read.specs.Meaning.{Explains};
ghost use Rattle.std.specs.HashMap.{get};
ghost use Rattle.stl_read.specs.Numbering.{AreNumbered, key_of, same_key, number_if};
ghost use Rattle.stl_read.specs.Numbering.{low_bits, mixed, slot_of};
ghost use Rattle.stl_read.specs.Vertices.{is_same, number_of, corner_of};

use crate::OutOfMemory;
use crate::fault::{Refused, StlFail, StlFault};
use obj_prepare::ExactPoint;
use pm_base::{Corners, MOST_VERTICES};
use std::alloc::Global;
use std::collections::HashMap;

/// What a file gives: points in units of 10^-18, no two the same, and triangles; and how many of
/// these have attributes that aren't 0.
#[derive(Drop)]
pub struct StlTriangles {
    pub points: Vec<ExactPoint>,
    pub faces: Vec<Corners>,
    pub attributes: u32,
}

type Key = (i128, i128, i128);

/// The points so far, and their numbers: each in the slot of its place, or in a map where the slot
/// has another's. So a file that sends its points to one slot costs what the map costs.
#[derive(Drop)]
pub(crate) struct Vertices {
    pub points: Vec<ExactPoint>,
    pub slots: Vec<Option<u32>>,
    pub others: HashMap<Key, u32>,
}

fn key_of(p: &ExactPoint) -> Key
    ensures { result ≡ key_of p.now }
{
    (p.x(), p.y(), p.z())
}

fn is_same(p: &ExactPoint, q: &ExactPoint) -> bool
    ensures { result ≡ is_same p.now q.now }
{
    p.x() == q.x() && p.y() == q.y() && p.z() == q.z()
}

#[tactic(auto, unfolding(crate::specs::Numbering::low_bits))]
fn low_bits(x: i128) -> u64
    ensures { result ≡ low_bits x }
{
    (x.cast_unsigned() % 18_446_744_073_709_551_616) as u64
}

// A hash with one more number in it.
#[tactic(auto, unfolding(crate::specs::Numbering::mixed))]
fn mixed(hash: u64, n: u64) -> u64
    ensures { result ≡ mixed hash n }
{
    hash.wrapping_add(n)
        .wrapping_mul(11_400_714_819_323_198_485)
}

// The slot of a point, of so many.
#[tactic(auto, unfolding(crate::specs::Numbering::slot_of))]
fn slot_of(p: &ExactPoint, count: usize) -> usize
    requires { 0 < count }
    ensures slot { result ≡ slot_of count p.now }
    ensures within { result < count }
{
    let hash = mixed(
        mixed(mixed(0, low_bits(p.x())), low_bits(p.y())),
        low_bits(p.z()),
    );
    (hash / 4_294_967_296) as usize % count
}

// As many empty slots. The length is a parameter, so that no proof unfolds the list.
fn empty_slots(alloc: Global, n: usize) -> Result<Vec<Option<u32>>, OutOfMemory>
    ensures { IfOk result (λ v. v.items ≡ replicate n None) }
{
    vec![in alloc; None; n]
}

impl Vertices {
    /// With so many slots: twice the points, or more, keep most of them out of the map.
    pub(crate) fn new(alloc: Global, slots: usize) -> Result<Vertices, OutOfMemory>
        requires { 0 < slots }
        ensures points { IfOk result (λ v. v.points.items ≡ []) }
        ensures numbered { IfOk result (λ v. AreNumbered v) }
    {
        let slots = empty_slots(alloc, slots)?;
        Ok(Vertices {
            points: Vec::new(alloc),
            slots,
            others: HashMap::new(alloc),
        })
    }

    // The number that the map has.
    fn other(&self, p: &ExactPoint) -> Option<u32>
        ensures { result ≡ get same_key self.now.others (key_of p.now) }
    {
        self.others.get(&key_of(p)).copied()
    }

    // The number of a point, if it is there.
    fn number(&self, p: &ExactPoint) -> Option<u32>
        requires { AreNumbered self.now }
        ensures { result ≡ number_if self.now.points.items p.now }
    {
        let slot = slot_of(p, self.slots.len());
        match self.slots[slot] {
            None => None,
            Some(v) => {
                if is_same(&self.points[v as usize], p) {
                    Some(v)
                } else {
                    self.other(p)
                }
            }
        }
    }

    // Puts down a point that isn't there.
    fn add(&mut self, p: &ExactPoint) -> Result<u32, OutOfMemory>
        requires numbered { AreNumbered self.old }
        requires new { number_of self.old.points.items p.now ≡ length self.old.points.items }
        requires room { length self.old.points.items ≤ MOST_VERTICES }
        ensures value { IfOk result (λ v. v ≡ length self.old.points.items) }
        ensures points { OnOk result (self.new.points.items ≡ self.old.points.items ++ p.now ∷ []) }
        ensures numbered { OnOk result (AreNumbered self.new) }
    {
        let number = self.points.len() as u32;
        self.points.push(*p)?;
        let slot = slot_of(p, self.slots.len());
        match self.slots[slot] {
            None => {
                self.slots[slot] = Some(number);
                Ok(number)
            }
            Some(_) => {
                self.others.insert(key_of(p), number)?;
                Ok(number)
            }
        }
    }

    /// The number of a point, which is put down if it isn't there. The time is constant but for
    /// the map.
    #[tactic(auto, using(crate::proofs::VertexLaws::corner_old, crate::proofs::VertexLaws::corner_new, crate::proofs::VertexLaws::corner_full, crate::proofs::VertexLaws::new_number))]
    pub(crate) fn corner(&mut self, p: &ExactPoint, place: usize) -> Result<u32, StlFail>
        requires numbered { AreNumbered self.old }
        requires few { length self.old.points.items ≤ MOST_VERTICES }
        ensures ok { IfOk result
            (λ v. corner_of place self.old.points.items p.now
            ≡ Ok (record { vertex = v; points = self.new.points.items })) }
        ensures numbered { OnOk result (AreNumbered self.new) }
        ensures few { OnOk result (length self.new.points.items ≤ MOST_VERTICES) }
        ensures err { IfErr result (Explains (corner_of place self.old.points.items p.now)) }
    {
        if let Some(number) = self.number(p) {
            return Ok(number);
        }
        if self.points.len() == MOST_VERTICES as usize {
            return Err(StlFail::Fault(Refused {
                fault: StlFault::TooManyVertices,
                place,
            }));
        }
        match self.add(p) {
            Ok(number) => Ok(number),
            Err(_) => Err(StlFail::OutOfMemory),
        }
    }
}
