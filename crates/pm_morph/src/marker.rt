//! A marked front, and the morph that leads to it.
ghost use Rattle.std.specs.Prelude.{◌≡◌, ◌<◌, ◌≤◌, IfOk, length};
ghost use Rattle.pm_forest.specs.Forest.{record_count};
ghost use Rattle.pm_forest.specs.Fronts.{no_records};
ghost use Rattle.pm_base.specs.Counts.{set_of};
ghost use Rattle.pm_morph.specs.Elders.{unsplit_of};
ghost use Rattle.pm_morph.specs.Marks.{AreMarksOf, MorphEnds, MorphCounts};
ghost use Rattle.pm_morph.specs.Texts.{morph_text};
ghost use Rattle.pm_morph.specs.declared.limits.TheConstants.{MOST_PARTS};

use crate::OutOfMemory;
use crate::finer::first_unsplit;
use crate::text::write_text;
use pm_forest::Hierarchy;
use pm_front::Front;
use pm_io::Sink;
use std::alloc::Global;
use std::marker::Model;

/// Why a geomorph isn't written whole: a marked record, the least such one, isn't split, or the
/// text couldn't be put.
#[derive(Clone, Copy, Debug, PartialEq, Eq)]
pub enum MorphFail {
    NotFiner(u32),
    Write,
}

/// A marked front of a hierarchy: a mark for each record, set where the record is split in that
/// front. Contracts see the marks.
#[derive(Drop)]
pub struct Marker {
    marks: Vec<bool>,
}

impl Model for Marker {
    ghost use Rattle.std.specs.Prelude.{List, Bool};

    ghost Value = { List Bool };

    ghost view = { λ m. m.marks.items };
}

// Sets the marks to a front's flags.
#[tactic(auto, using(crate::proofs::MarkLaws::same_more, crate::proofs::MarkLaws::all_same))]
fn copy_flags(front: &Front, marks: &mut Vec<bool>)
    requires { length marks.old.items ≡ record_count front.now.h }
    ensures len { length marks.new.items ≡ length marks.old.items }
    ensures same { set_of marks.new.items ≡ set_of front.now.flags }
{
    front.invariant();
    for k in 0..front.hierarchy().records() {
        marks[k as usize] = front.is_split(k);
    }
}

// Writes the text at a/b from a marked front, where the other one is finer.
fn write_from<K: Sink>(
    front: &Front,
    marks: &[bool],
    a: u32,
    b: u32,
    out: &mut K,
) -> Result<(), MorphFail>
    requires made { AreMarksOf front.now.h marks.now }
    requires some { 0 < b }
    requires most { b ≤ MOST_PARTS }
    requires within { a ≤ b }
    ensures ends { let S = set_of front.now.flags in let T = set_of marks.now in
        MorphEnds (unsplit_of front.now.h T S) (morph_text front.now.h T S a b) result
        (K.got out.old) (K.got out.new) }
    ensures counts { MorphCounts result (K.faults out.old) (K.faults out.new) }
{
    match first_unsplit(front, marks) {
        Some(k) => Err(MorphFail::NotFiner(k)),
        None => match write_text(front, marks, a, b, out) {
            Ok(()) => Ok(()),
            Err(_) => Err(MorphFail::Write),
        },
    }
}

impl Marker {
    /// A marker of the base front of a hierarchy, in which no record is split. It takes memory for
    /// a mark on each record.
    #[tactic(auto, using(pm_forest::proofs::Flags::none_set, crate::proofs::MarkLaws::base_marks))]
    pub fn new(alloc: Global, h: &Hierarchy) -> Result<Marker, OutOfMemory>
        ensures base { IfOk result (λ m. set_of m ≡ no_records) }
        ensures made { IfOk result (λ m. AreMarksOf h.now m) }
    {
        let marks = vec![in alloc; false; h.records() as usize]?;
        Ok(Marker { marks })
    }

    /// Marks a front, of the hierarchy that the marker was made of. It takes no memory, and a step
    /// for each record.
    #[tactic(auto, using(crate::proofs::MarkLaws::front_marks))]
    pub fn mark(&mut self, front: &Front)
        requires { AreMarksOf front.now.h self.old }
        ensures same { set_of self.new ≡ set_of front.now.flags }
        ensures made { AreMarksOf front.now.h self.new }
    {
        front.invariant();
        copy_flags(front, &mut self.marks);
    }

    /// The marks, one for each record.
    pub fn marks(&self) -> &[bool]
        ensures { result.now ≡ self.now }
    {
        &self.marks
    }

    /// Whether record `k` is marked.
    pub fn is_marked(&self, k: u32) -> bool
        requires { k < length self.now }
        ensures { result ≡ set_of self.now k }
    {
        self.marks[k as usize]
    }

    /// Writes the mesh at a/b of the way from the marked front to a finer one: the text of the
    /// finer front's frame, with another first line, and with each active node at a/b of the way
    /// from its elder's place to its own, each coordinate rounded down. `b` is from 1 to 65,535 and
    /// `a` at most `b`.
    ///
    /// NotFiner names the least marked record that isn't split, exactly where there is one, and
    /// nothing is written then. Write comes only where the sink failed: it gained a part of the
    /// text from its front, and not the whole. The marks stay. It takes no memory; it costs what a
    /// frame does, a climb from each active node to its elder, and a step for each record.
    pub fn write_morph<K: Sink>(
        &mut self,
        front: &Front,
        a: u32,
        b: u32,
        out: &mut K,
    ) -> Result<(), MorphFail>
        requires made { AreMarksOf front.now.h self.old }
        requires some { 0 < b }
        requires most { b ≤ MOST_PARTS }
        requires within { a ≤ b }
        ensures ends { let S = set_of front.now.flags in let T = set_of self.old in
            MorphEnds (unsplit_of front.now.h T S) (morph_text front.now.h T S a b) result
            (K.got out.old) (K.got out.new) }
        ensures counts { MorphCounts result (K.faults out.old) (K.faults out.new) }
        ensures same { self.new ≡ self.old }
    {
        write_from(front, &self.marks, a, b, out)
    }
}
