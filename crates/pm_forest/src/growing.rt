//! A forest that grows unit by unit, with the tables that make its readers quick: the root of each
//! leaf, the interval and the splitter of each node, the node of each leaf, and the faces with the
//! records that reveal them.
ghost use Rattle.std.specs.Prelude.{false, ◌≡◌, ◌+◌, ◌-◌, ◌*◌, ◌<◌, ◌≤◌, [], ◌∷◌, ◌++◌, ◌==◌, cond};
ghost use Rattle.std.specs.Prelude.{length, sum, replicate, None, Some, is_some, true};
ghost use Rattle.std.specs.Prelude.{if◌then◌else◌, IfOk, IfSome, Option, slice_set};
ghost use Rattle.std.specs.Option.{option_map};
ghost use Rattle.pm_forest.specs.Forest.{widths_of, node_count, record_count, interval_of};
ghost use Rattle.pm_forest.specs.Forest.{splitter_of};
ghost use Rattle.pm_forest.specs.Faces.{face_count};
ghost use Rattle.pm_forest.specs.Rules.{counts_are_bad, with_record};
ghost use Rattle.pm_forest.specs.Tables.{Grown, grown, WithoutFaces, with_new_face};

use crate::{Counts, Face, FaceList, NewFace, OutOfMemory, Record, Records, Root, Roots};
use pm_base::{Items, MOST_FACES, OptionalNumber};
use std::alloc::Global;
use std::marker::Model;

/// A forest that grows. Contracts see its limits, its whole units and the record whose faces may
/// still come. Each reader takes one step.
#[derive(Drop)]
pub struct Growing {
    pub(crate) counts: Counts,
    pub(crate) roots: Roots,
    pub(crate) bases: FaceList,
    pub(crate) records: Records,
    pub(crate) coming: Option<Record>,
    pub(crate) owners: Items<u32>,
    pub(crate) intervals: Vec<(u32, u32)>,
    pub(crate) splitters: Vec<OptionalNumber>,
    pub(crate) leaf_nodes: Vec<u32>,
    pub(crate) faces: FaceList,
    pub(crate) revealed: Items<OptionalNumber>,
}

impl Model for Growing {
    ghost use Rattle.pm_forest.specs.Tables.{Grown, IsGrowing};

    ghost Value = { Grown };

    ghost view = { λ g. record {
      counts = g.counts;
      h = record { roots = g.roots.items; bases = g.bases.items; records = g.records.items };
      coming = g.coming;
    } };

    ghost invariant = { λ g. IsGrowing (record {
      counts = g.counts;
      roots = g.roots;
      bases = g.bases;
      records = g.records;
      coming = g.coming;
      owners = g.owners;
      intervals = g.intervals.items;
      splitters = g.splitters.items;
      leaf_nodes = g.leaf_nodes.items;
      faces = g.faces;
      revealed = g.revealed;
    }) };
}

// An empty list that has room for `most` items.
pub fn list_with_room<T: Copy>(alloc: Global, most: usize) -> Result<Items<T>, OutOfMemory>
    ensures items { IfOk result (λ list. list.items ≡ []) }
    ensures room { IfOk result (λ list. most ≤ list.spare) }
{
    let mut list = Items::new(alloc);
    list.reserve(most)?;
    Ok(list)
}

// Tables of `most` cells. The length is a parameter, so that no proof unfolds the list.
fn no_intervals(alloc: Global, most: usize) -> Result<Vec<(u32, u32)>, OutOfMemory>
    ensures { IfOk result (λ v. v.items ≡ replicate most (0, 0)) }
{
    vec![in alloc; (0, 0); most]
}

fn no_splitters(alloc: Global, most: usize) -> Result<Vec<OptionalNumber>, OutOfMemory>
    ensures { IfOk result (λ v. v.items ≡ replicate most None) }
{
    vec![in alloc; OptionalNumber::of(None); most]
}

pub fn no_nodes(alloc: Global, most: usize) -> Result<Vec<u32>, OutOfMemory>
    ensures { IfOk result (λ v. v.items ≡ replicate most 0) }
{
    vec![in alloc; 0; most]
}

// Puts the root's number for each of its leaves.
fn note_owners(owners: &mut Items<u32>, width: u32, root: u32)
    requires { width ≤ owners.old.spare }
    ensures items { owners.new.items ≡ owners.old.items ++ replicate width root }
    ensures spare { owners.new.spare + width ≡ owners.old.spare }
{
    for _leaf in 0..width {
        owners.push_within_room(root);
    }
}

// Notes the leaves of a node, and the node of its leaf where it has but one.
fn note_node(
    intervals: &mut Vec<(u32, u32)>,
    leaf_nodes: &mut Vec<u32>,
    node: u32,
    from: u32,
    until: u32,
)
    requires node { node < length intervals.old.items }
    requires leaves { until ≤ length leaf_nodes.old.items }
    requires order { from ≤ until }
    ensures intervals { intervals.new.items ≡ slice_set intervals.old.items node (from, until) }
    ensures leaf_nodes { leaf_nodes.new.items
        ≡ cond (until == from + 1) (slice_set leaf_nodes.old.items from node) leaf_nodes.old.items }
{
    intervals[node as usize] = (from, until);
    if until - from == 1 {
        leaf_nodes[from as usize] = node;
    }
}

// Gives the record, where there is one, its left or its right face.
fn set_face(coming: &mut Option<Record>, left: bool, face: NewFace)
    ensures { coming.new ≡ option_map (λ r. with_new_face r left face) coming.old }
{
    if let Some(split) = coming {
        if left {
            split.left = Some(face);
        } else {
            split.right = Some(face);
        }
    }
}

impl Growing {
    /// A forest with no unit yet. All its memory is taken here.
    pub(crate) fn new(alloc: Global, counts: Counts) -> Result<Growing, OutOfMemory>
        requires { counts_are_bad counts ≡ false }
        ensures { IfOk result
            (λ g. g ≡ record {
              counts = counts;
              h = record { roots = []; bases = []; records = [] };
              coming = None;
            }) }
    {
        let nodes = counts.roots as usize + 2 * counts.records as usize;
        let faces = (counts.bases as usize + 2 * counts.records as usize).min(MOST_FACES as usize);
        Ok(Growing {
            counts,
            roots: list_with_room(alloc, counts.roots as usize)?,
            bases: list_with_room(alloc, counts.bases as usize)?,
            records: list_with_room(alloc, counts.records as usize)?,
            coming: None,
            owners: list_with_room(alloc, counts.leaves as usize)?,
            intervals: no_intervals(alloc, nodes)?,
            splitters: no_splitters(alloc, nodes)?,
            leaf_nodes: no_nodes(alloc, counts.leaves as usize)?,
            faces: list_with_room(alloc, faces)?,
            revealed: list_with_room(alloc, faces)?,
        })
    }

    /// Takes the next root in. It takes as many steps as the root has leaves.
    pub(crate) fn add_root(&mut self, root: Root)
        requires next { length self.old.h.roots < self.old.counts.roots }
        requires leaves { sum (widths_of self.old.h.roots) + root.width ≤ self.old.counts.leaves }
        ensures { self.new
            ≡ record self.old { h = record self.old.h { roots = self.old.h.roots ++ root ∷ [] } } }
    {
        let node = self.roots.len() as u32;
        let from = self.owners.len() as u32;
        note_owners(&mut self.owners, root.width, node);
        note_node(
            &mut self.intervals,
            &mut self.leaf_nodes,
            node,
            from,
            from + root.width,
        );
        self.roots.push_within_room(root);
    }

    /// Takes the next base face in.
    pub(crate) fn add_base(&mut self, face: Face)
        requires roots { length self.old.h.roots ≡ self.old.counts.roots }
        requires next { length self.old.h.bases < self.old.counts.bases }
        ensures { self.new
            ≡ record self.old { h = record self.old.h { bases = self.old.h.bases ++ face ∷ [] } } }
    {
        self.faces.push_within_room(face);
        self.revealed.push_within_room(OptionalNumber::of(None));
        self.bases.push_within_room(face);
    }

    /// Takes the next record in, whose faces are still to come.
    pub(crate) fn add_record(&mut self, split: Record)
        requires roots { length self.old.h.roots ≡ self.old.counts.roots }
        requires bases { length self.old.h.bases ≡ self.old.counts.bases }
        requires next { record_count self.old.h < self.old.counts.records }
        requires settled { self.old.coming ≡ None }
        requires faces { WithoutFaces split }
        requires node { split.s < node_count self.old.h }
        requires unsplit { splitter_of self.old.h split.s ≡ None }
        requires first { 0 < split.width }
        requires rest { (interval_of self.old.h split.s).from + split.width
            < (interval_of self.old.h split.s).until }
        ensures { self.new ≡ record self.old { coming = Some split } }
    {
        let number = self.records.len() as u32;
        let first = self.roots.len() as u32 + 2 * number;
        let (from, until) = self.intervals[split.s as usize];
        let cut = from + split.width;
        note_node(&mut self.intervals, &mut self.leaf_nodes, first, from, cut);
        note_node(
            &mut self.intervals,
            &mut self.leaf_nodes,
            first + 1,
            cut,
            until,
        );
        self.splitters[split.s as usize] = OptionalNumber::of(Some(number));
        self.coming = Some(split);
    }

    /// Takes the next face of the coming record in: its left face, or its right face.
    pub(crate) fn add_face(&mut self, left: bool, face: NewFace)
        requires coming { IfSome self.old.coming (λ r. is_some (if left then r.left else r.right)
            ≡ false) }
        requires there { is_some self.old.coming ≡ true }
        requires in_order { IfSome self.old.coming (λ r. left ≡ true → is_some r.right ≡ false) }
        requires few { face_count (grown self.old) < MOST_FACES }
        ensures { IfSome self.old.coming
            (λ r. self.new ≡ record self.old { coming = Some (with_new_face r left face) }) }
    {
        let number = self.records.len() as u32;
        self.faces.push_within_room(face.face);
        self.revealed
            .push_within_room(OptionalNumber::of(Some(number)));
        set_face(&mut self.coming, left, face);
    }

    /// Puts the coming record to the others.
    pub(crate) fn settle(&mut self)
        requires { is_some self.old.coming ≡ true }
        ensures { IfSome self.old.coming
            (λ r. self.new ≡ record self.old { h = with_record self.old.h r; coming = None }) }
    {
        if let Some(split) = self.coming.take() {
            self.records.push_within_room(split);
        }
    }
}
