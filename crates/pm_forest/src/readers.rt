//! What is read of a forest that grows.
ghost use Rattle.std.specs.Prelude.{◌≡◌, ◌+◌, ◌-◌, ◌*◌, ◌<◌, ◌≤◌, length, is_some};
ghost use Rattle.std.specs.Prelude.{Option, Some, slice_index_or};
ghost use Rattle.pm_base.specs.declared.limits.TheConstants.{MOST_FACES, MOST_NODES, MOST_VERTICES};
ghost use Rattle.pm_forest.specs.Forest.{widths, leaf_count, node_count, root_of, interval_of};
ghost use Rattle.pm_forest.specs.Forest.{Interval, record_count, splitter_of, t_of, u_of};
ghost use Rattle.pm_forest.specs.Faces.{faces_of, face_count, revealed_by, no_face_corners};
ghost use Rattle.pm_forest.specs.Tables.{grown, IsSingle, leaf_node_of};

use crate::growing::Growing;
use crate::{Counts, Face, FaceList, Record, Records, Roots};

impl Growing {
    /// The limits that the forest was made for.
    pub fn counts(&self) -> Counts
        ensures value { result ≡ self.now.counts }
        ensures leaves { result.leaves ≤ MOST_VERTICES }
        ensures bases { result.bases ≤ MOST_FACES }
        ensures all { result.roots + result.records ≡ result.leaves }
    {
        self.counts
    }

    /// The roots so far.
    pub fn roots(&self) -> &Roots
        ensures value { result.now.items ≡ self.now.h.roots }
        ensures most { length result.now.items ≤ MOST_VERTICES }
    {
        &self.roots
    }

    /// The base faces so far.
    pub fn bases(&self) -> &FaceList
        ensures value { result.now.items ≡ self.now.h.bases }
        ensures most { length result.now.items ≤ MOST_FACES }
    {
        &self.bases
    }

    /// The whole records so far.
    pub fn records(&self) -> &Records
        ensures value { result.now.items ≡ self.now.h.records }
        ensures most { length result.now.items ≤ MOST_VERTICES }
    {
        &self.records
    }

    /// The record whose faces are still to come.
    pub fn coming(&self) -> &Option<Record>
        ensures { result.now ≡ self.now.coming }
    {
        &self.coming
    }

    /// How many leaves the roots so far have.
    pub fn leaves(&self) -> u32
        ensures value { result ≡ leaf_count self.now.h }
        ensures most { result ≤ self.now.counts.leaves }
    {
        self.owners.len() as u32
    }

    /// How many nodes there are, the children of the coming record among them.
    pub fn nodes(&self) -> u32
        ensures value { result ≡ node_count (grown self.now) }
        ensures most { result ≤ MOST_NODES }
    {
        let records = self.records.len() + if self.coming.is_some() { 1 } else { 0 };
        (self.roots.len() + 2 * records) as u32
    }

    /// How many faces there are, those of the coming record among them.
    pub fn faces(&self) -> u32
        ensures value { result ≡ face_count (grown self.now) }
        ensures most { result ≤ MOST_FACES }
    {
        self.faces.len() as u32
    }

    /// The root of a leaf.
    #[tactic(auto, using(crate::proofs::GrowthLaws::owner_read))]
    pub fn owner(&self, leaf: u32) -> u32
        requires { leaf < leaf_count self.now.h }
        ensures { result ≡ root_of (widths self.now.h) 0 leaf }
    {
        *self.owners.get(leaf as usize)
    }

    /// The leaves of a node: the first, and the first after.
    pub fn interval(&self, node: u32) -> (u32, u32)
        requires { node < node_count (grown self.now) }
        ensures { interval_of (grown self.now) node ≡ record { from = result.0; until = result.1 } }
    {
        self.intervals[node as usize]
    }

    /// How many leaves a node has.
    pub fn width(&self, node: u32) -> u32
        requires { node < node_count (grown self.now) }
        ensures { let leaves : Interval = interval_of (grown self.now) node in
            result ≡ leaves.until - leaves.from }
    {
        let (from, until) = self.intervals[node as usize];
        until - from
    }

    /// The first leaf of the second child that the coming record makes. Those before it are the
    /// first child's.
    pub fn cut(&self, split: &Record) -> u32
        requires coming { self.now.coming ≡ Some split.now }
        requires node { split.now.s < node_count (grown self.now) }
        ensures first { interval_of (grown self.now) (t_of self.now.h (record_count self.now.h))
            ≡ record { from = (interval_of (grown self.now) split.now.s).from; until = result } }
        ensures second { interval_of (grown self.now) (u_of self.now.h (record_count self.now.h))
            ≡ record { from = result; until = (interval_of (grown self.now) split.now.s).until } }
    {
        let (from, _) = self.intervals[split.s as usize];
        from + split.width
    }

    /// The record that splits a node.
    pub fn splitter(&self, node: u32) -> Option<u32>
        requires { node < node_count (grown self.now) }
        ensures { result ≡ splitter_of (grown self.now) node }
    {
        self.splitters[node as usize].get()
    }

    /// The node of a leaf, once it has one of its own.
    pub fn leaf_node(&self, leaf: u32) -> u32
        requires leaf { leaf < leaf_count self.now.h }
        requires single { IsSingle
            (interval_of (grown self.now) (leaf_node_of (grown self.now) leaf)) }
        ensures { result ≡ leaf_node_of (grown self.now) leaf }
    {
        self.leaf_nodes[leaf as usize]
    }

    /// Face `f`, by its number.
    pub fn face(&self, f: u32) -> Face
        requires { f < face_count (grown self.now) }
        ensures { result ≡ slice_index_or (faces_of (grown self.now)) f no_face_corners }
    {
        *self.faces.get(f as usize)
    }

    /// The record that reveals a face.
    pub fn revealed_by(&self, f: u32) -> Option<u32>
        requires { f < face_count (grown self.now) }
        ensures { result ≡ revealed_by (grown self.now) f }
    {
        self.revealed.get(f as usize).get()
    }
}
