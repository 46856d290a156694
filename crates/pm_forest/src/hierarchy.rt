//! Hierarchies that are whole, and their readers.
ghost use Rattle.std.specs.Prelude.{◌≡◌, ◌+◌, ◌≤◌, ◌<◌, ◌↔◌, None, IfSome, length, slice_index_or};
ghost use Rattle.pm_base.specs.declared.limits.TheConstants.{MOST_FACES, MOST_NODES, MOST_VERTICES};
ghost use Rattle.pm_forest.specs.Forest.{leaf_count, node_count, record_count, record_at, t_of};
ghost use Rattle.pm_forest.specs.Forest.{u_of, interval_of, maker_of, splitter_of};
ghost use Rattle.pm_forest.specs.Faces.{faces_of, face_count, revealed_by, corners_of};
ghost use Rattle.pm_forest.specs.Faces.{no_face_corners};
ghost use Rattle.pm_forest.specs.Places.{place_of_node};
ghost use Rattle.pm_forest.specs.Rules.{HasShape, counts_of};
ghost use Rattle.pm_forest.specs.Shaping.{HasBegun};
ghost use Rattle.pm_forest.specs.Tables.{leaf_node_of};

use crate::growing::Growing;
use crate::{Face, Record, Root};
use pm_base::{FaceId, NodeId, Point};
use std::marker::Model;

/// A hierarchy of the right shape. Contracts see its roots, base faces and records.
#[derive(Drop)]
pub struct Hierarchy {
    forest: Growing,
}

impl Model for Hierarchy {
    ghost use Rattle.std.specs.Prelude.{◌≡◌, None};
    ghost use Rattle.pm_forest.specs.Forest.{Hierarchy};
    ghost use Rattle.pm_forest.specs.Rules.{HasShape, counts_of};

    ghost Value = { Hierarchy };

    ghost view = { λ h. h.forest.h };

    ghost invariant = { λ h. HasShape h.forest.h × (h.forest.coming ≡ None)
        × (counts_of h.forest.h ≡ h.forest.counts) };
}

impl Hierarchy {
    // The hierarchy of a forest that has all its units, none of which has a fault.
    pub(crate) fn new(forest: Growing) -> Hierarchy
        requires shape { HasShape forest.h }
        requires whole { forest.coming ≡ None }
        requires counts { counts_of forest.h ≡ forest.counts }
        ensures { result ≡ forest.h }
    {
        Hierarchy { forest }
    }

    /// The hierarchy has the right shape.
    pub fn invariant(&self)
        ensures { HasShape self.now }
    {
        let _ = &self.forest;
    }

    /// Its forest, which has all its units.
    pub fn forest(&self) -> &Growing
        ensures units { result.now.h ≡ self.now }
        ensures begun { HasBegun result.now.counts self.now }
        ensures whole { result.now.coming ≡ None }
    {
        &self.forest
    }

    /// How many roots there are.
    pub fn roots(&self) -> u32
        ensures value { result ≡ length self.now.roots }
        ensures most { result ≤ MOST_VERTICES }
    {
        self.forest.roots().len() as u32
    }

    /// How many leaves there are.
    pub fn leaves(&self) -> u32
        ensures value { result ≡ leaf_count self.now }
        ensures most { result ≤ MOST_VERTICES }
    {
        self.forest.counts().leaves
    }

    /// How many records there are.
    pub fn records(&self) -> u32
        ensures value { result ≡ record_count self.now }
        ensures most { result ≤ MOST_VERTICES }
    {
        self.forest.records().len() as u32
    }

    /// How many base faces there are.
    pub fn bases(&self) -> u32
        ensures value { result ≡ length self.now.bases }
        ensures most { result ≤ MOST_FACES }
    {
        self.forest.bases().len() as u32
    }

    /// How many faces there are in all.
    pub fn faces(&self) -> u32
        ensures value { result ≡ face_count self.now }
        ensures most { result ≤ MOST_FACES }
    {
        self.forest.faces()
    }

    /// How many nodes there are.
    pub fn nodes(&self) -> u32
        ensures value { result ≡ node_count self.now }
        ensures most { result ≤ MOST_NODES }
    {
        self.forest.nodes()
    }

    /// Root `i`, counted from 0.
    pub fn root_at(&self, i: u32) -> Root
        requires { i < length self.now.roots }
        ensures { result ≡ slice_index_or self.now.roots i result }
    {
        *self.forest.roots().get(i as usize)
    }

    /// Base face `i`, counted from 0.
    pub fn base_at(&self, i: u32) -> Face
        requires { i < length self.now.bases }
        ensures { result ≡ slice_index_or self.now.bases i result }
    {
        *self.forest.bases().get(i as usize)
    }

    /// Record `k`, counted from 0.
    pub fn record_at(&self, k: u32) -> &Record
        requires { k < record_count self.now }
        ensures { result.now ≡ record_at self.now k }
    {
        self.forest.records().get(k as usize)
    }

    /// Face `f`: a base face, or a face of a record.
    pub fn face_at(&self, f: FaceId) -> Face
        requires { f.0 < face_count self.now }
        ensures value { result ≡ slice_index_or (faces_of self.now) f.0 no_face_corners }
        ensures corners { result ≡ corners_of self.now f.0 }
    {
        self.forest.face(f.0)
    }

    /// The two children of the node that record `k` splits.
    pub fn children(&self, k: u32) -> (NodeId, NodeId)
        requires { k < record_count self.now }
        ensures t { result.0.0 ≡ t_of self.now k }
        ensures u { result.1.0 ≡ u_of self.now k }
        ensures nodes { result.1.0 < node_count self.now }
    {
        let t = self.nodes() - 2 * (self.records() - k);
        (NodeId(t), NodeId(t + 1))
    }

    /// The leaves of a node: the first leaf, and the first leaf after.
    pub fn interval(&self, node: NodeId) -> (u32, u32)
        requires { node.0 < node_count self.now }
        ensures { interval_of self.now node.0 ≡ record { from = result.0; until = result.1 } }
    {
        self.forest.interval(node.0)
    }

    /// The place of a node.
    pub fn place(&self, node: NodeId) -> Point
        requires { node.0 < node_count self.now }
        ensures { result ≡ place_of_node self.now node.0 }
    {
        let roots = self.roots();
        if node.0 < roots {
            return self.root_at(node.0).place;
        }
        let split = self.record_at((node.0 - roots) / 2);
        if (node.0 - roots) % 2 == 0 {
            split.t.place
        } else {
            split.u.place
        }
    }

    /// The node of a leaf: the one node that has this leaf alone below it.
    pub fn leaf_node(&self, leaf: u32) -> NodeId
        requires { leaf < leaf_count self.now }
        ensures value { result.0 ≡ leaf_node_of self.now leaf }
        ensures alone { interval_of self.now result.0 ≡ record { from = leaf; until = leaf + 1 } }
        ensures node { result.0 < node_count self.now }
    {
        NodeId(self.forest.leaf_node(leaf))
    }

    /// The record that made a node; none exactly for a root.
    pub fn maker(&self, node: NodeId) -> Option<u32>
        requires { node.0 < node_count self.now }
        ensures value { result ≡ maker_of self.now node.0 }
        ensures below { IfSome result (λ k. k < record_count self.now) }
    {
        node.0.checked_sub(self.roots()).map(|after| after / 2)
    }

    /// The record that splits a node; none exactly for a node of one leaf.
    pub fn splitter(&self, node: NodeId) -> Option<u32>
        requires { node.0 < node_count self.now }
        ensures value { result ≡ splitter_of self.now node.0 }
        ensures none { (result ≡ None)
            ↔ ((interval_of self.now node.0).until ≡ (interval_of self.now node.0).from + 1) }
        ensures below { IfSome result (λ k. k < record_count self.now) }
    {
        self.forest.splitter(node.0)
    }

    /// The record that reveals a face; none exactly for a base face.
    pub fn revealed_by(&self, f: FaceId) -> Option<u32>
        requires { f.0 < face_count self.now }
        ensures value { result ≡ revealed_by self.now f.0 }
        ensures none { (result ≡ None) ↔ (f.0 < length self.now.bases) }
        ensures below { IfSome result (λ k. k < record_count self.now) }
    {
        self.forest.revealed_by(f.0)
    }
}
