//! The nodes of the hierarchy that is being shown.
ghost use Rattle.std.specs.Prelude.{◌≡◌, ◌<◌};
ghost use Rattle.pm_base.specs.Counts.{set_of};
ghost use Rattle.pm_forest.specs.Forest.{node_count, leaf_count, record_count, splitter_of};
ghost use Rattle.pm_forest.specs.Forest.{maker_of};
ghost use Rattle.pm_forest.specs.Fronts.{ancestor_of};
ghost use Rattle.pm_forest.specs.Places.{place_of_node};

use crate::looking::ancestor;
use crate::viewer::Viewer;
use pm_base::{NodeId, Point};

impl Viewer {
    /// How many records the hierarchy has.
    pub fn records(&self) -> u32
        ensures { result ≡ record_count self.now.shown.h }
    {
        self.hierarchy().records()
    }

    /// How many leaves it has.
    pub fn leaves(&self) -> u32
        ensures { result ≡ leaf_count self.now.shown.h }
    {
        self.hierarchy().leaves()
    }

    /// How many nodes it has in all.
    pub fn nodes(&self) -> u32
        ensures { result ≡ node_count self.now.shown.h }
    {
        self.hierarchy().nodes()
    }

    /// The record that splits a node; none exactly for a node of one leaf, which none splits.
    pub fn splitter(&self, node: u32) -> Option<u32>
        requires { node < node_count self.now.shown.h }
        ensures value { result ≡ splitter_of self.now.shown.h node }
    {
        self.hierarchy().splitter(NodeId(node))
    }

    /// The record that made a node; none exactly for a root.
    pub fn maker(&self, node: u32) -> Option<u32>
        requires { node < node_count self.now.shown.h }
        ensures value { result ≡ maker_of self.now.shown.h node }
    {
        self.hierarchy().maker(NodeId(node))
    }

    /// The ancestor of a leaf: the one active node that has it below it. It costs a climb from the
    /// leaf.
    pub fn ancestor(&self, leaf: u32) -> u32
        requires { leaf < leaf_count self.now.shown.h }
        ensures { result ≡ ancestor_of self.now.shown.h (set_of self.now.shown.flags) leaf }
    {
        ancestor(self.session().front(), leaf)
    }

    /// The place of a node.
    pub fn place(&self, node: u32) -> Point
        requires { node < node_count self.now.shown.h }
        ensures { result ≡ place_of_node self.now.shown.h node }
    {
        self.hierarchy().place(NodeId(node))
    }
}
