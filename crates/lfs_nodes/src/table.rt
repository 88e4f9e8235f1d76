//! The node of each id, found by hashing.

ghost use Rattle.std.specs.Prelude.{◌≡◌, ◌≢◌, ℕ, ◌+◌, ◌<◌, ◌≤◌, Some, None, IfOk, OnOk, OnSome};
ghost use Rattle.std.specs.Option.{option_copied};

use crate::node::{Hang, Node};
use std::alloc::{AllocError, Global};
use std::collections::HashMap;
use std::mem;

/// The nodes that are known, by id.
#[derive(Drop)]
pub struct Table {
    nodes: HashMap<u64, Node>,
}

impl Table {
    ghost use Rattle.lfs_nodes.specs.Maps.{node_at, changed_at, nodes_in, spare_in};
    ghost use Rattle.lfs_nodes.specs.Reads.{hang_in};
    ghost use Rattle.lfs_nodes.specs.Changes.{hung, one_child_more, one_child_fewer, counted, opened};

    /// No node.
    pub(crate) fn new(alloc: Global) -> Table
        ensures { (q : ℕ) → node_at result q ≡ None }
    {
        Table {
            nodes: HashMap::new(alloc),
        }
    }

    /// The node of an id.
    pub(crate) fn get(&self, id: u64) -> Option<&Node>
        ensures { option_copied result ≡ node_at self.now id }
    {
        self.nodes.get(&id)
    }

    /// Takes room for one node more.
    pub(crate) fn reserve(&mut self) -> Result<(), AllocError>
        ensures same { (q : ℕ) → node_at self.new q ≡ node_at self.old q }
        ensures room { OnOk result (0 < spare_in self.new) }
    {
        self.nodes.reserve(1)
    }

    /// Puts a node under an id.
    pub(crate) fn put(&mut self, id: u64, node: Node)
        requires { 0 < spare_in self.old }
        ensures there { node_at self.new id ≡ Some node }
        ensures others { (q : ℕ) → q ≢ id → node_at self.new q ≡ node_at self.old q }
    {
        let put: Result<_, _> = self.nodes.insert(id, node);
        let _ = put.unwrap();
    }

    /// Takes the node of an id out.
    pub(crate) fn take(&mut self, id: u64) -> Option<Node>
        ensures taken { result ≡ node_at self.old id }
        ensures gone { node_at self.new id ≡ None }
        ensures others { (q : ℕ) → q ≢ id → node_at self.new q ≡ node_at self.old q }
        ensures fewer { OnSome result (nodes_in self.new + 1 ≡ nodes_in self.old) }
        ensures no_more { nodes_in self.new ≤ nodes_in self.old }
    {
        self.nodes.remove(&id)
    }

    /// Hangs a node elsewhere, and gives where it hung.
    pub(crate) fn hang(&mut self, id: u64, hang: Hang) -> Option<Hang>
        ensures was { result ≡ hang_in (node_at self.old id) }
        ensures changed { (q : ℕ)
            → node_at self.new q ≡ changed_at id (hung hang) (node_at self.old) q }
        ensures as_many { nodes_in self.new ≡ nodes_in self.old }
        ensures spare { spare_in self.new ≡ spare_in self.old }
    {
        match self.nodes.get_mut(&id) {
            Some(node) => Some(mem::replace(&mut node.hang, hang)),
            None => None,
        }
    }

    /// Counts one node more beneath a node.
    pub(crate) fn add_child(&mut self, id: u64)
        ensures changed { (q : ℕ)
            → node_at self.new q ≡ changed_at id one_child_more (node_at self.old) q }
        ensures as_many { nodes_in self.new ≡ nodes_in self.old }
    {
        if let Some(node) = self.nodes.get_mut(&id) {
            node.children = node.children.saturating_add(1);
        }
    }

    /// Counts one node fewer beneath a node.
    pub(crate) fn drop_child(&mut self, id: u64)
        ensures changed { (q : ℕ)
            → node_at self.new q ≡ changed_at id one_child_fewer (node_at self.old) q }
        ensures as_many { nodes_in self.new ≡ nodes_in self.old }
        ensures spare { spare_in self.new ≡ spare_in self.old }
    {
        if let Some(node) = self.nodes.get_mut(&id) {
            node.children = node.children.saturating_sub(1);
        }
    }

    /// Sets how many look-ups of a node the kernel holds.
    pub(crate) fn set_look_ups(&mut self, id: u64, look_ups: u64)
        ensures changed { (q : ℕ)
            → node_at self.new q ≡ changed_at id (counted look_ups) (node_at self.old) q }
        ensures as_many { nodes_in self.new ≡ nodes_in self.old }
    {
        if let Some(node) = self.nodes.get_mut(&id) {
            node.look_ups = look_ups;
        }
    }

    /// Sets how many handles are open on a node.
    pub(crate) fn set_handles(&mut self, id: u64, handles: u64)
        ensures changed { (q : ℕ)
            → node_at self.new q ≡ changed_at id (opened handles) (node_at self.old) q }
        ensures as_many { nodes_in self.new ≡ nodes_in self.old }
    {
        if let Some(node) = self.nodes.get_mut(&id) {
            node.handles = handles;
        }
    }
}
