//! The maps of nodes, which every change keeps in agreement.

ghost use Rattle.std.specs.Prelude.{◌≡◌, ◌≢◌, ℕ, ◌+◌, ◌<◌, ◌≤◌, Some, None, IsSome, IfOk, OnOk, OnSome, IfSome, IfNone, true, false, Option};
ghost use Rattle.lfs_nodes.specs.declared.place.Place.{Place};
ghost use Rattle.lfs_nodes.specs.declared.node.Hang.TheVariants.{Root, At, Gone};
ghost use Rattle.lfs_nodes.specs.Maps.{node_at, id_at, room_in, spare_in, nodes_in, changed_at};
ghost use Rattle.lfs_nodes.specs.Changes.{hung, counted, opened};

use crate::index::Index;
use crate::node::{Hang, Node, place_of};
use crate::place::Place;
use crate::table::Table;

/// The node of each id, the id at each place, and the id that the next new node gets.
#[derive(Drop)]
pub struct Parts {
    pub(crate) table: Table,
    pub(crate) index: Index,
    pub(crate) next: u64,
}

impl Parts {
    ghost use Rattle.lfs_nodes.specs.Whole.{IsWhole};
    ghost use Rattle.lfs_nodes.specs.Reads.{hang_in, children_in};
    ghost use Rattle.lfs_nodes.specs.Nodes.{known};
    ghost use Rattle.lfs_nodes.specs.Holds.{fresh, is_held, is_known_held};
    ghost use Rattle.lfs_nodes.specs.declared.node.Node.{Node};

    /// Takes the node at a place from there. Its row is gone.
    pub(crate) fn unhang(&mut self, place: &Place) -> Option<u64>
        requires { IsWhole self.old }
        ensures whole { IsWhole self.new }
        ensures taken { result ≡ id_at self.old.index place.now }
        ensures changed { IfSome result (λ id. (q : ℕ)
            → known self.new q ≡ changed_at id (hung Gone) (known self.old) q) }
        ensures none { IfNone result ((q : ℕ) → known self.new q ≡ known self.old q) }
        ensures gone { id_at self.new.index place.now ≡ None }
        ensures nowhere { IfSome result (λ id. hang_in (node_at self.new.table id) ≡ Some Gone) }
        ensures still { (q : ℕ) → hang_in (node_at self.old.table q) ≡ Some Gone
            → hang_in (node_at self.new.table q) ≡ Some Gone }
        ensures there { (q : ℕ) → IsSome (node_at self.old.table q)
            → IsSome (node_at self.new.table q) }
        ensures others { (q : Place) → q ≢ place.now
            → id_at self.new.index q ≡ id_at self.old.index q }
        ensures room { room_in self.old.index ≤ room_in self.new.index }
        ensures spare { spare_in self.new.table ≡ spare_in self.old.table }
        ensures next { self.new.next ≡ self.old.next }
        ensures as_many { nodes_in self.new.table ≡ nodes_in self.old.table }
    {
        let id = self.index.take(place)?;
        drop(self.table.hang(id, Hang::Gone));
        self.table.drop_child(place.parent);
        Some(id)
    }

    /// Hangs a node at a place where nothing hangs. The place comes twice: for the node, and for the index.
    pub(crate) fn hang(&mut self, id: u64, place: Place, key: Place)
        requires whole { IsWhole self.old }
        requires gone { hang_in (node_at self.old.table id) ≡ Some Gone }
        requires free { id_at self.old.index place ≡ None }
        requires parent { IsSome (node_at self.old.table place.parent) }
        requires same { key ≡ place }
        requires room { 0 < room_in self.old.index }
        ensures whole { IsWhole self.new }
        ensures changed { (q : ℕ)
            → known self.new q ≡ changed_at id (hung (At place)) (known self.old) q }
        ensures there { id_at self.new.index place ≡ Some id }
        ensures others { (q : Place) → q ≢ place → id_at self.new.index q ≡ id_at self.old.index q }
        ensures next { self.new.next ≡ self.old.next }
    {
        let parent = place.parent;
        let _ = self.table.hang(id, Hang::At(place));
        self.table.add_child(parent);
        self.index.put(key, id);
    }

    /// Adds a node of a row, with one look-up. It hangs nowhere yet.
    pub(crate) fn add(&mut self, row: u32) -> u64
        requires whole { IsWhole self.old }
        requires room { 0 < spare_in self.old.table }
        requires ids { self.old.next < u64.MAX }
        ensures whole { IsWhole self.new }
        ensures id { result ≡ self.old.next }
        ensures next { self.new.next ≡ self.old.next + 1 }
        ensures there { known self.new result ≡ Some (fresh Gone row) }
        ensures others { (q : ℕ) → q ≢ result → known self.new q ≡ known self.old q }
        ensures index { self.new.index ≡ self.old.index }
    {
        let id = self.next;
        self.table.put(id, Node::new(row));
        self.next = id + 1;
        id
    }

    /// Takes a node that isn't the root from where it hangs, and gives the node that it hung in, if it did.
    fn lift(&mut self, id: u64) -> Option<u64>
        requires whole { IsWhole self.old }
        requires below { hang_in (node_at self.old.table id) ≢ Some Root }
        ensures whole { IsWhole self.new }
        ensures changed { (q : ℕ)
            → known self.new q ≡ changed_at id (hung Gone) (known self.old) q }
        ensures childless { children_in (node_at self.old.table id) ≡ Some 0
            → children_in (node_at self.new.table id) ≡ Some 0 }
        ensures next { self.new.next ≡ self.old.next }
        ensures as_many { nodes_in self.new.table ≡ nodes_in self.old.table }
    {
        let place = place_of(self.table.hang(id, Hang::Gone))?;
        let _ = self.index.take(&place);
        self.table.drop_child(place.parent);
        Some(place.parent)
    }

    /// Drops a node that nothing holds, and gives the node that it hung in, if it did.
    pub(crate) fn drop_unheld(&mut self, id: u64) -> Option<u64>
        requires { IsWhole self.old }
        ensures whole { IsWhole self.new }
        ensures dropped { is_held (node_at self.old.table id) ≡ false → known self.new id ≡ None }
        ensures held { is_held (node_at self.old.table id) ≡ true
            → known self.new id ≡ known self.old id }
        ensures others { (q : ℕ) → q ≢ id → known self.new q ≡ known self.old q }
        ensures next { self.new.next ≡ self.old.next }
        ensures fewer { OnSome result (nodes_in self.new.table + 1 ≡ nodes_in self.old.table) }
        ensures no_more { nodes_in self.new.table ≤ nodes_in self.old.table }
    {
        let node = self.table.get(id)?;
        if node.is_held() {
            return None;
        }
        let parent = self.lift(id);
        let _ = self.table.take(id);
        parent
    }

    /// Drops a node that nothing holds, and then each node that hung beneath nothing else and is held by nothing any more.
    pub(crate) fn release(&mut self, id: u64)
        requires { IsWhole self.old }
        ensures whole { IsWhole self.new }
        ensures dropped { is_held (node_at self.old.table id) ≡ false → known self.new id ≡ None }
        ensures held { (q : ℕ) → is_known_held (known self.old q) ≡ true
            → known self.new q ≡ known self.old q }
        ensures others { (q : ℕ) (n : Node) → known self.new q ≡ Some n
            → known self.old q ≡ Some n }
        ensures next { self.new.next ≡ self.old.next }
    {
        let mut above = self.drop_unheld(id);
        while let Some(parent) = above {
            above = self.drop_unheld(parent);
        }
    }

    /// Sets how many look-ups of a node the kernel holds.
    pub(crate) fn set_look_ups(&mut self, id: u64, look_ups: u64)
        requires { IsWhole self.old }
        ensures whole { IsWhole self.new }
        ensures changed { (q : ℕ)
            → known self.new q ≡ changed_at id (counted look_ups) (known self.old) q }
        ensures children { (q : ℕ)
            → children_in (node_at self.new.table q) ≡ children_in (node_at self.old.table q) }
        ensures index { self.new.index ≡ self.old.index }
        ensures next { self.new.next ≡ self.old.next }
    {
        self.table.set_look_ups(id, look_ups);
    }

    /// Sets how many handles are open on a node.
    pub(crate) fn set_handles(&mut self, id: u64, handles: u64)
        requires { IsWhole self.old }
        ensures whole { IsWhole self.new }
        ensures changed { (q : ℕ)
            → known self.new q ≡ changed_at id (opened handles) (known self.old) q }
        ensures children { (q : ℕ)
            → children_in (node_at self.new.table q) ≡ children_in (node_at self.old.table q) }
        ensures index { self.new.index ≡ self.old.index }
        ensures next { self.new.next ≡ self.old.next }
    {
        self.table.set_handles(id, handles);
    }
}
