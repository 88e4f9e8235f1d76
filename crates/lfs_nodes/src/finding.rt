//! Look-ups.

ghost use Rattle.std.specs.Prelude.{◌≡◌, ◌≢◌, ℕ, ◌+◌, ◌<◌, Some, None, true, false, IsSome, IfErr, IfOk, OnOk, OnErr, IfSome, IfNone};
ghost use Rattle.lfs_types.specs.Tree.{Row};
ghost use Rattle.lfs_model.specs.World.{Rows, IsChild, IsTree};
ghost use Rattle.lfs_nodes.specs.declared.place.Place.{Place};
ghost use Rattle.lfs_nodes.specs.declared.node.Hang.TheVariants.{At};
ghost use Rattle.lfs_nodes.specs.LookUps.{IsLookUpFault, IsLookedUp};
ghost use Rattle.lfs_nodes.specs.Maps.{node_at, id_at, room_in, spare_in, changed_at};
ghost use Rattle.lfs_nodes.specs.Moves.{gone_at};
ghost use Rattle.lfs_nodes.specs.Changes.{one_look_up_more, forgotten, one_handle_more, one_handle_fewer};
ghost use Rattle.lfs_nodes.specs.Holds.{fresh, is_known_held};
ghost use Rattle.lfs_nodes.specs.Reads.{children_in};
ghost use Rattle.lfs_nodes.specs.declared.node.Node.{Node};
ghost use Rattle.lfs_nodes.specs.Whole.{IsWhole};
ghost use Rattle.lfs_nodes.specs.Nodes.{known, live_row, IsKnownAs, AreNodes};
ghost use Rattle.lfs_nodes.specs.Staying.{IdsStay};

use crate::fault::LookUpFault;
use crate::parts::Parts;
use crate::place::Place;
use std::alloc::{AllocError, Global};

impl Parts {
    /// The node at a place, where it is of this row.
    fn known_as(&self, place: &Place, row: u32) -> Option<u64>
        ensures there { IfSome result (λ id. IsKnownAs self.now place.now row id) }
        ensures none { IfNone result ((id : ℕ) → IsKnownAs self.now place.now row id → ⊥) }
    {
        let id = self.index.find(place)?;
        let node = self.table.get(id)?;
        if node.row == row { Some(id) } else { None }
    }

    /// Takes room for one node more, and for one place more.
    pub(crate) fn make_room(&mut self) -> Result<(), AllocError>
        requires { IsWhole self.old }
        ensures whole { IsWhole self.new }
        ensures same { (q : ℕ) → known self.new q ≡ known self.old q }
        ensures nodes { (q : ℕ) → node_at self.new.table q ≡ node_at self.old.table q }
        ensures index { (q : Place) → id_at self.new.index q ≡ id_at self.old.index q }
        ensures next { self.new.next ≡ self.old.next }
        ensures room { OnOk result (0 < room_in self.new.index) }
        ensures spare { OnOk result (0 < spare_in self.new.table) }
        ensures ids { IdsStay self.old self.new }
    {
        self.index.reserve()?;
        self.table.reserve()
    }

    /// Hangs a new node of a row at a place, with one look-up. What hung there is gone. The place comes twice: for the node, and
    /// for the index.
    fn attach(&mut self, place: Place, key: Place, row: u32) -> u64
        requires whole { IsWhole self.old }
        requires room { 0 < room_in self.old.index }
        requires spare { 0 < spare_in self.old.table }
        requires ids { self.old.next < u64.MAX }
        requires parent { IsSome (node_at self.old.table place.parent) }
        requires same { key ≡ place }
        ensures whole { IsWhole self.new }
        ensures id { result ≡ self.old.next }
        ensures next { self.new.next ≡ self.old.next + 1 }
        ensures there { known self.new result ≡ Some (fresh (At place) row) }
        ensures others { (q : ℕ) → q ≢ result
            → known self.new q ≡ gone_at (id_at self.old.index place) (known self.old) q }
        ensures ids { IdsStay self.old self.new }
    {
        let _ = self.unhang(&place);
        let id = self.add(row);
        self.hang(id, place, key);
        id
    }

    /// Counts one look-up more of a node. The count stays at the largest number.
    fn count(&mut self, id: u64)
        requires { IsWhole self.old }
        ensures whole { IsWhole self.new }
        ensures changed { (q : ℕ)
            → known self.new q ≡ changed_at id one_look_up_more (known self.old) q }
        ensures next { self.new.next ≡ self.old.next }
        ensures ids { IdsStay self.old self.new }
    {
        if let Some(node) = self.table.get(id) {
            let look_ups = node.look_ups.saturating_add(1);
            self.set_look_ups(id, look_ups);
        }
    }

    /// The node at a place, of this row, with one look-up more, or a new one.
    pub(crate) fn find(&mut self, alloc: Global, place: Place, row: u32) -> Result<u64, LookUpFault>
        requires { IsWhole self.old }
        ensures whole { IsWhole self.new }
        ensures again { (id : ℕ) → IsKnownAs self.old place row id → (result ≡ Ok id)
            × ((q : ℕ) → known self.new q ≡ changed_at id one_look_up_more (known self.old) q) }
        ensures fresh { ((id : ℕ) → IsKnownAs self.old place row id → ⊥)
            → IfOk result (λ id. (id ≡ self.old.next) × (self.new.next ≡ self.old.next + 1)
            × (known self.new id ≡ Some (fresh (At place) row))) }
        ensures others { id_at self.old.index place ≡ None
            → IfOk result (λ id. (q : ℕ) → q ≢ id → known self.new q ≡ known self.old q) }
        ensures found { IfOk result (λ id. IsLookedUp self.old place row id self.new) }
        ensures fault { IfErr result (IsLookUpFault self.old place.parent) }
        ensures failed { OnErr result ((q : ℕ) → known self.new q ≡ known self.old q) }
        ensures ids { IdsStay self.old self.new }
    {
        if let Some(id) = self.known_as(&place, row) {
            self.count(id);
            return Ok(id);
        }
        if self.table.get(place.parent).is_none() {
            return Err(LookUpFault::Stale);
        }
        if self.next == u64::MAX {
            return Err(LookUpFault::Exhausted);
        }
        let key = place.try_clone(alloc)?;
        self.make_room()?;
        Ok(self.attach(place, key, row))
    }

    /// Takes so many look-ups from a node, and drops it where nothing holds it any more, and then what hung beneath nothing else.
    pub(crate) fn forget(&mut self, id: u64, count: u64)
        requires { IsWhole self.old }
        ensures whole { IsWhole self.new }
        ensures counted { (n : Node) → known self.old id ≡ Some n
            → is_known_held (Some (forgotten count n)) ≡ true
            → known self.new id ≡ Some (forgotten count n) }
        ensures dropped { (n : Node) → known self.old id ≡ Some n
            → is_known_held (Some (forgotten count n)) ≡ false
            → children_in (node_at self.old.table id) ≡ Some 0 → known self.new id ≡ None }
        ensures held { (q : ℕ) → q ≢ id → is_known_held (known self.old q) ≡ true
            → known self.new q ≡ known self.old q }
        ensures others { (q : ℕ) (n : Node) → q ≢ id → known self.new q ≡ Some n
            → known self.old q ≡ Some n }
        ensures nodes { (rows : Rows) → AreNodes rows (known self.old)
            → AreNodes rows (known self.new) }
        ensures next { self.new.next ≡ self.old.next }
        ensures ids { IdsStay self.old self.new }
    {
        if let Some(node) = self.table.get(id) {
            let look_ups = node.look_ups.saturating_sub(count);
            self.set_look_ups(id, look_ups);
            self.release(id);
        }
    }

    /// Counts one handle more on a node. The count stays at the largest number.
    pub(crate) fn open(&mut self, id: u64)
        requires { IsWhole self.old }
        ensures whole { IsWhole self.new }
        ensures opened { (q : ℕ)
            → known self.new q ≡ changed_at id one_handle_more (known self.old) q }
        ensures nodes { (rows : Rows) → AreNodes rows (known self.old)
            → AreNodes rows (known self.new) }
        ensures next { self.new.next ≡ self.old.next }
        ensures ids { IdsStay self.old self.new }
    {
        if let Some(node) = self.table.get(id) {
            let handles = node.handles.saturating_add(1);
            self.set_handles(id, handles);
        }
    }

    /// Takes a handle from a node, and drops it where nothing holds it any more, and then what hung beneath nothing else.
    pub(crate) fn close(&mut self, id: u64)
        requires { IsWhole self.old }
        ensures whole { IsWhole self.new }
        ensures counted { (n : Node) → known self.old id ≡ Some n
            → is_known_held (Some (one_handle_fewer n)) ≡ true
            → known self.new id ≡ Some (one_handle_fewer n) }
        ensures dropped { (n : Node) → known self.old id ≡ Some n
            → is_known_held (Some (one_handle_fewer n)) ≡ false
            → children_in (node_at self.old.table id) ≡ Some 0 → known self.new id ≡ None }
        ensures held { (q : ℕ) → q ≢ id → is_known_held (known self.old q) ≡ true
            → known self.new q ≡ known self.old q }
        ensures others { (q : ℕ) (n : Node) → q ≢ id → known self.new q ≡ Some n
            → known self.old q ≡ Some n }
        ensures nodes { (rows : Rows) → AreNodes rows (known self.old)
            → AreNodes rows (known self.new) }
        ensures next { self.new.next ≡ self.old.next }
        ensures ids { IdsStay self.old self.new }
    {
        if let Some(node) = self.table.get(id) {
            let handles = node.handles.saturating_sub(1);
            self.set_handles(id, handles);
            self.release(id);
        }
    }
}
