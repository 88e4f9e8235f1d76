//! The nodes of a mount.

ghost use Rattle.std.specs.Prelude.{◌≡◌, ◌≢◌, ℕ, ◌+◌, ◌-◌, ◌≤◌, List, [], Some, None, true, false, Option, IfErr, IfOk, OnOk, OnErr, ◌<◌, length, IsTrue, IsSome, ◌↔◌};
ghost use Rattle.std.specs.FinMap as map;
ghost use Rattle.lfs_model.specs.World.{Rows, IsChild, IsTree, child, children};
ghost use Rattle.lfs_model.specs.Effects.{after_rename};
ghost use Rattle.lfs_nodes.specs.declared.node.Hang.TheVariants.{At, Gone};
ghost use Rattle.lfs_nodes.specs.declared.node.Node.{Node};
ghost use Rattle.lfs_nodes.specs.LookUps.{IsLookUpFault, IsLookedUp};
ghost use Rattle.lfs_nodes.specs.Maps.{node_at, id_at, room_in, changed_at};
ghost use Rattle.lfs_nodes.specs.declared.place.Place.{Place};
ghost use Rattle.lfs_nodes.specs.Changes.{hung, one_look_up_more, counted, forgotten, one_handle_more, one_handle_fewer};
ghost use Rattle.lfs_nodes.specs.Holds.{fresh, is_known_held, root_node};
ghost use Rattle.lfs_nodes.specs.Reads.{hang_in, number_in, children_in};
ghost use Rattle.lfs_model.specs.Rules.{reached};
ghost use Rattle.lfs_types.specs.Paths.{items_of};
ghost use Rattle.lfs_types.specs.Tree.{World, root as root_row};
ghost use Rattle.lfs_nodes.specs.Ways.{NamesDown};
ghost use Rattle.lfs_nodes.specs.Moves.{moved_at};
ghost use Rattle.lfs_nodes.specs.Nodes.{place_at, known, live_row, is_at, IsKnownAs, AreNodes};
ghost use Rattle.lfs_nodes.specs.Staying.{IdsStay};

use crate::fault::{LookUpFault, PathFault};
use crate::index::Index;
use crate::moving::Renaming;
use crate::node::{Hang, Node};
use crate::parts::Parts;
use crate::place::{NodeId, Place, ROOT_ID};
use crate::table::Table;
use crate::way::names_up;
use lfs_types::name::Name;
use std::alloc::{AllocError, Global};
use std::marker::Model;

/// The nodes that the kernel knows of, each with its place in the tree, and the counts by which it is held.
#[derive(Drop)]
pub struct Nodes {
    parts: Parts,
}

impl Model for Nodes {
    ghost use Rattle.lfs_nodes.specs.declared.parts.Parts.{Parts};

    ghost Value = { Parts };

    ghost use Rattle.lfs_nodes.specs.contracts.parts.Parts as parts_type;
    ghost use Rattle.std.specs.Coded.{codes};

    ghost coded = { Prim.hlevel (codes, parts_type.the_row.coded) };

    ghost view = { λ n. n.parts };

    ghost use Rattle.lfs_nodes.specs.Whole.{IsWhole};

    ghost invariant = { λ n. IsWhole n.parts };
}

impl Nodes {
    /// The node of this row at a name, with one look-up more, or a new one.
    pub fn look_up(
        &mut self,
        alloc: Global,
        parent: NodeId,
        name: Name,
        row: u32,
    ) -> Result<NodeId, LookUpFault>
        ensures again { (id : ℕ) → IsKnownAs self.old (place_at parent.0 name) row id
            → (result ≡ Ok (record { 0 = id }))
            × ((q : ℕ) → known self.new q ≡ changed_at id one_look_up_more (known self.old) q) }
        ensures fresh { ((id : ℕ) → IsKnownAs self.old (place_at parent.0 name) row id → ⊥)
            → IfOk result (λ id. (id.0 ≡ self.old.next) × (self.new.next ≡ self.old.next + 1)
            × (known self.new id.0 ≡ Some (fresh (At (place_at parent.0 name)) row))) }
        ensures nodes { (rows : Rows) (p : ℕ) → IsTree rows → AreNodes rows (known self.old)
            → live_row (known self.old parent.0) ≡ Some p → IsChild rows p name row
            → AreNodes rows (known self.new) }
        ensures others { id_at self.old.index (place_at parent.0 name) ≡ None
            → IfOk result (λ id. (q : ℕ) → q ≢ id.0 → known self.new q ≡ known self.old q) }
        ensures found { IfOk result (λ id.
            IsLookedUp self.old (place_at parent.0 name) row id.0 self.new) }
        ensures fault { IfErr result (IsLookUpFault self.old parent.0) }
        ensures failed { OnErr result ((q : ℕ) → known self.new q ≡ known self.old q) }
        ensures ids { IdsStay self.old self.new }
    {
        let place = Place {
            parent: parent.0,
            name,
        };
        match self.parts.find(alloc, place, row) {
            Ok(id) => Ok(NodeId(id)),
            Err(fault) => Err(fault),
        }
    }

    /// The kernel forgets so many look-ups of a node. What nothing holds any more is dropped.
    pub fn forget(&mut self, node: NodeId, count: u64)
        ensures counted { (n : Node) → known self.old node.0 ≡ Some n
            → is_known_held (Some (forgotten count n)) ≡ true
            → known self.new node.0 ≡ Some (forgotten count n) }
        ensures dropped { (n : Node) → known self.old node.0 ≡ Some n
            → is_known_held (Some (forgotten count n)) ≡ false
            → children_in (node_at self.old.table node.0) ≡ Some 0 → known self.new node.0 ≡ None }
        ensures held { (q : ℕ) → q ≢ node.0 → is_known_held (known self.old q) ≡ true
            → known self.new q ≡ known self.old q }
        ensures others { (q : ℕ) (n : Node) → q ≢ node.0 → known self.new q ≡ Some n
            → known self.old q ≡ Some n }
        ensures nodes { (rows : Rows) → AreNodes rows (known self.old)
            → AreNodes rows (known self.new) }
        ensures next { self.new.next ≡ self.old.next }
        ensures ids { IdsStay self.old self.new }
    {
        self.parts.forget(node.0, count);
    }

    /// An Unlink or Rmdir of this name was served: its node, if one is known, is gone.
    pub fn removed(&mut self, parent: NodeId, name: Name)
        ensures gone { (id : ℕ) → id_at self.old.index (place_at parent.0 name) ≡ Some id → (q : ℕ)
            → known self.new q ≡ changed_at id (hung Gone) (known self.old) q }
        ensures none { id_at self.old.index (place_at parent.0 name) ≡ None → (q : ℕ)
            → known self.new q ≡ known self.old q }
        ensures nodes { (rows : Rows) (p n : ℕ) → IsTree rows → AreNodes rows (known self.old)
            → live_row (known self.old parent.0) ≡ Some p → IsChild rows p name n
            → children rows n ≡ [] → AreNodes (map.remove rows n) (known self.new) }
        ensures next { self.new.next ≡ self.old.next }
        ensures ids { IdsStay self.old self.new }
    {
        let place = Place {
            parent: parent.0,
            name,
        };
        let _ = self.parts.unhang(&place);
    }

    /// The root alone, which stays for ever.
    pub fn new(alloc: Global) -> Result<Nodes, AllocError>
        ensures root { IfOk result (λ nodes. known nodes ROOT_ID ≡ Some (root_node)) }
        ensures alone { IfOk result (λ nodes. (q : ℕ) → q ≢ ROOT_ID → known nodes q ≡ None) }
        ensures nodes { IfOk result (λ nodes. (rows : Rows) → AreNodes rows (known nodes)) }
    {
        let mut table = Table::new(alloc);
        table.reserve()?;
        table.put(ROOT_ID, Node::root());
        let parts = Parts {
            table,
            index: Index::new(alloc),
            next: ROOT_ID + 1,
        };
        Ok(Nodes { parts })
    }

    /// Counts one handle more that is open on a node. The count stays at the largest number.
    pub fn open(&mut self, node: NodeId)
        ensures opened { (q : ℕ)
            → known self.new q ≡ changed_at node.0 one_handle_more (known self.old) q }
        ensures nodes { (rows : Rows) → AreNodes rows (known self.old)
            → AreNodes rows (known self.new) }
        ensures next { self.new.next ≡ self.old.next }
        ensures ids { IdsStay self.old self.new }
    {
        self.parts.open(node.0);
    }

    /// Counts one handle fewer. What nothing holds any more is dropped.
    pub fn close(&mut self, node: NodeId)
        ensures counted { (n : Node) → known self.old node.0 ≡ Some n
            → is_known_held (Some (one_handle_fewer n)) ≡ true
            → known self.new node.0 ≡ Some (one_handle_fewer n) }
        ensures dropped { (n : Node) → known self.old node.0 ≡ Some n
            → is_known_held (Some (one_handle_fewer n)) ≡ false
            → children_in (node_at self.old.table node.0) ≡ Some 0 → known self.new node.0 ≡ None }
        ensures held { (q : ℕ) → q ≢ node.0 → is_known_held (known self.old q) ≡ true
            → known self.new q ≡ known self.old q }
        ensures others { (q : ℕ) (n : Node) → q ≢ node.0 → known self.new q ≡ Some n
            → known self.old q ≡ Some n }
        ensures nodes { (rows : Rows) → AreNodes rows (known self.old)
            → AreNodes rows (known self.new) }
        ensures next { self.new.next ≡ self.old.next }
        ensures ids { IdsStay self.old self.new }
    {
        self.parts.close(node.0);
    }

    /// The inode number of the row of a node that is known, also of one whose row is gone.
    pub fn row(&self, node: NodeId) -> Option<u32>
        ensures { result ≡ number_in (known self.now node.0) }
    {
        match self.parts.table.get(node.0) {
            Some(node) => Some(node.row),
            None => None,
        }
    }

    /// Whether the row of a node that is known was removed or replaced.
    pub fn is_gone(&self, node: NodeId) -> bool
        ensures { IsTrue result ↔ (hang_in (known self.now node.0) ≡ Some Gone) }
    {
        match self.parts.table.get(node.0) {
            Some(node) => matches!(&node.hang, Hang::Gone),
            None => false,
        }
    }

    /// Whether a node hangs at this name in the directory of another.
    pub fn is_at(&self, node: NodeId, parent: NodeId, name: &[u8]) -> bool
        ensures { result ≡ is_at (place_at parent.0 name.now) (hang_in (known self.now node.0)) }
    {
        match self.parts.table.get(node.0) {
            Some(node) => match &node.hang {
                Hang::At(place) => place.parent == parent.0 && place.name.as_bytes() == name,
                _ => false,
            },
            None => false,
        }
    }

    /// The names from the root to a node, which take at most 1,024 bytes with a slash before each.
    pub fn names(&self, alloc: Global, node: NodeId) -> Result<Vec<Name>, PathFault>
        ensures way { NamesDown (λ q. hang_in (node_at self.now.table q)) node.0 (items_of result) }
        ensures leads { (rows : Rows) → IsTree rows → AreNodes rows (known self.now)
            → IfOk result (λ names. live_row (known self.now node.0)
            ≡ Some (reached rows root_row names.items)) }
    {
        match names_up(alloc, &self.parts.table, node.0) {
            Ok(mut names) => {
                names.reverse();
                Ok(names)
            }
            Err(fault) => Err(fault),
        }
    }

    /// Takes room for what one look-up or one rename adds.
    pub fn make_room(&mut self) -> Result<(), AllocError>
        ensures same { (q : ℕ) → known self.new q ≡ known self.old q }
        ensures index { (q : Place) → id_at self.new.index q ≡ id_at self.old.index q }
        ensures next { self.new.next ≡ self.old.next }
        ensures room { OnOk result (0 < room_in self.new.index) }
        ensures ids { IdsStay self.old self.new }
    {
        self.parts.make_room()
    }

    /// A Rename was served: the node of what it moved hangs at its new name, and the node of what hung there before is gone.
    /// `make_room` was called before: so nothing can be refused once the Rename was served.
    pub fn moved(&mut self, renaming: Renaming)
        requires { 0 < room_in self.old.index }
        ensures moved { place_at renaming.from.0 renaming.name
            ≢ place_at renaming.to.0 renaming.new_name
            → IsSome (node_at self.old.table renaming.to.0) → (q : ℕ) → known self.new q
            ≡ moved_at (id_at self.old.index (place_at renaming.from.0 renaming.name))
            (id_at self.old.index (place_at renaming.to.0 renaming.new_name))
            (place_at renaming.to.0 renaming.new_name) (known self.old) q }
        ensures stays { renaming.from.0 ≡ renaming.to.0 → renaming.name ≡ renaming.new_name
            → (q : ℕ) → known self.new q ≡ known self.old q }
        ensures nodes { (w : World) (p t n : ℕ) → IsTree w.rows → AreNodes w.rows (known self.old)
            → live_row (known self.old renaming.from.0) ≡ Some p
            → live_row (known self.old renaming.to.0) ≡ Some t
            → IsChild w.rows p renaming.name n
            → ((m : ℕ) → child w.rows t renaming.new_name ≡ Some m → m ≢ n
            → children w.rows m ≡ [])
            → AreNodes (after_rename w n (child w.rows t renaming.new_name) t
            renaming.new_name).rows (known self.new) }
        ensures next { self.new.next ≡ self.old.next }
        ensures ids { IdsStay self.old self.new }
    {
        let Renaming {
            from,
            name,
            to,
            new_name,
            copy,
        } = renaming;
        let old = Place {
            parent: from.0,
            name,
        };
        let new = Place {
            parent: to.0,
            name: new_name,
        };
        let key = Place {
            parent: to.0,
            name: copy,
        };
        self.parts.rehang(&old, new, key);
    }
}
