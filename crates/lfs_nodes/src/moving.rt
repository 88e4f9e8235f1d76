//! Renames.

ghost use Rattle.std.specs.Prelude.{◌≡◌, ◌≢◌, ℕ, ◌<◌, Some, None, IsSome};
ghost use Rattle.lfs_nodes.specs.Maps.{node_at, id_at, room_in};
ghost use Rattle.lfs_nodes.specs.Whole.{IsWhole};
ghost use Rattle.lfs_nodes.specs.Nodes.{known};
ghost use Rattle.lfs_nodes.specs.Moves.{moved_at};
ghost use Rattle.lfs_nodes.specs.Staying.{IdsStay};

use crate::parts::Parts;
use crate::place::{NodeId, Place};
use lfs_types::name::Name;

/// A Rename that was served: what had a name in one directory has another in another directory, or in the same. The new
/// name comes twice, as the node keeps it and the index too.
#[derive(Drop)]
pub struct Renaming {
    /// The directory that it left.
    pub from: NodeId,
    /// The name that it had there.
    pub name: Name,
    /// The directory in which it is.
    pub to: NodeId,
    /// The name that it has there.
    pub new_name: Name,
    /// The same name.
    pub copy: Name,
    ghost same: { copy ≡ new_name },
}

impl Parts {
    /// Hangs the node at a place at another, where what hung there is gone. The new place comes twice: for the node, and for the
    /// index.
    pub(crate) fn rehang(&mut self, from: &Place, to: Place, key: Place)
        requires whole { IsWhole self.old }
        requires same { key ≡ to }
        requires room { 0 < room_in self.old.index }
        ensures whole { IsWhole self.new }
        ensures stays { from.now ≡ to → (q : ℕ) → known self.new q ≡ known self.old q }
        ensures moved { from.now ≢ to → IsSome (node_at self.old.table to.parent) → (q : ℕ)
            → known self.new q ≡ moved_at (id_at self.old.index from.now)
            (id_at self.old.index to) to (known self.old) q }
        ensures next { self.new.next ≡ self.old.next }
        ensures ids { IdsStay self.old self.new }
    {
        if *from == to {
            return;
        }
        let moved = self.unhang(from);
        let _ = self.unhang(&to);
        let Some(id) = moved else {
            return;
        };
        if self.table.get(to.parent).is_some() {
            self.hang(id, to, key);
        }
    }
}
