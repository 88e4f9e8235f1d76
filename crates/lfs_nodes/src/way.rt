//! The names from the root to a node.

ghost use Rattle.std.specs.Prelude.{◌≡◌, ℕ, ◌+◌, List, Option, length, ◌++◌, ◌∷◌, [], OnOk, IfErr};
ghost use Rattle.lfs_types.specs.Paths.{items_of};
ghost use Rattle.lfs_nodes.specs.Maps.{node_at};
ghost use Rattle.lfs_nodes.specs.Reads.{hang_in};
ghost use Rattle.lfs_nodes.specs.Ways.{NamesUp, IsAbove};
ghost use Rattle.lfs_nodes.specs.Borrowed.{result_copied};

use crate::fault::PathFault;
use crate::node::Hang;
use crate::place::Place;
use crate::table::Table;
use lfs_types::name::Name;
use lfs_types::path::PATH_MAX;
use std::alloc::Global;

/// The place at which a node hangs, and none for the root.
fn above(table: &Table, id: u64) -> Result<Option<&Place>, PathFault>
    ensures { IsAbove (hang_in (node_at table.now id)) (result_copied result) }
{
    let Some(node) = table.get(id) else {
        return Err(PathFault::Unknown);
    };
    match &node.hang {
        Hang::Root => Ok(None),
        Hang::At(place) => Ok(Some(place)),
        Hang::Gone => Err(PathFault::Stale),
    }
}

/// Adds a name behind others.
fn keep(names: &mut Vec<Name>, name: Name) -> Result<(), PathFault>
    ensures kept { OnOk result (names.new.items ≡ names.old.items ++ name ∷ []) }
    ensures memory { IfErr result (λ fault. fault ≡ PathFault.Memory) }
{
    match names.push(name) {
        Ok(()) => Ok(()),
        Err(_) => Err(PathFault::Memory),
    }
}

/// The names of a node and of those above it up to the root, its own first.
pub(crate) fn names_up(alloc: Global, table: &Table, id: u64) -> Result<Vec<Name>, PathFault>
    ensures { NamesUp (λ q. hang_in (node_at table.now q)) id (items_of result) }
{
    let mut names = Vec::new(alloc);
    let mut room = PATH_MAX;
    let mut at = id;
    loop {
        let Some(place) = above(table, at)? else {
            return Ok(names);
        };
        let taken = place.name.as_bytes().len() + 1;
        if taken > room {
            return Err(PathFault::Long);
        }
        let name = place.name.try_clone(alloc)?;
        keep(&mut names, name)?;
        room -= taken;
        at = place.parent;
    }
}
