//! Nodes of entries that were found, made, moved or removed.

ghost use Rattle.std.specs.Prelude.{◌≡◌, ℕ, Some, IfErr, IfOk, IfSome};
ghost use Rattle.lfs_fuse_calls.specs.Attrs.{attr_of};
ghost use Rattle.lfs_fuse_calls.specs.Telling.{TellsEntry, TellsCreated};
ghost use Rattle.lfs_nodes.specs.LookUps.{IsLookUpFault};
ghost use Rattle.lfs_nodes.specs.Staying.{IdsStay};
ghost use Rattle.lfs_nodes.specs.declared.parts.Parts.{Parts};
ghost use Rattle.lfs_mount.specs.Entries.{
  IsNodeFault,
  IsNodeOf,
  LacksNode,
  LosesNode,
  NamesSeen,
};
ghost use Rattle.lfs_mount.specs.Trees.{FindsRow, LosesRow};

use crate::node_tree::NodeTree;
use lfs_fuse_calls::attr::attr;
use lfs_fuse_calls::telling::{OPENED_FILE, Seen};
use lfs_fuse_calls::told::Told;
use lfs_fuse_reply::attr::Entry;
use lfs_fuse_reply::errno::Errno;
use lfs_nodes::{LookUpFault, NodeId};
use lfs_types::name::Name;
use lfs_types::store::FileStore;
use std::alloc::Global;

/// The error of a look-up that is given no node.
fn error_of(fault: LookUpFault) -> Errno
    ensures { (nodes : Parts) (directory : ℕ) → IsLookUpFault nodes directory fault
        → IsNodeFault nodes directory result }
{
    match fault {
        LookUpFault::Stale => Errno::ESTALE,
        LookUpFault::Exhausted => Errno::EOVERFLOW,
        LookUpFault::Memory => Errno::ENOMEM,
    }
}

impl<F: FileStore + Drop> NodeTree<F> {
    /// The node of what a name in a directory leads to, with the attributes that a Stat showed.
    fn entry(
        &mut self,
        alloc: Global,
        directory: u64,
        name: Name,
        seen: &Seen,
    ) -> Result<Entry, Errno>
        ensures entry { IfOk result (λ entry. entry.attr ≡ attr_of seen.now.number seen.now.attrs) }
        ensures named { IfOk result (λ entry. IsNodeOf directory name seen.now.number entry.node
            self.old.nodes self.new.nodes) }
        ensures fault { IfErr result (IsNodeFault self.old.nodes directory) }
        ensures lacks { IfErr result (λ error. LacksNode directory name seen.now.number error
            self.old.nodes self.new.nodes) }
        ensures nodes { FindsRow (Some name) (Some seen.now) directory
            self.old.nodes self.new.nodes }
        ensures ids { IdsStay self.old.nodes self.new.nodes }
        ensures volume { self.new.volume ≡ self.old.volume }
    {
        match self
            .nodes
            .look_up(alloc, NodeId(directory), name, seen.number)
        {
            Ok(node) => Ok(Entry {
                node: node.0,
                generation: 0,
                attr: attr(seen.number, &seen.attrs),
            }),
            Err(fault) => Err(error_of(fault)),
        }
    }

    /// Tells an entry that was found or made.
    pub(crate) fn entry_told(
        &mut self,
        alloc: Global,
        directory: u64,
        name: Option<Name>,
        seen: Option<Seen>,
    ) -> Told
        ensures told { TellsEntry seen result }
        ensures named { IfSome name (λ name. NamesSeen directory name seen result
            self.old.nodes self.new.nodes) }
        ensures nodes { FindsRow name seen directory self.old.nodes self.new.nodes }
        ensures ids { IdsStay self.old.nodes self.new.nodes }
        ensures volume { self.new.volume ≡ self.old.volume }
    {
        let Some(seen) = seen else {
            return Told::Error(Errno::EIO);
        };
        let Some(name) = name else {
            return Told::Error(Errno::EIO);
        };
        match self.entry(alloc, directory, name, &seen) {
            Ok(entry) => Told::Entry(entry),
            Err(errno) => Told::Error(errno),
        }
    }

    /// Tells a file that was made, and is open.
    pub(crate) fn created_told(
        &mut self,
        alloc: Global,
        directory: u64,
        name: Option<Name>,
        seen: Option<Seen>,
    ) -> Told
        ensures told { TellsCreated seen result }
        ensures named { IfSome name (λ name. NamesSeen directory name seen result
            self.old.nodes self.new.nodes) }
        ensures nodes { FindsRow name seen directory self.old.nodes self.new.nodes }
        ensures ids { IdsStay self.old.nodes self.new.nodes }
        ensures volume { self.new.volume ≡ self.old.volume }
    {
        let Some(seen) = seen else {
            return Told::Error(Errno::EIO);
        };
        let Some(name) = name else {
            return Told::Error(Errno::EIO);
        };
        match self.entry(alloc, directory, name, &seen) {
            Ok(entry) => Told::Create(entry, OPENED_FILE),
            Err(errno) => Told::Error(errno),
        }
    }

    #[tactic(auto, using(crate::proofs::EntryLemmas::lost_known))]
    /// A file or a directory was removed: its node is gone.
    pub(crate) fn removed_told(&mut self, directory: u64, name: Option<Name>) -> Told
        ensures told { result ≡ Told.Done }
        ensures gone { IfSome name (λ name. LosesNode directory name
            self.old.nodes self.new.nodes) }
        ensures nodes { LosesRow name directory self.old.nodes self.new.nodes }
        ensures ids { IdsStay self.old.nodes self.new.nodes }
        ensures volume { self.new.volume ≡ self.old.volume }
    {
        if let Some(name) = name {
            self.nodes.removed(NodeId(directory), name);
        }
        Told::Done
    }
}
