//! What a message comes to.

ghost use Rattle.std.specs.Prelude.{◌≡◌, ◌/◌, length};
ghost use Rattle.lfs_fuse_wire.specs.Views.{view};
ghost use Rattle.lfs_model.specs.World.{Rows};
ghost use Rattle.lfs_nodes.specs.Nodes.{AreNodes, known, place_at};
ghost use Rattle.lfs_nodes.specs.Staying.{IdsStay};
ghost use Rattle.lfs_opens.specs.Listing.{AreListed};
ghost use Rattle.lfs_mount.specs.Forgetting.{AreForgotten, IsForgetting, IsOneForgotten};
ghost use Rattle.lfs_mount.specs.Handled.{
  IsDirectoryOpened,
  IsHandled,
  IsMade,
  IsRename,
  IsRenamed,
  IsRenamedToFree,
  IsTold,
  error_of_unserved,
  hangs_in,
};
ghost use Rattle.lfs_mount.specs.Moving.{MovesIfDone, NodesBehind, UnlessRegular};
ghost use Rattle.lfs_mount.specs.Trees.{StayTrue};

use crate::changing::{Spot, Spots};
use crate::mount::Mount;
use crate::node_tree::NodeTree;
use crate::room::{init_reply, room};
use lfs_fuse_calls::telling::refusal_in;
use lfs_fuse_calls::told::Told;
use lfs_fuse_reply::errno::Errno;
use lfs_fuse_wire::forgetting::{Forgets, NodeForget};
use lfs_fuse_wire::handles::Open;
use lfs_fuse_wire::kind::FileKind;
use lfs_fuse_wire::message::Message;
use lfs_fuse_wire::naming::RenameMode;
use lfs_fuse_wire::opcode::Unserved;
use lfs_nodes::{NodeId, Nodes};
use lfs_opens::head::Head;
use lfs_opens::listing::Listings;
use lfs_types::cred::Cred;
use lfs_types::mode::Mode;
use lfs_types::store::FileStore;
use std::alloc::Global;

/// What is told of a message of which nothing but the kind is read: there are no links, attributes
/// beside the usual ones or locks here.
fn error_of_unserved(kind: Unserved) -> Errno
    ensures { result ≡ error_of_unserved kind }
{
    match kind {
        Unserved::Link | Unserved::Symlink => Errno::EPERM,
        Unserved::Readlink => Errno::EINVAL,
        Unserved::Fallocate | Unserved::Tmpfile => Errno::EOPNOTSUPP,
        _ => Errno::ENOSYS,
    }
}

#[tactic(auto, using(crate::proofs::ForgettingLemmas::forgotten_none, crate::proofs::ForgettingLemmas::forgotten_more))]
/// The kernel forgets the nodes of a batch.
fn forget_all(nodes: &mut Nodes, forgets: &Forgets<'_>)
    ensures forgotten { AreForgotten forgets.now.bytes.now (length forgets.now.bytes.now / 16)
        nodes.old nodes.new }
    ensures nodes { (rows : Rows) → AreNodes rows (known nodes.old)
        → AreNodes rows (known nodes.new) }
    ensures ids { IdsStay nodes.old nodes.new }
{
    for index in 0..forgets.len() {
        forget_one(nodes, forgets.get(index));
    }
}

/// The kernel forgets look-ups of one node of a batch, if there is one.
fn forget_one(nodes: &mut Nodes, one: Option<NodeForget>)
    ensures forgotten { IsOneForgotten one nodes.old nodes.new }
    ensures nodes { (rows : Rows) → AreNodes rows (known nodes.old)
        → AreNodes rows (known nodes.new) }
    ensures ids { IdsStay nodes.old nodes.new }
{
    if let Some(one) = one {
        nodes.forget(NodeId(one.node), one.lookups);
    }
}

/// The kernel forgets look-ups of a node, or of the nodes of a batch.
fn forgotten(nodes: &mut Nodes, node: u64, message: &Message<'_>)
    ensures forgets { IsForgetting (view message.now) node nodes.old nodes.new }
    ensures nodes { (rows : Rows) → AreNodes rows (known nodes.old)
        → AreNodes rows (known nodes.new) }
    ensures ids { IdsStay nodes.old nodes.new }
{
    match message {
        Message::Forget(fields) => nodes.forget(NodeId(node), fields.lookups),
        Message::BatchForget(forgets) => forget_all(nodes, forgets),
        _ => (),
    }
}

impl<F: FileStore + Drop> NodeTree<F> {
    /// Moves an entry, by what becomes of one that has the new name.
    fn rename(&mut self, alloc: Global, mode: RenameMode, spots: &Spots<'_>, cred: &Cred) -> Told
        ensures told { IsRename mode
            (IsRenamed F.state F.is_flushed cred.now
            (hangs_in self.old.nodes) spots.now.from.node spots.now.from.name.now
            spots.now.to.node spots.now.to.name.now result self.old.volume self.new.volume)
            (IsRenamedToFree F.state F.is_flushed cred.now
            (hangs_in self.old.nodes) spots.now.from.node spots.now.from.name.now
            spots.now.to.node spots.now.to.name.now result self.old.volume self.new.volume)
            result self.old.volume self.new.volume }
        ensures stay { StayTrue F.state self.old.volume self.old.nodes self.new.volume
            self.new.nodes }
        ensures moves { MovesIfDone result
            (place_at spots.now.from.node spots.now.from.name.now)
            (place_at spots.now.to.node spots.now.to.name.now) self.old.nodes self.new.nodes }
        ensures ids { IdsStay self.old.nodes self.new.nodes }
    {
        match mode {
            RenameMode::Replace => self.renamed(alloc, spots, cred),
            RenameMode::NoReplace => self.renamed_to_free(alloc, spots, cred),
            RenameMode::Exchange | RenameMode::Other => Told::Error(Errno::EINVAL),
        }
    }

    /// Makes a node of this kind: regular files alone.
    fn make_node(
        &mut self,
        alloc: Global,
        head: &Head,
        kind: Option<FileKind>,
        message: &Message<'_>,
    ) -> Told
        ensures told { IsMade kind (IsHandled F.state F.is_flushed head.now.cred
            self.old.nodes self.new.nodes head.now.node (view message.now)
            result self.old.volume self.new.volume) result self.old.volume self.new.volume }
        ensures stay { StayTrue F.state self.old.volume self.old.nodes self.new.volume
            self.new.nodes }
        ensures left { UnlessRegular kind self.old.nodes self.new.nodes }
        ensures ids { IdsStay self.old.nodes self.new.nodes }
    {
        match kind {
            Some(FileKind::Regular) => self.once(alloc, head, message),
            Some(FileKind::Directory) | None => Told::Error(Errno::EPERM),
        }
    }

    /// Opens a directory: its names are asked for, and kept by the handle that is told.
    fn directory_opened(
        &mut self,
        alloc: Global,
        listings: &mut Listings,
        head: &Head,
        fields: &Open,
    ) -> Told
        ensures told { IsDirectoryOpened F.state F.is_flushed head.now.cred
            (hangs_in self.old.nodes) head.now.node fields.now
            listings.old listings.new result self.old.volume self.new.volume }
        ensures nodes { self.new.nodes ≡ self.old.nodes }
    {
        let message = Message::Opendir(*fields);
        let answers = match self.calls(alloc, head, &message) {
            Ok(answers) => answers,
            Err(errno) => return Told::Error(errno),
        };
        match refusal_in(answers.as_slice()) {
            Some(errno) => Told::Error(errno),
            None => listings.open(answers),
        }
    }
}

impl<F: FileStore + Drop> Mount<F> {
    /// What a message comes to, at which this mode is due, if there is one.
    pub(crate) fn handled(
        &mut self,
        alloc: Global,
        head: &Head,
        message: &Message<'_>,
        due: Option<Mode>,
    ) -> Told
        ensures told { IsTold F.state F.is_flushed self.old.sizes due head.now.cred
            self.old.tree.nodes self.new.tree.nodes
            self.old.beside.listings self.new.beside.listings head.now.node (view message.now)
            result self.old.tree.volume self.new.tree.volume }
        ensures listed { AreListed (view message.now)
            self.old.beside.listings self.new.beside.listings }
        ensures forgets { IsForgetting (view message.now) head.now.node
            self.old.tree.nodes self.new.tree.nodes }
        ensures behind { NodesBehind (view message.now) head.now.node result
            self.old.tree.nodes self.new.tree.nodes }
        ensures stay { StayTrue F.state self.old.tree.volume self.old.tree.nodes
            self.new.tree.volume self.new.tree.nodes }
        ensures ids { IdsStay self.old.tree.nodes self.new.tree.nodes }
        ensures times { self.new.beside.times ≡ self.old.beside.times }
        ensures loans { self.new.beside.loans ≡ self.old.beside.loans }
        ensures opens { self.new.beside.opens ≡ self.old.beside.opens }
        ensures sizes { self.new.sizes ≡ self.old.sizes }
    {
        match message {
            Message::Lookup(_)
            | Message::GetAttr(_)
            | Message::Access(_)
            | Message::Mkdir(_, _)
            | Message::Create(_, _)
            | Message::Unlink(_)
            | Message::Rmdir(_)
            | Message::Open(_)
            | Message::Read(_)
            | Message::Write(_, _) => self.tree.once(alloc, head, message),
            Message::Mknod(fields, _) => self.tree.make_node(alloc, head, fields.kind, message),
            Message::SetAttr(fields) => self.tree.set_attr(alloc, head, fields),
            Message::Ioctl(fields) => self.tree.flagged(alloc, head, fields),
            Message::Rename(fields, name, new_name) => {
                let from = Spot::of(head.node, name);
                let to = Spot::of(fields.directory, new_name);
                self.tree
                    .rename(alloc, fields.mode, &Spots { from, to }, &head.cred)
            }
            Message::Fsync(_) | Message::Fsyncdir(_) => self.tree.synced(alloc, &head.cred),
            Message::Release(_) => self.tree.released(alloc, head, due),
            Message::Opendir(fields) => {
                let listings = &mut self.beside.listings;
                self.tree.directory_opened(alloc, listings, head, fields)
            }
            Message::Readdir(wanted) => self.beside.listings.told(alloc, wanted),
            Message::Releasedir(fields) => self.beside.listings.close(fields.handle),
            Message::Forget(_) | Message::BatchForget(_) => {
                forgotten(&mut self.tree.nodes, head.node, message);
                Told::Done
            }
            Message::Init(init) => Told::Init(init_reply(init)),
            Message::Statfs => Told::Statfs(room(self.tree.volume.store(), self.sizes)),
            Message::Readdirplus(_) | Message::Unknown(_) => Told::Error(Errno::ENOSYS),
            Message::Unserved(kind) => Told::Error(error_of_unserved(*kind)),
            Message::Destroy | Message::Interrupt(_) | Message::Flush(_) => Told::Done,
        }
    }
}
