//! One message, and its reply.

ghost use Rattle.std.specs.Prelude.{◌≡◌, IfSome, IsSome, IsSomeAnd, None, OnOk, min};
ghost use Rattle.lfs_types.specs.Stored.{slice_of};
ghost use Rattle.lfs_fuse_calls.specs.Telling.{TellsBytes};
ghost use Rattle.lfs_fuse_wire.specs.Header.{header_in};
ghost use Rattle.lfs_fuse_wire.specs.Said.{said};
ghost use Rattle.lfs_fuse_wire.specs.Views.{view};
ghost use Rattle.lfs_nodes.specs.Staying.{IdsStay};
ghost use Rattle.lfs_mount.specs.Answered.{
  IsAnswered,
  IsHeard,
  IsToldDated,
  IsToldKept,
  IsToldKeptOrDated,
  live_in,
  replied,
};
ghost use Rattle.lfs_mount.specs.Forgetting.{
  ForgetsNothing,
  IsForgetting,
  IsForgettingIn,
  IsForgettingOf,
};
ghost use Rattle.lfs_mount.specs.Leaving.{OnKept, kept_for};
ghost use Rattle.lfs_mount.specs.Moving.{NodesBehind, NodesBehindIn, NodesBehindOf};
ghost use Rattle.lfs_mount.specs.Runs.{GoesOn};
ghost use Rattle.lfs_mount.specs.Trees.{StayTrue};

use crate::mount::Mount;
use lfs_fuse_calls::caller::caller;
use lfs_fuse_calls::told::Told;
use lfs_fuse_reply::errno::Errno;
use lfs_fuse_wire::attributes::Time;
use lfs_fuse_wire::header::Header;
use lfs_fuse_wire::message::Message;
use lfs_nodes::NodeId;
use lfs_opens::head::Head;
use lfs_opens::loans::with_handle;
use lfs_opens::rewriting::{MAX_WRITE, new_size};
use lfs_stamps::change::{change_of, other_node};
use lfs_types::store::FileStore;
use std::alloc::{AllocError, Global};

/// Adds the reply to the message of this number, where one is wanted.
fn append_if(is_wanted: bool, told: &Told, out: &mut Vec<u8>, unique: u64) -> Result<(), AllocError>
    ensures { OnOk result (out.new.items ≡ replied is_wanted unique told.now out.old.items) }
{
    if is_wanted {
        told.append(out, unique)
    } else {
        Ok(())
    }
}

/// At most so many of a file's bytes from a place on, as a read is told them.
fn part_told(alloc: Global, bytes: &[u8], offset: u64, size: u32) -> Told
    ensures { TellsBytes (slice_of bytes.now offset (min size 131072)) result }
{
    let start = offset.min(bytes.len() as u64) as usize;
    let behind = &bytes[start..];
    let count = (size.min(MAX_WRITE) as usize).min(behind.len());
    match Vec::from_slice(alloc, &behind[..count]) {
        Ok(part) => Told::Bytes(part),
        Err(_) => Told::Error(Errno::ENOMEM),
    }
}

impl<F: FileStore + Drop> Mount<F> {
    /// What is told of a file that was removed while it was open, where that answers a message,
    /// which may change what is kept of the file.
    fn kept_told(&mut self, alloc: Global, head: &Head, message: &Message<'_>) -> Option<Told>
        ensures told { OnKept (kept_for self.old.tree.nodes (view message.now)
            self.old.beside.opens.files.items head.now.node head.now.cred)
            (λ kept. IsSomeAnd result (λ told. IsToldKept head.now.time head.now.cred head.now.node
            (view message.now) told
            self.old.tree.volume self.new.tree.volume self.old.beside self.new.beside kept))
            (result ≡ None) }
        ensures none { result ≡ None → self.new ≡ self.old }
        ensures plain { IsSome result → ForgetsNothing (view message.now) }
        ensures behind { IfSome result (λ told. NodesBehind (view message.now) head.now.node told
            self.old.tree.nodes self.new.tree.nodes) }
        ensures tree { self.new.tree ≡ self.old.tree }
        ensures sizes { self.new.sizes ≡ self.old.sizes }
    {
        let node = head.node;
        let cred = &head.cred;
        if !self.tree.nodes.is_gone(NodeId(node)) {
            return None;
        }
        match message {
            Message::Read(fields) => {
                let kept = self.beside.opens.to_read(fields.handle, node, cred)?;
                Some(part_told(alloc, kept.bytes.as_slice(), fields.offset, fields.size))
            }
            Message::GetAttr(_) => {
                let kept = self.beside.opens.by_node(node, cred)?;
                Some(Told::Attr(kept.attr))
            }
            Message::Write(fields, bytes) => {
                let kept = self.beside.opens.to_write(fields.handle, node, cred)?;
                let size = kept.bytes.len() as u64;
                Some(self.beside.opens.write(head, fields, bytes, size))
            }
            Message::SetAttr(fields) => {
                new_size(fields)?;
                let kept = self.beside.opens.to_cut(node, cred)?;
                let attr = kept.attr;
                let size = kept.bytes.len() as u64;
                Some(self.beside.opens.cut(head, fields, attr, size))
            }
            _ => None,
        }
    }

    #[tactic(auto, using(crate::proofs::KeptLemmas::told_kept, crate::proofs::KeptLemmas::told_dated))]
    /// What a message comes to, which comes now: what is kept of a file that was removed, or its
    /// calls.
    fn told(&mut self, alloc: Global, head: &Head, message: &Message<'_>) -> Told
        ensures told { IsToldKeptOrDated F.state F.is_flushed self.old.sizes
            head.now.time head.now.cred self.old.tree.nodes self.new.tree.nodes head.now.node
            (view message.now) result self.old.tree.volume self.new.tree.volume
            self.old.beside self.new.beside }
        ensures forgets { IsForgetting (view message.now) head.now.node
            self.old.tree.nodes self.new.tree.nodes }
        ensures behind { NodesBehind (view message.now) head.now.node result
            self.old.tree.nodes self.new.tree.nodes }
        ensures stay { StayTrue F.state self.old.tree.volume self.old.tree.nodes
            self.new.tree.volume self.new.tree.nodes }
        ensures ids { IdsStay self.old.tree.nodes self.new.tree.nodes }
        ensures sizes { self.new.sizes ≡ self.old.sizes }
    {
        match self.kept_told(alloc, head, message) {
            Some(told) => told,
            None => self.called(alloc, head, message),
        }
    }

    /// What the calls of a message come to, which comes now: what it changed has the present time,
    /// and attributes are told with their times. Of a file that it removes, and that is open, the
    /// bytes are kept.
    fn called(&mut self, alloc: Global, head: &Head, message: &Message<'_>) -> Told
        ensures told { IsToldDated F.state F.is_flushed self.old.sizes
            head.now.time head.now.cred self.old.tree.nodes self.new.tree.nodes head.now.node
            (view message.now) result self.old.tree.volume self.new.tree.volume
            self.old.beside self.new.beside }
        ensures forgets { IsForgetting (view message.now) head.now.node
            self.old.tree.nodes self.new.tree.nodes }
        ensures behind { NodesBehind (view message.now) head.now.node result
            self.old.tree.nodes self.new.tree.nodes }
        ensures stay { StayTrue F.state self.old.tree.volume self.old.tree.nodes
            self.new.tree.volume self.new.tree.nodes }
        ensures ids { IdsStay self.old.tree.nodes self.new.tree.nodes }
        ensures sizes { self.new.sizes ≡ self.old.sizes }
    {
        let row = self.tree.nodes.row(NodeId(head.node));
        let other = self.tree.nodes.row(NodeId(other_node(message)));
        let live = self.live_row(head.node);
        let due = self.beside.loans.due(message, live);
        let left = self.prepare(alloc, head.node, message);
        let told = self.handled(alloc, head, message, due);
        let change = change_of(message, &told);
        self.beside.loans.note(message, &told);
        let slot = self.beside.opens.note(head, message, &told, left);
        self.beside.times.stamp(head.time, row, other, &change);
        self.beside.times.dated(with_handle(slot, message, told))
    }

    /// The inode number of a node that isn't gone.
    fn live_row(&self, node: u64) -> Option<u32>
        ensures { result ≡ live_in self.now.tree.nodes node }
    {
        if self.tree.nodes.is_gone(NodeId(node)) {
            None
        } else {
            self.tree.nodes.row(NodeId(node))
        }
    }

    /// What the bytes of a message come to, and whether a reply is wanted: an error where they are
    /// no message.
    fn heard(&mut self, alloc: Global, head: &Head, bytes: &[u8]) -> (Told, bool)
        ensures heard { IsHeard F.state F.is_flushed self.old.sizes head.now.time head.now.cred
            self.old.tree.nodes self.new.tree.nodes head.now.node (said bytes.now) result.0 result.1
            self.old.tree.volume self.new.tree.volume
            self.old.beside self.new.beside }
        ensures forgets { IsForgettingOf (said bytes.now) head.now.node
            self.old.tree.nodes self.new.tree.nodes }
        ensures behind { NodesBehindOf (said bytes.now) head.now.node result.0
            self.old.tree.nodes self.new.tree.nodes }
        ensures stay { StayTrue F.state self.old.tree.volume self.old.tree.nodes
            self.new.tree.volume self.new.tree.nodes }
        ensures ids { IdsStay self.old.tree.nodes self.new.tree.nodes }
        ensures sizes { self.new.sizes ≡ self.old.sizes }
    {
        match Message::decode(bytes) {
            Ok(message) => {
                let told = self.told(alloc, head, &message);
                (told, message.has_reply())
            }
            Err(_) => (Told::Error(Errno::EINVAL), true),
        }
    }

    #[tactic(auto, using(crate::proofs::GoingLemmas::heard_goes, crate::proofs::TendingLemmas::goes_on_none))]
    /// Answers one message, which comes now: its calls are made as the caller that its header
    /// tells, with the other groups of its process, and its reply is added, if it wants one.
    /// Nothing is done of bytes that have no header. Nodes that were true of the tree that the
    /// volume showed are true of the one that it shows then, and no node id leads to another row
    /// than before: one that is gone stays gone. The journal goes on, and stays a legal run.
    ///
    /// # Errors
    ///
    /// Memory ran out for the reply, of which a part may have been added.
    pub fn answer(
        &mut self,
        alloc: Global,
        now: Time,
        bytes: &[u8],
        others: &[u32],
        out: &mut Vec<u8>,
    ) -> Result<(), AllocError>
        ensures answered { OnOk result (IsAnswered F.state F.is_flushed self.old.sizes now
            self.old.tree.nodes self.new.tree.nodes
            others.now bytes.now out.old.items out.new.items self.old.tree.volume
            self.new.tree.volume
            self.old.beside self.new.beside) }
        ensures journal { GoesOn F.state self.old.tree.volume self.new.tree.volume }
        ensures forgets { IsForgettingIn (header_in bytes.now) (said bytes.now)
            self.old.tree.nodes self.new.tree.nodes }
        ensures behind { NodesBehindIn (header_in bytes.now) (said bytes.now)
            self.old.tree.nodes self.new.tree.nodes }
        ensures stay { StayTrue F.state self.old.tree.volume self.old.tree.nodes
            self.new.tree.volume self.new.tree.nodes }
        ensures ids { IdsStay self.old.tree.nodes self.new.tree.nodes }
        ensures sizes { self.new.sizes ≡ self.old.sizes }
    {
        let Some(header) = Header::decode(bytes) else {
            return Ok(());
        };
        let cred = caller(&header, others);
        let head = Head {
            time: now,
            node: header.node,
            cred,
        };
        let (told, is_wanted) = self.heard(alloc, &head, bytes);
        append_if(is_wanted, &told, out, header.unique)?;
        Ok(())
    }
}
