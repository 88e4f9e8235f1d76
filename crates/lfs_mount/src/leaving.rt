//! The last look at a file that is open, before a message takes it from its place.

ghost use Rattle.std.specs.Prelude.{
  ◌≡◌,
  ◌≢◌,
  ℕ,
  ◌-◌,
  ◌≤◌,
  None,
  IfErr,
  IfOk,
  IfSome,
  false,
  length,
  slice_index_or,
};
ghost use Rattle.lfs_volume.specs.Journals.{AtPresent};
ghost use Rattle.lfs_fuse_wire.specs.Views.{view};
ghost use Rattle.lfs_nodes.specs.Maps.{same_place};
ghost use Rattle.lfs_nodes.specs.Nodes.{known, place_at};
ghost use Rattle.lfs_nodes.specs.Reads.{hang_in};
ghost use Rattle.lfs_opens.specs.Rewritten.{bytes_kept};
ghost use Rattle.lfs_mount.specs.Leaving.{
  ArePrepared,
  ArePreparedFor,
  IsAnswerOf,
  IsLastLook,
  IsLastMiss,
  IsLeaving,
  IsLooked,
  IsPiece,
  IsPrepared,
  IsReadBy,
  IsSeenIn,
  IsSightOr,
  IsUnseen,
  IsUnseenIn,
  NoneLeaves,
  is_taken,
  taken_at,
  unlinked,
};

use crate::mount::Mount;
use crate::sight::{Leaving, Sight};
use lfs_fuse_calls::attr::attr;
use lfs_fuse_calls::paths::path_of;
use lfs_fuse_calls::told::Told;
use lfs_fuse_reply::attr::Attr;
use lfs_fuse_wire::message::Message;
use lfs_fuse_wire::naming::RenameMode;
use lfs_nodes::{NodeId, Nodes};
use lfs_opens::kept::{KeepingFault, Kept};
use lfs_opens::opens::Opens;
use lfs_types::answer::{Answer, Served};
use lfs_types::cred::Cred;
use lfs_types::path::Path;
use lfs_types::payload::Bytes;
use lfs_types::store::FileStore;
use lfs_volume::volume::Volume;
use std::alloc::Global;

/// How many bytes are looked at at once.
const PIECE: usize = 4_096;

/// Whether a name in a directory is a name in another.
fn is_same(node: u64, name: &[u8], directory: u64, new_name: &[u8]) -> bool
    ensures { result ≡ same_place (place_at node name.now) (place_at directory new_name.now) }
{
    node == directory && name == new_name
}

/// Whether a message may be about to take something from its place.
fn is_taking(message: &Message<'_>) -> bool
    ensures { result ≡ false → (node : ℕ) → taken_at node (view message.now) ≡ None }
{
    matches!(message, Message::Unlink(_) | Message::Rename(_, _, _))
}

/// Whether a message is about to take a node from its place.
fn is_taken(nodes: &Nodes, id: u64, node: u64, message: &Message<'_>) -> bool
    ensures { result ≡ is_taken (taken_at node (view message.now)) (hang_in (known nodes.now id)) }
{
    match message {
        Message::Unlink(name) => nodes.is_at(NodeId(id), NodeId(node), name),
        Message::Rename(fields, name, new_name) => {
            if is_same(node, name, fields.directory, new_name) {
                return false;
            }
            match fields.mode {
                RenameMode::Replace => nodes.is_at(NodeId(id), NodeId(fields.directory), new_name),
                _ => false,
            }
        }
        _ => false,
    }
}

/// The node that a message is about to take from its place, if a file is open on it.
fn leaving(nodes: &Nodes, opens: &Opens, node: u64, message: &Message<'_>) -> Option<u64>
    ensures leaves { IfSome result (IsLeaving nodes.now node (view message.now)) }
    ensures none { result ≡ None
        → NoneLeaves nodes.now node (view message.now) opens.now.files.items }
{
    if !is_taking(message) {
        return None;
    }
    for slot in 0..opens.slots() {
        if let Some(id) = opens.node(slot)
            && is_taken(nodes, id, node, message)
        {
            return Some(id);
        }
    }
    None
}

/// Attributes of a file that has no name.
fn unlinked(attr: Attr) -> Attr
    ensures { result ≡ unlinked attr }
{
    Attr { links: 0, ..attr }
}

/// The bytes that an answer serves, or why it serves none.
fn served_bytes(answer: Answer) -> Result<Bytes, KeepingFault>
    ensures served { IfOk result (λ bytes. answer ≡ Answer.Served (Served.Bytes bytes)) }
    ensures lacks { IfErr result (λ why. IsAnswerOf why answer) }
{
    match answer {
        Answer::Served(Served::Bytes(bytes)) => Ok(bytes),
        Answer::Denied(_) => Err(KeepingFault::Denied),
        _ => Err(KeepingFault::Memory),
    }
}

#[tactic(auto, using(crate::proofs::LookedForLemmas::piece_lacks))]
/// At most 4,096 bytes of a file from a place on, if this caller may read it now, or why there are
/// none.
fn piece_at<F: FileStore + Drop>(
    volume: &mut Volume<F>,
    cred: &Cred,
    path: &Path,
    off: u64,
) -> Result<Bytes, KeepingFault>
    ensures bytes { IfOk result (λ bytes. AtPresent F.state volume.old
        (λ w. IsPiece w cred.now path.now off bytes)) }
    ensures lacks { IfErr result (λ why. (room : ℕ)
        → IsUnseen F.state volume.old path.now room cred.now why) }
    ensures looked { IsLooked F.state volume.old volume.new }
{
    served_bytes(volume.show(cred, path, off, PIECE as u32))
}

/// All bytes of a file, as this caller may read them now; or why none are shown: he may not, or
/// there are more than so many.
fn all_shown<F: FileStore + Drop>(
    alloc: Global,
    volume: &mut Volume<F>,
    cred: &Cred,
    path: &Path,
    most: usize,
) -> Result<Vec<u8>, KeepingFault>
    ensures bytes { IfOk result (λ bytes. AtPresent F.state volume.old
        (λ w. IsReadBy w cred.now path.now bytes.items)) }
    ensures fits { IfOk result (λ bytes. length bytes.items ≤ most) }
    ensures lacks { IfErr result (IsUnseen F.state volume.old path.now most cred.now) }
    ensures looked { IsLooked F.state volume.old volume.new }
{
    let mut bytes = Vec::new(alloc);
    while bytes.len() <= most {
        let piece = piece_at(volume, cred, path, bytes.len() as u64)?;
        if bytes.extend_from_slice(piece.as_slice()).is_err() {
            return Err(KeepingFault::Memory);
        }
        if piece.as_slice().len() < PIECE {
            if bytes.len() > most {
                return Err(KeepingFault::Room);
            }
            return Ok(bytes);
        }
    }
    Err(KeepingFault::Room)
}

/// What is kept of a file for who opened it, as the file is now, or why nothing is.
fn last_look<F: FileStore + Drop>(
    alloc: Global,
    volume: &mut Volume<F>,
    cred: &Cred,
    sight: &Result<Sight, KeepingFault>,
    most: usize,
) -> Result<Kept, KeepingFault>
    ensures kept { IfOk result (IsSeenIn F.state volume.old sight.now most cred.now) }
    ensures lacks { IfErr result (IsUnseenIn F.state volume.old sight.now most cred.now) }
    ensures looked { IsLooked F.state volume.old volume.new }
{
    let sight = match sight {
        Ok(sight) => sight,
        Err(lacking) => return Err(*lacking),
    };
    match all_shown(alloc, volume, cred, &sight.path, most) {
        Ok(bytes) => Ok(Kept {
            attr: sight.attr,
            bytes,
        }),
        Err(why) => Err(why),
    }
}

/// Looks at a node's file as who opened it in a slot, if it is open there, and keeps what he sees,
/// or why he sees nothing.
fn look_for<F: FileStore + Drop>(
    alloc: Global,
    volume: &mut Volume<F>,
    opens: &mut Opens,
    slot: usize,
    leaving: &Leaving,
)
    ensures prepared { IsPrepared (IsSeenIn F.state volume.old leaving.now.sight)
        (IsUnseenIn F.state volume.old leaving.now.sight) leaving.now.node
        (33554432 - bytes_kept opens.old.files.items)
        (slice_index_or opens.old.files.items slot None)
        (slice_index_or opens.new.files.items slot None) }
    ensures others { (s : ℕ) → s ≢ slot → slice_index_or opens.new.files.items s None
        ≡ slice_index_or opens.old.files.items s None }
    ensures looked { IsLooked F.state volume.old volume.new }
{
    let Some(cred) = opens.opener(slot, leaving.node) else {
        return;
    };
    let most = opens.room();
    let seen = last_look(alloc, volume, &cred, &leaving.sight, most);
    opens.keep(slot, seen);
}

/// Looks at a node's file as each who opened it.
fn look_for_all<F: FileStore + Drop>(
    alloc: Global,
    volume: &mut Volume<F>,
    opens: &mut Opens,
    leaving: &Leaving,
)
    ensures prepared { ArePrepared (IsSeenIn F.state volume.old leaving.now.sight)
        (IsUnseenIn F.state volume.old leaving.now.sight) leaving.now.node
        opens.old.files.items opens.new.files.items }
    ensures looked { IsLooked F.state volume.old volume.new }
{
    for slot in 0..opens.slots() {
        look_for(alloc, volume, opens, slot, leaving);
    }
}

impl<F: FileStore + Drop> Mount<F> {
    /// Where a node's file is to be looked at, or why it can't be.
    fn sight(&self, alloc: Global, node: u64) -> Result<Sight, KeepingFault>
        ensures { IsSightOr F.state self.now.beside.times.stamps.items self.now.tree.nodes
            self.now.tree.volume node result }
    {
        let Ok(path) = path_of(alloc, &self.tree.nodes, node, None) else {
            return Err(KeepingFault::Memory);
        };
        let Some(number) = self.tree.nodes.row(NodeId(node)) else {
            return Err(KeepingFault::Absent);
        };
        let Some(attrs) = self.tree.volume.store().attrs(number) else {
            return Err(KeepingFault::Absent);
        };
        let told = Told::Attr(unlinked(attr(number, &attrs)));
        match self.beside.times.dated(told) {
            Told::Attr(attr) => Ok(Sight { path, attr }),
            _ => Err(KeepingFault::Memory),
        }
    }

    #[tactic(auto, using(crate::proofs::LookedForLemmas::last_prepared))]
    /// Takes the last look at a file that is open and that a message is about to take from its
    /// place, and gives its node.
    pub(crate) fn prepare(&mut self, alloc: Global, node: u64, message: &Message<'_>) -> Option<u64>
        ensures leaves { IfSome result
            (IsLeaving self.old.tree.nodes node (view message.now)) }
        ensures none { result ≡ None → NoneLeaves self.old.tree.nodes node (view message.now)
            self.old.beside.opens.files.items }
        ensures looked { IsLooked F.state self.old.tree.volume self.new.tree.volume }
        ensures kept { ArePreparedFor (IsLastLook F.state self.old.beside.times.stamps.items
            self.old.tree.nodes self.old.tree.volume)
            (IsLastMiss F.state self.old.tree.nodes self.old.tree.volume) result
            self.old.beside.opens.files.items self.new.beside.opens.files.items }
        ensures nodes { self.new.tree.nodes ≡ self.old.tree.nodes }
        ensures times { self.new.beside.times ≡ self.old.beside.times }
        ensures loans { self.new.beside.loans ≡ self.old.beside.loans }
        ensures listings { self.new.beside.listings ≡ self.old.beside.listings }
        ensures sizes { self.new.sizes ≡ self.old.sizes }
    {
        let id = leaving(&self.tree.nodes, &self.beside.opens, node, message)?;
        let leaving = Leaving {
            node: id,
            sight: self.sight(alloc, id),
        };
        look_for_all(
            alloc,
            &mut self.tree.volume,
            &mut self.beside.opens,
            &leaving,
        );
        Some(id)
    }
}
