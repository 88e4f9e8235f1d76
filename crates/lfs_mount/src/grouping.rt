//! Whether the groups of a message's caller count.

ghost use Rattle.std.specs.Prelude.{◌≡◌, IsSomeAnd, true};
ghost use Rattle.lfs_fuse_wire.specs.Said.{said};
ghost use Rattle.lfs_fuse_wire.specs.Views.{view};
ghost use Rattle.lfs_nodes.specs.Nodes.{known};
ghost use Rattle.lfs_nodes.specs.Reads.{number_in};
ghost use Rattle.lfs_mount.specs.Groups.{
  GrantsAlike,
  LooksAlike,
  NeedsNoGroups,
  NodeGrantsAlike,
  ReachesAlike,
};

use crate::mount::Mount;
use crate::node_tree::NodeTree;
use lfs_fuse_calls::paths::path_of;
use lfs_fuse_calls::telling::named_in;
use lfs_fuse_wire::header::Header;
use lfs_fuse_wire::message::Message;
use lfs_nodes::NodeId;
use lfs_types::attrs::{Attrs, Bit};
use lfs_types::mode::ModeBits;
use lfs_types::store::FileStore;
use std::alloc::Global;

/// The most bytes that one call writes.
const PIECE: usize = 4_096;

/// Whether attributes grant this alike to every caller of a user, whatever his groups are: the file is his, or its mode
/// grants its group what it grants others.
fn grants_alike(attrs: &Attrs, uid: u32, bit: Bit) -> bool
    ensures { result ≡ true → GrantsAlike attrs.now uid bit }
{
    if attrs.uid == uid {
        return true;
    }
    let mode = attrs.mode;
    match bit {
        Bit::Read => mode.contains(ModeBits::S_IRGRP) == mode.contains(ModeBits::S_IROTH),
        Bit::Write => mode.contains(ModeBits::S_IWGRP) == mode.contains(ModeBits::S_IWOTH),
        Bit::Search => mode.contains(ModeBits::S_IXGRP) == mode.contains(ModeBits::S_IXOTH),
    }
}

impl<F: FileStore + Drop> NodeTree<F> {
    /// Whether the file of a node grants this alike to every caller of a user.
    fn node_grants_alike(&self, node: u64, uid: u32, bit: Bit) -> bool
        ensures { result ≡ true → NodeGrantsAlike F.state self.now.volume
            (number_in (known self.now.nodes node)) uid bit }
    {
        let Some(number) = self.nodes.row(NodeId(node)) else {
            return false;
        };
        match self.volume.attrs(number) {
            Some(attrs) => grants_alike(&attrs, uid, bit),
            None => false,
        }
    }

    /// Whether the walk to the node of a header ends alike for every caller of its user, and what it leads to grants
    /// these two alike.
    fn reaches_alike(&self, alloc: Global, header: &Header, first: Bit, second: Bit) -> bool
        ensures { result ≡ true → ReachesAlike F.state self.now.volume self.now.nodes
            header.now.node header.now.uid first second }
    {
        let Ok(path) = path_of(alloc, &self.nodes, header.node, None) else {
            return false;
        };
        if !self.volume.ends_alike(header.uid, &path) {
            return false;
        }
        if !self.node_grants_alike(header.node, header.uid, first) {
            return false;
        }
        self.node_grants_alike(header.node, header.uid, second)
    }

    /// Whether a message only looks along a path whose walk ends alike.
    fn looks_alike(&self, alloc: Global, header: &Header, message: &Message<'_>) -> bool
        ensures { result ≡ true → LooksAlike F.state self.now.volume self.now.nodes header.now
            (view message.now) }
    {
        match path_of(alloc, &self.nodes, header.node, named_in(message)) {
            Ok(path) => self.volume.ends_alike(header.uid, &path),
            Err(_) => false,
        }
    }

    /// Whether the groups of the caller of a message are sure not to count.
    fn needs_no_groups(&self, alloc: Global, header: &Header, message: &Message<'_>) -> bool
        ensures { result ≡ true → NeedsNoGroups F.state self.now.volume self.now.nodes header.now
            (view message.now) }
    {
        match message {
            Message::Lookup(_) | Message::GetAttr(_) => self.looks_alike(alloc, header, message),
            Message::Read(_) => self.reaches_alike(alloc, header, Bit::Read, Bit::Read),
            Message::Write(_, bytes) => {
                if bytes.len() > PIECE {
                    return false;
                }
                self.reaches_alike(alloc, header, Bit::Write, Bit::Write)
            }
            Message::Unlink(_) => self.reaches_alike(alloc, header, Bit::Search, Bit::Write),
            Message::Rmdir(_) => self.reaches_alike(alloc, header, Bit::Search, Bit::Write),
            Message::Rename(fields, _, _) => {
                if fields.directory != header.node {
                    return false;
                }
                self.reaches_alike(alloc, header, Bit::Search, Bit::Write)
            }
            _ => false,
        }
    }
}

impl<F: FileStore + Drop> Mount<F> {
    /// Whether the groups of the caller of a message are sure not to count, as the mount stands: whatever they are, the
    /// calls that it makes come to the same. Where that isn't known, or there is no path, they count.
    pub fn needs_no_groups(&self, alloc: Global, header: &Header, bytes: &[u8]) -> bool
        ensures { result ≡ true → IsSomeAnd (said bytes.now)
            (NeedsNoGroups F.state self.now.tree.volume self.now.tree.nodes header.now) }
    {
        match Message::decode(bytes) {
            Ok(message) => self.tree.needs_no_groups(alloc, header, &message),
            Err(_) => false,
        }
    }
}
