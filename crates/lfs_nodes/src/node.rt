//! What is kept of a node.

ghost use Rattle.std.specs.Prelude.{◌≡◌};
ghost use Rattle.lfs_nodes.specs.Places.{place_of as place_for};

use crate::place::Place;
use lfs_types::limits::ROOT_INODE;

/// Where a node hangs.
#[derive(Drop, Debug)]
pub enum Hang {
    /// It is the root.
    Root,
    /// It hangs here.
    At(Place),
    /// Its row was removed or replaced.
    Gone,
}

/// A node: a row that the kernel was told of.
#[derive(Drop, Debug)]
pub struct Node {
    /// Where it hangs.
    pub(crate) hang: Hang,
    /// The inode number of its row.
    pub(crate) row: u32,
    /// How many look-ups of it the kernel holds.
    pub(crate) look_ups: u64,
    /// How many handles are open on it.
    pub(crate) handles: u64,
    /// How many nodes hang beneath it.
    pub(crate) children: u64,
}

impl Node {
    ghost use Rattle.lfs_nodes.specs.Holds.{fresh, node_is_held, root_node};

    /// A node of a row that hangs nowhere, with one look-up.
    pub(crate) fn new(row: u32) -> Node
        ensures { result ≡ fresh Hang.Gone row }
    {
        Node {
            hang: Hang::Gone,
            row,
            look_ups: 1,
            handles: 0,
            children: 0,
        }
    }

    /// The root's node.
    pub(crate) fn root() -> Node
        ensures { result ≡ root_node }
    {
        Node {
            hang: Hang::Root,
            row: ROOT_INODE,
            look_ups: 1,
            handles: 0,
            children: 0,
        }
    }

    /// Whether something holds the node: a look-up, a handle, or a node beneath it. The root is always held.
    pub(crate) fn is_held(&self) -> bool
        ensures { result ≡ node_is_held self.now }
    {
        let root = matches!(&self.hang, Hang::Root);
        root || self.look_ups > 0 || self.handles > 0 || self.children > 0
    }
}

/// The place of a node that hangs somewhere.
pub(crate) fn place_of(hang: Option<Hang>) -> Option<Place>
    ensures { result ≡ place_for hang }
{
    match hang {
        Some(Hang::At(place)) => Some(place),
        Some(Hang::Root) | Some(Hang::Gone) | None => None,
    }
}
