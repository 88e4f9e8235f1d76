//! A volume as a mount.

ghost use Rattle.std.specs.Prelude.{◌≡◌, IfOk, replicate};
ghost use Rattle.lfs_stamps.specs.Stamps.{born};
ghost use Rattle.lfs_mount.specs.Trees.{AreTrue};

use crate::node_tree::NodeTree;
use lfs_fuse_wire::attributes::Time;
use lfs_nodes::Nodes;
use lfs_opens::listing::Listings;
use lfs_opens::loans::Loans;
use lfs_opens::opens::Opens;
use lfs_stamps::times::Times;
use lfs_types::store::FileStore;
use lfs_volume::volume::Volume;
use std::alloc::{AllocError, Global};

/// How large a volume was laid out, as statfs(2) tells it.
#[derive(Clone, Copy, PartialEq, Eq, Debug)]
pub struct Sizes {
    /// How many segments.
    pub segments: u32,
    /// How many inode numbers.
    pub inodes: u32,
}

/// What a mount keeps of files beside its volume: by inode number, and of those and the directories
/// that are open.
#[derive(Drop)]
pub struct Beside {
    pub(crate) times: Times,
    pub(crate) loans: Loans,
    pub(crate) opens: Opens,
    pub(crate) listings: Listings,
}

/// A volume, the nodes by which the kernel calls its files, and what is kept of these beside it.
#[derive(Drop)]
pub struct Mount<F: FileStore + Drop> {
    pub(crate) tree: NodeTree<F>,
    pub(crate) beside: Beside,
    pub(crate) sizes: Sizes,
}

impl<F: FileStore + Drop> Mount<F> {
    /// A mount of a volume, of which the kernel knows the root alone. Each file has the present
    /// time. Its nodes are true of the tree that the volume shows.
    pub fn new(
        alloc: Global,
        volume: Volume<F>,
        sizes: Sizes,
        now: Time,
    ) -> Result<Mount<F>, AllocError>
        ensures volume { IfOk result (λ mount. mount.tree.volume ≡ volume) }
        ensures nodes { IfOk result (λ mount. AreTrue F.state mount.tree.volume mount.tree.nodes) }
        ensures sizes { IfOk result (λ mount. mount.sizes ≡ sizes) }
        ensures times { IfOk result (λ mount. mount.beside.times.stamps.items
            ≡ replicate sizes.inodes (born now)) }
    {
        let beside = Beside {
            times: Times::new(alloc, sizes.inodes, now)?,
            loans: Loans::new(alloc, sizes.inodes)?,
            opens: Opens::new(alloc)?,
            listings: Listings::new(alloc),
        };
        let nodes = Nodes::new(alloc)?;
        let tree = NodeTree { volume, nodes };
        Ok(Mount {
            tree,
            beside,
            sizes,
        })
    }
}
