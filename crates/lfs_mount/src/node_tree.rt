//! A volume as a tree of nodes.

use lfs_nodes::Nodes;
use lfs_types::store::FileStore;
use lfs_volume::volume::Volume;

/// A volume, and the nodes by which the kernel calls its files.
#[derive(Drop)]
pub struct NodeTree<F: FileStore + Drop> {
    pub(crate) volume: Volume<F>,
    pub(crate) nodes: Nodes,
}
