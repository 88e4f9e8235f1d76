//! Messages without a reply: nodes that the kernel forgets.

ghost use Rattle.std.specs.Prelude.{◌≡◌, ◌/◌, length};
ghost use Rattle.lfs_fuse_wire.specs.Forgetting.{forget_in, node_forgotten_at};

use crate::numbers::long_at;

/// How many look-ups of a node the kernel forgets.
#[derive(Clone, Copy, PartialEq, Eq, Debug)]
pub struct Forget {
    /// The number of look-ups.
    pub lookups: u64,
}

impl Forget {
    /// The 8 bytes of a forgetting.
    pub(crate) fn decode(body: &[u8]) -> Option<Forget>
        ensures { result ≡ forget_in body.now }
    {
        if body.len() < 8 {
            return None;
        }
        Some(Forget {
            lookups: long_at(body, 0),
        })
    }
}

/// One node of a batch.
#[derive(Clone, Copy, PartialEq, Eq, Debug)]
pub struct NodeForget {
    /// The node.
    pub node: u64,
    /// How many of its look-ups are forgotten.
    pub lookups: u64,
}

/// The nodes of a batch, in the message's own bytes: 16 for each.
#[derive(Clone, Copy, PartialEq, Eq, Debug)]
pub struct Forgets<'a> {
    /// The bytes.
    pub bytes: &'a [u8],
}

impl Forgets<'_> {
    /// The number of nodes.
    pub fn len(&self) -> usize
        ensures { result ≡ length self.now.bytes.now / 16 }
    {
        self.bytes.len() / 16
    }

    /// The node at this place of the batch, and `None` behind the last.
    pub fn get(&self, index: usize) -> Option<NodeForget>
        ensures { result ≡ node_forgotten_at index self.now.bytes.now }
    {
        if index >= self.len() {
            return None;
        }
        Some(NodeForget {
            node: long_at(self.bytes, 16 * index),
            lookups: long_at(self.bytes, 16 * index + 8),
        })
    }
}
