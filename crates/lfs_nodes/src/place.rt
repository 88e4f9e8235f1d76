//! Node ids, and the places where nodes hang.

ghost use Rattle.std.specs.Prelude.{◌≡◌, IfOk};

use lfs_types::name::Name;
use std::alloc::{AllocError, Global};
use std::hash::{Hash, Hasher};

/// A node id: what the kernel calls a file by, from the reply that gave the id until it forgets it. The root's is 1.
#[derive(Clone, Copy, PartialEq, Eq, Debug)]
pub struct NodeId(pub u64);

/// The node id of the root directory (`FUSE_ROOT_ID`).
pub const ROOT_ID: u64 = 1;

/// A name in the directory of a node.
#[derive(Drop, Debug)]
pub struct Place {
    /// The directory's node id.
    pub parent: u64,
    /// The name.
    pub name: Name,
}

impl Place {
    /// A place equal to this one.
    pub(crate) fn try_clone(&self, alloc: Global) -> Result<Place, AllocError>
        ensures { IfOk result (λ copy. copy ≡ self.now) }
    {
        let name = self.name.try_clone(alloc)?;
        Ok(Place {
            parent: self.parent,
            name,
        })
    }
}

impl PartialEq for Place {
    ghost use Rattle.std.specs.Prelude.{◌==◌, ◌&&◌, bytes_eq};
    ghost use Rattle.std.proofs.Common.{rules};
    ghost use Rattle.std.specs.Cmp.Rules.{comparing};

    ghost eq = { λ a b. (a.parent == b.parent) && bytes_eq a.name b.name };

    ghost laws = { Prim.search (comparing, rules) };

    fn eq(&self, other: &Place) -> bool {
        self.parent == other.parent && self.name == other.name
    }
}

impl Eq for Place {
    ghost use Rattle.std.proofs.Common.{rules};
    ghost use Rattle.std.specs.Cmp.Rules.{comparing};

    ghost laws = { Prim.search (comparing, rules) };
}

impl Hash for Place {
    ghost use Rattle.std.specs.Prelude.{◌++◌};
    ghost use Rattle.std.specs.Hash as fed;
    ghost use Rattle.std.proofs.Common.{rules};
    ghost use Rattle.std.specs.Cmp.Rules.{comparing, hashing};

    ghost hash_input = { λ a. fed.u64 a.parent ++ fed.slice fed.u8 a.name };

    ghost respects_eq = { Prim.search (hashing, rules) };

    fn hash<H: Hasher>(&self, state: &mut H) {
        self.parent.hash(state);
        self.name.as_bytes().hash(state);
    }
}
