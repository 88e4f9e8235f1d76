//! Why a node has no answer.

use lfs_types::name::BadName;
use std::alloc::AllocError;
use thiserror::Error;

/// Why a node has no path.
#[derive(Clone, Copy, PartialEq, Eq, Debug, Drop, Error)]
pub enum PathFault {
    /// The node, or one above it, is none that was given out and isn't forgotten.
    #[error("the node isn't known")]
    Unknown,
    /// The row of the node, or of one above it, was removed or replaced (`ESTALE`).
    #[error("the node's file is gone")]
    Stale,
    /// The path has more than 1,024 bytes (`ENAMETOOLONG`).
    #[error("the path has more than 1,024 bytes")]
    Long,
    /// A growth was refused.
    #[error("no memory")]
    Memory,
    /// The name that was asked for is refused.
    #[error("{0}")]
    Name(BadName),
}

impl From<AllocError> for PathFault {
    ghost use Rattle.std.specs.Prelude.{◌≡◌};
    ghost use Rattle.lfs_nodes.specs.declared.fault.PathFault.TheVariants.{Memory};

    ghost from_gives = { λ _ fault. fault ≡ Memory };

    fn from(_: AllocError) -> PathFault {
        PathFault::Memory
    }
}

/// Why a look-up is given no node.
#[derive(Clone, Copy, PartialEq, Eq, Debug, Error)]
pub enum LookUpFault {
    /// The directory's node isn't known, or its row is gone (`ESTALE`).
    #[error("the directory's node isn't there")]
    Stale,
    /// Each node id was given out, of which there are 2^64 - 1 (`EOVERFLOW`).
    #[error("no node id is left")]
    Exhausted,
    /// A growth was refused.
    #[error("no memory")]
    Memory,
}

impl From<AllocError> for LookUpFault {
    ghost use Rattle.std.specs.Prelude.{◌≡◌};
    ghost use Rattle.lfs_nodes.specs.declared.fault.LookUpFault.TheVariants.{Memory};

    ghost from_gives = { λ _ fault. fault ≡ Memory };

    fn from(_: AllocError) -> LookUpFault {
        LookUpFault::Memory
    }
}
