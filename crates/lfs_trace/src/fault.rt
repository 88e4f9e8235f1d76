//! Why an entry, or a trace, is not found to be legal.

ghost use Rattle.std.specs.Prelude.{◌≡◌};
ghost use Rattle.lfs_trace.specs.declared.fault.EntryFault.TheVariants as entry;
ghost use Rattle.lfs_trace.specs.declared.fault.TraceFault.TheVariants as trace;

use lfs_types::fault::FormatFault;
use std::alloc::AllocError;
use thiserror::Error;

/// Why an entry is not found to be legal.
#[derive(Clone, Copy, PartialEq, Eq, Debug, Error)]
pub enum EntryFault {
    /// The rules don't allow it where it stands.
    #[error("illegal")]
    Illegal,
    /// A growth was refused, and nothing is said of it.
    #[error("no memory")]
    Memory,
}

impl From<AllocError> for EntryFault {
    ghost from_gives = { λ _ fault. fault ≡ entry.Memory };

    fn from(_error: AllocError) -> EntryFault {
        EntryFault::Memory
    }
}

/// Why a trace is not found to be legal.
#[derive(Clone, Copy, PartialEq, Eq, Debug, Error)]
pub enum TraceFault {
    /// There is no volume of so many inode numbers, or no memory for one.
    #[error("{0}")]
    Volume(FormatFault),
    /// The entry of this index is the first that the rules don't allow.
    #[error("entry {0} is illegal")]
    Illegal(usize),
    /// A growth was refused, and nothing is said of the entries.
    #[error("no memory")]
    Memory,
}

impl From<FormatFault> for TraceFault {
    ghost from_gives = { λ why fault. fault ≡ trace.Volume why };

    fn from(fault: FormatFault) -> TraceFault {
        TraceFault::Volume(fault)
    }
}
