//! Why no volume is found in blocks.

ghost use Rattle.std.specs.Prelude.{◌≡◌};
ghost use Rattle.lfs_checking.specs.declared.fault.CheckFault.TheVariants.{Memory as NoMemory};
ghost use Rattle.lfs_checking.specs.declared.fault.CheckFault.TheVariants.{Write};
ghost use Rattle.lfs_rescue.specs.declared.fault.RecoverFault.TheVariants.{Memory};
ghost use Rattle.lfs_rescue.specs.declared.fault.RescueFault.TheVariants.{Check, Journal};

use lfs_auditing::fault::AuditFault;
use lfs_checking::fault::{CheckFault, KeepFault, VolumeFault};
use lfs_io::output::WriteFault;
use std::alloc::AllocError;
use std::{error, fmt};
use thiserror::Error;

/// Why no volume is found in blocks.
#[derive(Clone, Copy, PartialEq, Eq, Debug)]
pub enum RecoverFault {
    /// No log has a whole partial segment.
    Empty,
    /// The volume that the newest records tell has a fault.
    Volume {
        /// What is wrong with it.
        fault: VolumeFault,
    },
    /// Names lead to a number that has no record.
    Number {
        /// The inode number.
        number: u32,
    },
    /// The highest serial is 2^32 - 1, the last one, which several partial segments may have.
    LastSerial,
    /// The bytes are not those of 6 to 1,024 whole segments.
    Length,
    /// A growth was refused.
    Memory,
}

impl fmt::Display for RecoverFault {
    ghost use Rattle.lfs_rescue.specs.Blocks.{fault_words};

    ghost output = { fault_words };

    fn fmt<W: fmt::Write>(&self, f: &mut fmt::Formatter<W>) -> fmt::Result {
        match *self {
            RecoverFault::Empty => f.write_str("no whole partial segment"),
            RecoverFault::Volume { fault } => write!(f, "{fault}"),
            RecoverFault::Number { number } => write!(f, "inode {number}: no record"),
            RecoverFault::LastSerial => {
                f.write_str("the last serial is given out, and does not tell which is the newest")
            }
            RecoverFault::Length => f.write_str("no whole segments, or too few or too many"),
            RecoverFault::Memory => f.write_str("no memory"),
        }
    }
}

impl error::Error for RecoverFault {}

impl From<AllocError> for RecoverFault {
    ghost from_gives = { λ _ fault. fault ≡ Memory };

    fn from(_error: AllocError) -> RecoverFault {
        RecoverFault::Memory
    }
}

/// Why a search in blocks ends without a verdict.
#[derive(Clone, Copy, PartialEq, Eq, Debug, Error)]
pub enum RescueFault {
    /// What is read or written fails, or there is no memory.
    #[error("{0}")]
    Check(CheckFault),
    /// The image of what is found is not kept.
    #[error("{0}")]
    Keep(KeepFault),
    /// The journal is not read.
    #[error("{0}")]
    Journal(AuditFault),
}

impl From<AuditFault> for RescueFault {
    ghost from_gives = { λ audit fault. fault ≡ Journal audit };

    fn from(fault: AuditFault) -> RescueFault {
        RescueFault::Journal(fault)
    }
}

impl From<CheckFault> for RescueFault {
    ghost from_gives = { λ check fault. fault ≡ Check check };

    fn from(fault: CheckFault) -> RescueFault {
        RescueFault::Check(fault)
    }
}

impl From<WriteFault> for RescueFault {
    ghost from_gives = { λ _ fault. fault ≡ Check Write };

    fn from(_fault: WriteFault) -> RescueFault {
        RescueFault::Check(CheckFault::Write)
    }
}

impl From<AllocError> for RescueFault {
    ghost from_gives = { λ _ fault. fault ≡ Check NoMemory };

    fn from(_error: AllocError) -> RescueFault {
        RescueFault::Check(CheckFault::Memory)
    }
}
