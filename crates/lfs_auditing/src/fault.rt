//! Why an audit ends before its report, and why a line tells no entry.

ghost use Rattle.std.specs.Prelude.{◌≡◌};
ghost use Rattle.lfs_auditing.specs.declared.fault.AuditFault.TheVariants.{Memory, Write};

use lfs_checking::fault::{CheckFault, KeepFault, VolumeFault};
use lfs_io::output::WriteFault;
use lfs_journal_lines::fault::LineFault;
use lfs_types::fault::FormatFault;
use std::alloc::{AllocError, AllocFailed};
use thiserror::Error;

/// Why an audit ends before its report.
#[derive(Clone, Copy, PartialEq, Eq, Debug, Error)]
pub enum AuditFault {
    /// The file of the journal could not be opened.
    #[error("journal not opened")]
    Open,
    /// The volume at whose tree the journal begins is not loaded from its image.
    #[error("{0}")]
    Image(KeepFault),
    /// The reader failed.
    #[error("read failed")]
    Read,
    /// The journal has more than 4,294,967,294 entries.
    #[error("too many entries")]
    TooMany,
    /// A growth was refused.
    #[error("no memory")]
    Memory,
    /// The report was not written.
    #[error("write failed")]
    Write,
}

impl From<AllocError> for AuditFault {
    ghost from_gives = { λ _ fault. fault ≡ Memory };

    fn from(_error: AllocError) -> AuditFault {
        AuditFault::Memory
    }
}

impl<T: Drop> From<AllocFailed<T>> for AuditFault {
    ghost from_gives = { λ _ fault. fault ≡ Memory };

    fn from(_error: AllocFailed<T>) -> AuditFault {
        AuditFault::Memory
    }
}

impl From<FormatFault> for AuditFault {
    fn from(fault: FormatFault) -> AuditFault {
        match fault {
            // No numbers are asked for that a volume can't have, and no image has such.
            FormatFault::TooFew | FormatFault::TooMany | FormatFault::Memory => AuditFault::Memory,
        }
    }
}

impl From<KeepFault> for AuditFault {
    fn from(fault: KeepFault) -> AuditFault {
        match fault {
            KeepFault::Memory
            | KeepFault::Read(CheckFault::Memory)
            | KeepFault::Image(VolumeFault::Memory) => AuditFault::Memory,
            KeepFault::Read(_) | KeepFault::Image(_) | KeepFault::Save | KeepFault::Frames => {
                AuditFault::Image(fault)
            }
        }
    }
}

impl From<WriteFault> for AuditFault {
    ghost from_gives = { λ _ fault. fault ≡ Write };

    fn from(_fault: WriteFault) -> AuditFault {
        AuditFault::Write
    }
}

/// Why a line tells no entry.
#[derive(Clone, Copy, PartialEq, Eq, Debug, Error)]
pub enum EntryLineFault {
    /// It has no line feed.
    #[error("line: Cut")]
    Cut,
    /// It has more than 4,194,304 bytes.
    #[error("line: TooLong")]
    TooLong,
    /// The number before it isn't the next: a line before it is lacking, or stands there twice.
    #[error("line: Gap")]
    Gap,
    /// It has this fault.
    #[error("{0}")]
    Line(LineFault),
}
