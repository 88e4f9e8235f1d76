//! Why no store stands on a disk's file.

ghost use Rattle.std.specs.Prelude.{◌≡◌};
ghost use Rattle.lfs_disk_start.specs.declared.fault.StartFault.TheVariants.{Disk, File, Format};

use lfs_disk::DiskFault;
use lfs_file_disk::FileFault;
use lfs_rescue::RecoverFault;
use lfs_types::fault::FormatFault;
use thiserror::Error;

/// Why no store stands on a disk's file.
#[derive(Clone, Copy, PartialEq, Eq, Debug, Error)]
pub enum StartFault {
    /// The file can't be made, opened or read.
    #[error("{0}")]
    File(FileFault),
    /// No store has these numbers, or a growth was refused.
    #[error("{0}")]
    Format(FormatFault),
    /// The file has no 6 to 1,024 whole segments.
    #[error("file of the disk has no whole segments, or too few or too many")]
    Length,
    /// No volume is found in its blocks.
    #[error("file of the disk: {0}")]
    Recovery(RecoverFault),
    /// A volume is found in its blocks that could not be found again.
    #[error("file of the disk with a log out of order")]
    Lost,
    /// The disk failed as blocks were written to it.
    #[error("disk: {0}")]
    Disk(DiskFault),
}

impl From<FileFault> for StartFault {
    ghost from_gives = { λ file fault. fault ≡ File file };

    fn from(fault: FileFault) -> StartFault {
        StartFault::File(fault)
    }
}

impl From<FormatFault> for StartFault {
    ghost from_gives = { λ format fault. fault ≡ Format format };

    fn from(fault: FormatFault) -> StartFault {
        StartFault::Format(fault)
    }
}

impl From<DiskFault> for StartFault {
    ghost from_gives = { λ disk fault. fault ≡ Disk disk };

    fn from(fault: DiskFault) -> StartFault {
        StartFault::Disk(fault)
    }
}
