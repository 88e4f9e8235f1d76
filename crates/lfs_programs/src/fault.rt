//! Why a program doesn't begin, and why `lfs_shell` ends with status 1.

use lfs_audit::fault::{RunFault, ThreadsFault};
use lfs_audit::undone::Undone;
use lfs_checking::fault::KeepFault;
use lfs_disk_start::StartFault;
use lfs_stands::Unfit;
use lfs_types::fault::FormatFault;
use std::io::ErrorKind;
use thiserror::Error;

/// Why `lfs_shell` ends with status 1.
#[derive(Clone, Copy, Debug, Error)]
pub enum ShellFault {
    /// The talk ended by a fault. No film is written.
    #[error("{0}")]
    Talk(RunFault),
    /// All was answered, and the film could not be written to its file.
    #[error("film not written: {0}")]
    Film(FilmFault),
    /// All was answered, and the file of the journal took no more entries, which was told by then.
    #[error("journal not written")]
    Journal,
    /// No volume was loaded from the image's file, and nothing is read.
    #[error("{0}")]
    Image(KeepFault),
    /// No store stands on the disk's file, and nothing is read.
    #[error("{0}")]
    Disk(StartFault),
    /// The store that is asked for may not stand on the log of the image's volume, and nothing is read.
    #[error("{0}")]
    Unfit(Unfit),
    /// All was answered, and the volume is not kept in the image's file, or not all of it on its disk, which was told by
    /// then.
    #[error("volume not kept")]
    Unsaved,
    /// All was answered, and a line has a fault, which was told as its answer.
    #[error("a line has a fault")]
    Line,
}

/// Why what a talk left of a volume is not kept.
#[derive(Clone, Copy, PartialEq, Eq, Debug, Error)]
pub enum UnkeptFault {
    /// It has no image in its file.
    #[error("{0}")]
    Image(KeepFault),
    /// The last changes are not sure to be on its disk.
    #[error("disk: not all is written")]
    Disk,
    /// A growth was refused.
    #[error("no memory")]
    Memory,
}

/// Why a film is not in its file. What stood there by then is left as it was.
#[derive(Clone, Copy, PartialEq, Eq, Debug, Error)]
pub enum FilmFault {
    /// The file beside it, in which it is written first, could not be made.
    #[error("{0}")]
    Unmade(ErrorKind),
    /// What has the film's name is no file: a directory or a device.
    #[error("not a file")]
    Special,
    /// The page was not written.
    #[error("write failed")]
    Unwritten,
    /// The file beside it did not get the film's name.
    #[error("not renamed, {0}")]
    Unnamed(ErrorKind),
    /// A growth was refused.
    #[error("no memory")]
    Memory,
}

/// Why a program doesn't begin: the file of the journal was not made.
#[derive(Clone, Copy, PartialEq, Eq, Debug, Error)]
pub enum OpenFault {
    /// There is a file of this path, which is left as it is.
    #[error("journal file exists")]
    Exists,
    /// No file of this path could be made.
    #[error("journal file not made")]
    Unmade,
}

/// Why a program doesn't begin: the file of its script was not opened.
#[derive(Clone, Copy, Debug, Error)]
#[error("{path} not opened: {kind}")]
pub struct UnopenedScript<'a> {
    /// The file.
    pub path: &'a str,
    /// Why.
    pub kind: ErrorKind,
}

/// Why `lfsd` ends with another status than 0.
#[derive(Clone, Copy, PartialEq, Eq, Debug, Error)]
pub enum ServerFault {
    /// The run ended by a fault.
    #[error("{0}")]
    Run(ThreadsFault),
    /// The file of the journal was not made, and nothing was run.
    #[error("{0}")]
    Open(OpenFault),
    /// All was run, and the file of the journal has not each entry, which was told by then.
    #[error("journal not written")]
    Journal,
}

impl From<ThreadsFault> for ServerFault {
    ghost use Rattle.std.specs.Prelude.{◌≡◌};
    ghost use Rattle.lfs_programs.specs.declared.fault.ServerFault.TheVariants.{Run};

    ghost from_gives = { λ fault server. server ≡ Run fault };

    fn from(fault: ThreadsFault) -> ServerFault {
        ServerFault::Run(fault)
    }
}

impl<T: Drop> From<Undone<T>> for ServerFault {
    ghost use Rattle.std.specs.Prelude.{◌≡◌};
    ghost use Rattle.lfs_audit.specs.Undone.{why};
    ghost use Rattle.lfs_programs.specs.declared.fault.ServerFault.TheVariants.{Run};

    ghost from_gives = { λ undone server. server ≡ Run (why undone) };

    fn from(undone: Undone<T>) -> ServerFault {
        ServerFault::Run(undone.fault())
    }
}

impl From<RunFault> for ServerFault {
    ghost use Rattle.std.specs.Prelude.{◌≡◌};
    ghost use Rattle.lfs_audit.specs.declared.fault.ThreadsFault.TheVariants as threads;
    ghost use Rattle.lfs_programs.specs.declared.fault.ServerFault.TheVariants.{Run};

    ghost from_gives = { λ fault server. server ≡ Run (threads.Run fault) };

    fn from(fault: RunFault) -> ServerFault {
        ServerFault::Run(ThreadsFault::Run(fault))
    }
}

impl From<FormatFault> for ServerFault {
    ghost use Rattle.std.specs.Prelude.{◌≡◌};
    ghost use Rattle.lfs_audit.specs.declared.fault.RunFault.TheVariants.{Format};
    ghost use Rattle.lfs_audit.specs.declared.fault.ThreadsFault.TheVariants as threads;
    ghost use Rattle.lfs_programs.specs.declared.fault.ServerFault.TheVariants.{Run};

    ghost from_gives = { λ fault server. server ≡ Run (threads.Run (Format fault)) };

    fn from(fault: FormatFault) -> ServerFault {
        ServerFault::Run(ThreadsFault::Run(RunFault::Format(fault)))
    }
}

impl From<OpenFault> for ServerFault {
    ghost use Rattle.std.specs.Prelude.{◌≡◌};
    ghost use Rattle.lfs_programs.specs.declared.fault.ServerFault.TheVariants.{Open};

    ghost from_gives = { λ fault server. server ≡ Open fault };

    fn from(fault: OpenFault) -> ServerFault {
        ServerFault::Open(fault)
    }
}
