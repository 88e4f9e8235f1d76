//! Why a script is not run to its end.

ghost use Rattle.std.specs.Prelude.{◌≡◌};
ghost use Rattle.lfs_audit.specs.declared.fault.RunFault.TheVariants.{Memory};

use lfs_io::output::WriteFault;
use lfs_io::read::ReadFault;
use lfs_script::fault::ScriptFault;
use lfs_script::split::SplitFault;
use lfs_server::serving::ServeFault;
use lfs_server::unserved::Unserved;
use lfs_types::fault::FormatFault;
use std::alloc::{AllocError, AllocFailed};
use thiserror::Error;

/// Why a run of a script ended. Up to `Format` nothing was written; after `Memory` or `Write` how much went out is not
/// said.
#[derive(Clone, Copy, PartialEq, Eq, Debug, Error)]
pub enum RunFault {
    /// The script could not be read.
    #[error("read failed")]
    Read,
    /// The script has more than 1,048,576 bytes.
    #[error("script too long")]
    TooLong,
    /// A line is refused, and none was run.
    #[error("script {0}")]
    Script(ScriptFault),
    /// The volume could not be laid out.
    #[error("format {0}")]
    Format(FormatFault),
    /// A growth was refused.
    #[error("no memory")]
    Memory,
    /// An answer could not be written.
    #[error("write failed")]
    Write,
}

impl From<AllocError> for RunFault {
    ghost from_gives = { λ _ fault. fault ≡ Memory };

    fn from(_error: AllocError) -> RunFault {
        RunFault::Memory
    }
}

impl<T: Drop> From<AllocFailed<T>> for RunFault {
    ghost from_gives = { λ _ fault. fault ≡ Memory };

    fn from(_error: AllocFailed<T>) -> RunFault {
        RunFault::Memory
    }
}

impl From<FormatFault> for RunFault {
    ghost use Rattle.lfs_audit.specs.declared.fault.RunFault.TheVariants.{Format};

    ghost from_gives = { λ fault run. run ≡ Format fault };

    fn from(fault: FormatFault) -> RunFault {
        RunFault::Format(fault)
    }
}

impl From<ReadFault> for RunFault {
    ghost use Rattle.lfs_audit.specs.Faults.{read_fault};

    ghost from_gives = { λ fault run. run ≡ read_fault fault };

    fn from(fault: ReadFault) -> RunFault {
        match fault {
            ReadFault::Read => RunFault::Read,
            ReadFault::TooLong => RunFault::TooLong,
            ReadFault::Memory => RunFault::Memory,
        }
    }
}

impl From<WriteFault> for RunFault {
    ghost use Rattle.lfs_audit.specs.declared.fault.RunFault.TheVariants.{Write};

    ghost from_gives = { λ _ fault. fault ≡ Write };

    fn from(_fault: WriteFault) -> RunFault {
        RunFault::Write
    }
}

/// Why a run of a script on threads ended. After `CleanerLine` and `Serve` nothing was written.
#[derive(Clone, Copy, PartialEq, Eq, Debug, Error)]
pub enum ThreadsFault {
    /// The script could not be read or parsed, memory ran out, or a write failed.
    #[error("{0}")]
    Run(RunFault),
    /// A line asks for a call of the cleaner, and none was run.
    #[error("cleaner line with --threads")]
    CleanerLine,
    /// The sessions were not run, or what they left is not handed out.
    #[error("{0}")]
    Serve(ServeFault),
}

impl From<RunFault> for ThreadsFault {
    ghost use Rattle.lfs_audit.specs.declared.fault.ThreadsFault.TheVariants.{Run};

    ghost from_gives = { λ fault threads. threads ≡ Run fault };

    fn from(fault: RunFault) -> ThreadsFault {
        ThreadsFault::Run(fault)
    }
}

impl From<SplitFault> for ThreadsFault {
    ghost use Rattle.lfs_audit.specs.Faults.{split_fault};

    ghost from_gives = { λ fault threads. threads ≡ split_fault fault };

    fn from(fault: SplitFault) -> ThreadsFault {
        match fault {
            SplitFault::CleanerLine => ThreadsFault::CleanerLine,
            SplitFault::Memory => ThreadsFault::Run(RunFault::Memory),
        }
    }
}

impl<T: Drop> From<Unserved<T>> for ThreadsFault {
    ghost use Rattle.lfs_server.specs.Unserved.{fault_of};
    ghost use Rattle.lfs_audit.specs.declared.fault.ThreadsFault.TheVariants.{Serve};

    ghost from_gives = { λ unserved threads. threads ≡ Serve (fault_of unserved) };

    fn from(unserved: Unserved<T>) -> ThreadsFault {
        ThreadsFault::Serve(unserved.fault())
    }
}
