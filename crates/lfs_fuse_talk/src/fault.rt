//! Why a talk ends before its end, or is none.

use lfs_checking::fault::{CheckFault, VolumeFault};
use lfs_stands::Unfit;
use lfs_types::fault::FormatFault;
use std::alloc::AllocError;
use thiserror::Error;

/// Why a talk ends before its end, or is none.
#[derive(Clone, Copy, PartialEq, Eq, Debug, Error)]
pub enum TalkFault {
    /// The volume can't be laid out so.
    #[error("{0}")]
    Format(FormatFault),
    /// The file of the image can't be read.
    #[error("{0}")]
    Read(CheckFault),
    /// What the file of the image has is the image of no volume.
    #[error("image: {0}")]
    Image(VolumeFault),
    /// The store that is asked for may not stand on the log of the image's volume, and nothing is read.
    #[error("{0}")]
    Unfit(Unfit),
    /// The file of the journal was not made.
    #[error("{0}")]
    Open(OpenFault),
    /// The file of the journal took no more, which was told by then.
    #[error("journal not written")]
    Journal,
    /// The image is not saved.
    #[error("image not saved")]
    Save,
    /// What was read is no message: its length is less than a header's, or more than is taken.
    #[error("no message")]
    Message,
    /// A reply was not written whole. The talk goes on: its caller was interrupted, or nobody is there.
    #[error("a reply was not written")]
    Reply,
    /// A growth was refused.
    #[error("no memory")]
    Memory,
}

/// Why the file of the journal was not made.
#[derive(Clone, Copy, PartialEq, Eq, Debug, Error)]
pub enum OpenFault {
    /// There is a file of this path, which is left as it is.
    #[error("journal file exists")]
    Exists,
    /// No file of this path could be made.
    #[error("journal file not made")]
    Unmade,
}

impl From<AllocError> for TalkFault {
    ghost use Rattle.std.specs.Prelude.{◌≡◌};
    ghost use Rattle.lfs_fuse_talk.specs.declared.fault.TalkFault.TheVariants.{Memory};

    ghost from_gives = { λ _ fault. fault ≡ Memory };

    fn from(_: AllocError) -> TalkFault {
        TalkFault::Memory
    }
}

impl From<FormatFault> for TalkFault {
    ghost use Rattle.std.specs.Prelude.{◌≡◌};
    ghost use Rattle.lfs_fuse_talk.specs.declared.fault.TalkFault.TheVariants.{Format};

    ghost from_gives = { λ fault talk. talk ≡ Format fault };

    fn from(fault: FormatFault) -> TalkFault {
        TalkFault::Format(fault)
    }
}

impl From<OpenFault> for TalkFault {
    ghost use Rattle.std.specs.Prelude.{◌≡◌};
    ghost use Rattle.lfs_fuse_talk.specs.declared.fault.TalkFault.TheVariants.{Open};

    ghost from_gives = { λ fault talk. talk ≡ Open fault };

    fn from(fault: OpenFault) -> TalkFault {
        TalkFault::Open(fault)
    }
}
