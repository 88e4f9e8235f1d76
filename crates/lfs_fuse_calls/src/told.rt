//! What a kernel is told of a message.

ghost use Rattle.std.specs.Prelude.{◌≡◌, ◌++◌, OnOk};
ghost use Rattle.lfs_fuse_calls.specs.Told.{bytes_told, told_bytes};

use lfs_fuse_reply::attr::{Attr, Entry};
use lfs_fuse_reply::errno::Errno;
use lfs_fuse_reply::reply::{InitReply, Opened, Reply, Statfs};
use std::alloc::AllocError;

/// What a kernel is told of a message. None of it may be kept.
#[derive(Drop)]
pub enum Told {
    /// An error.
    Error(Errno),
    /// It is done.
    Done,
    /// An entry that was found or made.
    Entry(Entry),
    /// Attributes.
    Attr(Attr),
    /// What was opened.
    Open(Opened),
    /// A file that was made and opened.
    Create(Entry, Opened),
    /// How many bytes were written.
    Written(u32),
    /// Bytes of a file, or entries of a directory.
    Bytes(Vec<u8>),
    /// The volume's room.
    Statfs(Statfs),
    /// What is taken up of the kernel's offer.
    Init(InitReply),
    /// A control call that tells nothing is done.
    Ioctl,
    /// A file's flags, as FS_IOC_GETFLAGS tells them.
    Flags(u32),
    /// A file's flags, as FS_IOC_FSGETXATTR tells them.
    Extended(u32),
}

/// From so many bytes on a reply is too long to be told.
const TOO_LONG: usize = 0x8000_0000;

impl Told {
    /// Adds the reply to the message of this number. Bytes whose length can't be told are EIO.
    pub fn append(&self, out: &mut Vec<u8>, unique: u64) -> Result<(), AllocError>
        ensures { OnOk result (out.new.items ≡ out.old.items ++ told_bytes unique self.now) }
    {
        match self {
            Told::Bytes(bytes) => append_bytes(bytes.as_slice(), out, unique),
            Told::Error(errno) => Reply::Error(*errno).append(out, unique),
            Told::Done => Reply::Done.append(out, unique),
            Told::Entry(entry) => Reply::Entry(*entry).append(out, unique),
            Told::Attr(attr) => Reply::Attr(*attr).append(out, unique),
            Told::Open(opened) => Reply::Open(*opened).append(out, unique),
            Told::Create(entry, opened) => Reply::Create(*entry, *opened).append(out, unique),
            Told::Written(count) => Reply::Written(*count).append(out, unique),
            Told::Statfs(statfs) => Reply::Statfs(*statfs).append(out, unique),
            Told::Init(init) => Reply::Init(*init).append(out, unique),
            Told::Ioctl => Reply::Ioctl.append(out, unique),
            Told::Flags(flags) => Reply::Flags(*flags).append(out, unique),
            Told::Extended(flags) => Reply::Extended(*flags).append(out, unique),
        }
    }
}

/// Adds a reply of bytes.
fn append_bytes(bytes: &[u8], out: &mut Vec<u8>, unique: u64) -> Result<(), AllocError>
    ensures { OnOk result (out.new.items ≡ out.old.items ++ bytes_told unique bytes.now) }
{
    if bytes.len() >= TOO_LONG {
        return Reply::Error(Errno::EIO).append(out, unique);
    }
    Reply::Bytes(bytes).append(out, unique)
}
