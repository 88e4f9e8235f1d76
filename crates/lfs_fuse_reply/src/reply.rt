//! Replies: what a kernel is told, added to bytes that go to it.
//!
//! Where memory runs out in the midst, the bytes end within the reply: whoever called drops them.

ghost use Rattle.std.specs.Prelude.{◌≡◌, ◌+◌, ◌++◌, ◌<◌, ◌≤◌, ◌^◌, length, OnOk};
ghost use Rattle.lfs_fuse_reply.specs.Replies.{
  IsShort,
  attr_body,
  body_of,
  create_body,
  error_of,
  head_bytes,
  init_body,
  open_body,
  reply_bytes,
  statfs_body,
  told_length,
};

use crate::attr::{Attr, Entry, push_attr, push_entry};
use crate::errno::Errno;
use crate::writing::{push_half, push_long, push_longs, push_word, push_words};
use lfs_fuse_wire::init::InitFlags;
use std::alloc::AllocError;

/// The number of bytes before a reply's own (the FUSE protocol's fuse.h).
pub const REPLY_HEAD_SIZE: u32 = 16;

/// The kernel keeps no pages of the file: each read and write is a message.
const FOPEN_DIRECT_IO: u32 = 1 << 0;

/// What was opened. The kernel is never told to keep pages or entries.
#[derive(Clone, Copy, PartialEq, Eq, Debug)]
pub struct Opened {
    /// The handle, by which later messages call it.
    pub handle: u64,
    /// Each read and write of the file is a message; not said of a directory.
    pub direct_io: bool,
}

/// What the server takes up of the kernel's offer.
#[derive(Clone, Copy, PartialEq, Eq, Debug)]
pub struct InitReply {
    /// The version's first number.
    pub major: u32,
    /// The version's second number.
    pub minor: u32,
    /// The most bytes that are read ahead.
    pub max_readahead: u32,
    /// What is taken up.
    pub flags: InitFlags,
    /// The most messages that the kernel sends on its own account at once.
    pub max_background: u16,
    /// From how many of these on it holds back.
    pub congestion_threshold: u16,
    /// The most bytes of a write.
    pub max_write: u32,
    /// The step of times, in nanoseconds.
    pub time_granularity: u32,
    /// The most pages of a message.
    pub max_pages: u16,
}

/// The room of a volume (statfs(2)).
#[derive(Clone, Copy, PartialEq, Eq, Debug)]
pub struct Statfs {
    /// The blocks in all.
    pub blocks: u64,
    /// Those that are free.
    pub free_blocks: u64,
    /// Those of them that anybody may fill.
    pub available_blocks: u64,
    /// The files and directories that there may be.
    pub files: u64,
    /// How many more there may be.
    pub free_files: u64,
    /// The bytes of a block.
    pub block_size: u32,
    /// The most bytes of a name.
    pub max_name: u32,
}

/// What a kernel is told. FORGET, BATCH_FORGET, INTERRUPT and NOTIFY_REPLY have no reply.
#[derive(Clone, Copy)]
pub enum Reply<'a> {
    /// An error, and nothing else.
    Error(Errno),
    /// It is done, and there is nothing to tell.
    Done,
    /// The entry that was found or made (LOOKUP, MKNOD, MKDIR).
    Entry(Entry),
    /// Attributes, which the kernel does not keep (GETATTR, SETATTR).
    Attr(Attr),
    /// What was opened (OPEN, OPENDIR).
    Open(Opened),
    /// A file that was made and opened (CREATE).
    Create(Entry, Opened),
    /// How many bytes were written (WRITE).
    Written(u32),
    /// Bytes of a file, or entries of a directory (READ, READDIR, READDIRPLUS).
    Bytes(&'a [u8]),
    /// The volume's room (STATFS).
    Statfs(Statfs),
    /// What is taken up of the kernel's offer (INIT).
    Init(InitReply),
    /// A control call that tells nothing is done (IOCTL).
    Ioctl,
    /// A file's flags, as FS_IOC_GETFLAGS tells them (IOCTL).
    Flags(u32),
    /// A file's flags, as FS_IOC_FSGETXATTR tells them (IOCTL).
    Extended(u32),
}

impl Reply<'_> {
    /// Adds the reply to the message of this number.
    #[tactic(auto, using(crate::proofs::Lengths::reply_length))]
    pub fn append(&self, out: &mut Vec<u8>, unique: u64) -> Result<(), AllocError>
        requires { IsShort self.now }
        ensures bytes { OnOk result (out.new.items ≡ out.old.items ++ reply_bytes unique self.now) }
        ensures told { length (reply_bytes unique self.now) ≡ told_length self.now }
    {
        let size = REPLY_HEAD_SIZE + self.body_size();
        push_head(out, size, self.error(), unique)?;
        self.push_body(out)
    }

    /// The number of bytes behind the head.
    fn body_size(&self) -> u32
        requires { IsShort self.now }
        ensures size { result ≡ length (body_of self.now) }
        ensures bound { result < 2 ^ 31 }
    {
        match self {
            Reply::Error(_) | Reply::Done => 0,
            Reply::Entry(_) => 128,
            Reply::Attr(_) => 104,
            Reply::Open(_) => 16,
            Reply::Create(_, _) => 144,
            Reply::Written(_) => 8,
            Reply::Bytes(bytes) => bytes.len() as u32,
            Reply::Statfs(_) => 80,
            Reply::Init(_) => 64,
            Reply::Ioctl => 16,
            Reply::Flags(_) => 20,
            Reply::Extended(_) => 44,
        }
    }

    /// The error's number, and 0 for none.
    fn error(&self) -> u8
        ensures { result ≡ error_of self.now }
    {
        match self {
            Reply::Error(errno) => errno.number(),
            _ => 0,
        }
    }

    /// Adds what stands behind the head.
    fn push_body(&self, out: &mut Vec<u8>) -> Result<(), AllocError>
        ensures { OnOk result (out.new.items ≡ out.old.items ++ body_of self.now) }
    {
        match self {
            Reply::Error(_) | Reply::Done => Ok(()),
            Reply::Entry(entry) => push_entry(out, entry),
            Reply::Attr(attr) => push_attr_body(out, attr),
            Reply::Open(opened) => push_opened(out, opened),
            Reply::Create(entry, opened) => push_created(out, entry, opened),
            Reply::Written(count) => push_words(out, &[*count, 0]),
            Reply::Bytes(bytes) => out.extend_from_slice(bytes),
            Reply::Statfs(statfs) => push_statfs(out, statfs),
            Reply::Init(init) => push_init(out, init),
            Reply::Ioctl => push_words(out, &[0; 4]),
            Reply::Flags(flags) => push_words(out, &[0, 0, 0, 0, *flags]),
            Reply::Extended(flags) => push_words(out, &[0, 0, 0, 0, *flags, 0, 0, 0, 0, 0, 0]),
        }
    }
}

/// Adds the 16 bytes before a reply's own: the length of the whole, the error below zero, and the number of the message
/// that it answers.
fn push_head(out: &mut Vec<u8>, length: u32, error: u8, unique: u64) -> Result<(), AllocError>
    ensures { OnOk result (out.new.items ≡ out.old.items ++ head_bytes length error unique) }
{
    push_word(out, length)?;
    push_word(out, 0u32.wrapping_sub(u32::from(error)))?;
    push_long(out, unique)
}

/// Adds attributes, which are kept for no time.
fn push_attr_body(out: &mut Vec<u8>, attr: &Attr) -> Result<(), AllocError>
    ensures { OnOk result (out.new.items ≡ out.old.items ++ attr_body attr.now) }
{
    push_longs(out, &[0])?;
    push_words(out, &[0, 0])?;
    push_attr(out, attr)
}

/// Adds a handle, and how its file is served.
fn push_opened(out: &mut Vec<u8>, opened: &Opened) -> Result<(), AllocError>
    ensures { OnOk result (out.new.items ≡ out.old.items ++ open_body opened.now) }
{
    push_long(out, opened.handle)?;
    let flags = if opened.direct_io { FOPEN_DIRECT_IO } else { 0 };
    push_words(out, &[flags, 0])
}

/// Adds an entry, then its handle.
fn push_created(out: &mut Vec<u8>, entry: &Entry, opened: &Opened) -> Result<(), AllocError>
    ensures { OnOk result (out.new.items ≡ out.old.items ++ create_body entry.now opened.now) }
{
    push_entry(out, entry)?;
    push_opened(out, opened)
}

/// Adds a volume's room.
fn push_statfs(out: &mut Vec<u8>, statfs: &Statfs) -> Result<(), AllocError>
    ensures { OnOk result (out.new.items ≡ out.old.items ++ statfs_body statfs.now) }
{
    push_longs(
        out,
        &[statfs.blocks, statfs.free_blocks, statfs.available_blocks],
    )?;
    push_longs(out, &[statfs.files, statfs.free_files])?;
    push_words(
        out,
        &[statfs.block_size, statfs.max_name, statfs.block_size, 0],
    )?;
    push_words(out, &[0; 6])
}

/// Adds what is taken up of the kernel's offer.
fn push_init(out: &mut Vec<u8>, init: &InitReply) -> Result<(), AllocError>
    ensures { OnOk result (out.new.items ≡ out.old.items ++ init_body init.now) }
{
    let low = (init.flags.0 % 0x1_0000_0000) as u32;
    let high = (init.flags.0 / 0x1_0000_0000) as u32;
    push_words(out, &[init.major, init.minor, init.max_readahead, low])?;
    push_half(out, init.max_background)?;
    push_half(out, init.congestion_threshold)?;
    push_words(out, &[init.max_write, init.time_granularity])?;
    push_half(out, init.max_pages)?;
    push_half(out, 0)?;
    push_word(out, high)?;
    push_words(out, &[0; 7])
}
