//! Control calls: the flags that chattr(1) sets and lsattr(1) shows.

ghost use Rattle.std.specs.Prelude.{◌≡◌, ◌+◌, ◌≤◌, IfSome};
ghost use Rattle.lfs_mount.specs.Flags.{flags_shown, flags_wanted, has, number_if, user_flags};
ghost use Rattle.lfs_mount.specs.Handled.{
  GoesOnFlags,
  IsFlagged,
  IsFlagsSet,
  SaysFlagged,
  hangs_in,
};

use crate::node_tree::NodeTree;
use lfs_fuse_calls::paths::path_of;
use lfs_fuse_calls::telling::{refusal_in, seen_in};
use lfs_fuse_calls::told::Told;
use lfs_fuse_reply::errno::Errno;
use lfs_fuse_wire::ioctl::{Command, Ioctl};
use lfs_fuse_wire::message::Message;
use lfs_opens::head::Head;
use lfs_types::answer::Answer;
use lfs_types::file_flags::{FileFlags, FlagBits};
use lfs_types::request::Request;
use lfs_types::store::FileStore;
use std::alloc::Global;

/// The flags of the volume that make a file immutable, and those that let it only grow.
const IMMUTABLE: FlagBits = FlagBits(0x2_0002);

const APPEND: FlagBits = FlagBits(0x4_0004);

/// The flag by which dump(8) leaves a file out.
const NODUMP: FlagBits = FlagBits(0x1);

/// The number, or 0.
fn number_if(set: bool, number: u32) -> u32
    ensures { result ≡ number_if set number }
{
    if set { number } else { 0 }
}

/// The three flags, in bits of a control call.
fn flags_shown(flags: FileFlags, immutable: u32, append: u32, nodump: u32) -> u32
    requires { immutable + append + nodump ≤ 255 }
    ensures { result ≡ flags_shown flags immutable append nodump }
{
    number_if(flags.intersects(IMMUTABLE), immutable)
        + number_if(flags.intersects(APPEND), append)
        + number_if(flags.intersects(NODUMP), nodump)
}

/// Whether all of some bits are set.
fn has(bits: u32, mask: u32) -> bool
    ensures { result ≡ has bits mask }
{
    bits & mask == mask
}

/// The user's flags that bits of FS_IOC_SETFLAGS ask for.
fn user_flags(bits: u32) -> u32
    ensures flags { result ≡ user_flags bits }
    ensures few { result ≤ 7 }
{
    number_if(has(bits, 0x40), 1) + number_if(has(bits, 0x10), 2) + number_if(has(bits, 0x20), 4)
}

/// The flags that a file has, with the user's flags as bits of FS_IOC_SETFLAGS ask; none where
/// other bits are set.
fn flags_wanted(present: FileFlags, bits: u32) -> Option<FileFlags>
    ensures { IfSome result (λ flags. flags ≡ flags_wanted present bits) }
{
    if !has(0x70, bits) {
        return None;
    }
    FileFlags::new(present.bits() / 8 * 8 + user_flags(bits))
}

/// What a control call that shows nothing is told as.
fn flagged_told(answers: &[Answer]) -> Told
    ensures { SaysFlagged result answers.now }
{
    match refusal_in(answers) {
        Some(errno) => Told::Error(errno),
        None => Told::Ioctl,
    }
}

impl<F: FileStore + Drop> NodeTree<F> {
    /// Sets the flags of a node, which are these at present.
    fn set_flags(&mut self, alloc: Global, head: &Head, present: FileFlags, bits: u32) -> Told
        ensures told { IsFlagsSet F.state F.is_flushed head.now.cred
            (hangs_in self.old.nodes) head.now.node bits
            result self.old.volume self.new.volume present }
        ensures nodes { self.new.nodes ≡ self.old.nodes }
    {
        let Some(flags) = flags_wanted(present, bits) else {
            return Told::Error(Errno::EOPNOTSUPP);
        };
        let path = match path_of(alloc, &self.nodes, head.node, None) {
            Ok(path) => path,
            Err(errno) => return Told::Error(errno),
        };
        match self.one(alloc, &head.cred, Request::Chflags { path, flags }) {
            Ok(answers) => flagged_told(answers.as_slice()),
            Err(errno) => Told::Error(errno),
        }
    }

    /// What a control call asks of flags that are these.
    fn flags_told(
        &mut self,
        alloc: Global,
        head: &Head,
        command: Command,
        present: FileFlags,
    ) -> Told
        ensures told { GoesOnFlags F.state F.is_flushed head.now.cred
            (hangs_in self.old.nodes) head.now.node command
            result self.old.volume self.new.volume present }
        ensures nodes { self.new.nodes ≡ self.old.nodes }
    {
        match command {
            Command::GetFlags => Told::Flags(flags_shown(present, 0x10, 0x20, 0x40)),
            Command::GetExtended => Told::Extended(flags_shown(present, 0x8, 0x10, 0x80)),
            Command::SetFlags(bits) => self.set_flags(alloc, head, present, bits),
            Command::Other(_) => Told::Error(Errno::ENOTTY),
        }
    }

    /// Answers a control call, behind a look at the flags that there are.
    pub(crate) fn flagged(&mut self, alloc: Global, head: &Head, fields: &Ioctl) -> Told
        ensures told { IsFlagged F.state F.is_flushed head.now.cred
            (hangs_in self.old.nodes) head.now.node fields.now
            result self.old.volume self.new.volume }
        ensures nodes { self.new.nodes ≡ self.old.nodes }
    {
        let message = Message::Ioctl(*fields);
        let answers = match self.calls(alloc, head, &message) {
            Ok(answers) => answers,
            Err(errno) => return Told::Error(errno),
        };
        if let Some(errno) = refusal_in(answers.as_slice()) {
            return Told::Error(errno);
        }
        match seen_in(answers.as_slice()) {
            Some(seen) => self.flags_told(alloc, head, fields.command, seen.attrs.flags),
            None => Told::Error(Errno::EIO),
        }
    }
}
