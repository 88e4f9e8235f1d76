//! Messages: what a kernel asks, read from the bytes that it sends.

ghost use Rattle.std.specs.Prelude.{◌≡◌, ◌≤◌, MatchOption, MatchResult, None, Some, length};
ghost use Rattle.std.specs.Option.{option_map};
ghost use Rattle.lfs_fuse_wire.specs.declared.opcode.Opcode.TheVariants as kind;
ghost use Rattle.lfs_fuse_wire.specs.Said.{has_reply, said, said_in, said_unread, said_whole};
ghost use Rattle.lfs_fuse_wire.specs.Views.{view};
ghost use Rattle.lfs_fuse_wire.specs.Header.{bad_message, message_in};

use crate::attributes::{Access, GetAttr, SetAttr};
use crate::forgetting::{Forget, Forgets};
use crate::handles::{Flush, Fsync, Open, Read, Release, Write};
use crate::header::{HEADER_SIZE, Header};
use crate::init::Init;
use crate::ioctl::{Command, Fields, Ioctl};
use crate::names::{behind, first_bytes, split_name, two_names};
use crate::naming::{Create, Mkdir, Mknod, Rename};
use crate::numbers::{long_at, word_at};
use crate::opcode::{Opcode, Unserved};

/// What a message asks of the node of its header, or of the directory that the node is. Names and data are the
/// message's own bytes; a name holds any byte but zero.
#[derive(Clone, Copy, PartialEq, Eq, Debug)]
pub enum Message<'a> {
    /// The talk begins.
    Init(Init),
    /// The talk ends.
    Destroy,
    /// The entry of this name.
    Lookup(&'a [u8]),
    /// The node is forgotten, with no reply.
    Forget(Forget),
    /// These nodes are forgotten, with no reply.
    BatchForget(Forgets<'a>),
    /// The message of this number need not be answered in full. No reply.
    Interrupt(u64),
    /// The attributes.
    GetAttr(GetAttr),
    /// Other attributes.
    SetAttr(SetAttr),
    /// Whether a user may use the node.
    Access(Access),
    /// A new file of this name.
    Mknod(Mknod, &'a [u8]),
    /// A new directory of this name.
    Mkdir(Mkdir, &'a [u8]),
    /// A file of this name, made where there is none, and opened.
    Create(Create, &'a [u8]),
    /// The file of this name is to go.
    Unlink(&'a [u8]),
    /// The directory of this name is to go.
    Rmdir(&'a [u8]),
    /// The entry of the first name is to be moved to the second.
    Rename(Rename, &'a [u8], &'a [u8]),
    /// An open file.
    Open(Open),
    /// Bytes of a file.
    Read(Read),
    /// These bytes are to be written.
    Write(Write, &'a [u8]),
    /// A descriptor of the file was closed.
    Flush(Flush),
    /// A file's handle is given back.
    Release(Release),
    /// A file is to be safe.
    Fsync(Fsync),
    /// An open directory.
    Opendir(Open),
    /// Entries of a directory.
    Readdir(Read),
    /// Entries of a directory, each with its attributes.
    Readdirplus(Read),
    /// A directory's handle is given back.
    Releasedir(Release),
    /// A directory is to be safe.
    Fsyncdir(Fsync),
    /// The room of the volume.
    Statfs,
    /// A control call.
    Ioctl(Ioctl),
    /// Something of which nothing but the kind is read.
    Unserved(Unserved),
    /// Something else, by its number.
    Unknown(u32),
}

/// Why bytes are no message.
#[derive(Clone, Copy, PartialEq, Eq, Debug)]
pub enum MessageFault {
    /// They are fewer than a header, or than their header tells; or it tells fewer than its own.
    Cut,
    /// The message lacks some of its fields, the end of a name, or data that its fields tell.
    Short,
}

impl<'a> Message<'a> {
    /// The message at the front of the bytes. No byte behind it is read.
    pub fn decode(bytes: &'a [u8]) -> Result<Message<'a>, MessageFault>
        ensures { MatchResult result
            (λ message. said bytes.now ≡ Some (view message))
            (λ bad. (said bytes.now ≡ None) × (bad ≡ bad_message bytes.now)) }
    {
        let Some(message) = first_message(bytes) else {
            return Err(MessageFault::Cut);
        };
        match whole(message) {
            Some(message) => Ok(message),
            None => Err(MessageFault::Short),
        }
    }

    /// Whether the kernel waits for a reply.
    pub fn has_reply(&self) -> bool
        ensures { result ≡ has_reply (view self.now) }
    {
        match self {
            Message::Forget(_) | Message::BatchForget(_) | Message::Interrupt(_) => false,
            Message::Unserved(Unserved::NotifyReply) => false,
            _ => true,
        }
    }
}

/// The bytes of the message that stands at the front, as many as its header tells.
fn first_message<'a>(bytes: &'a [u8]) -> Option<&'a [u8]>
    ensures { MatchOption result
        (message_in bytes.now ≡ None)
        (λ message. (message_in bytes.now ≡ Some message.now) × (HEADER_SIZE ≤ length message.now)) }
{
    let header = Header::decode(bytes)?;
    let length = header.length as usize;
    if length < HEADER_SIZE {
        return None;
    }
    first_bytes(bytes, length)
}

/// The message that these bytes are, all of them.
fn whole<'a>(bytes: &'a [u8]) -> Option<Message<'a>>
    requires { HEADER_SIZE ≤ length bytes.now }
    ensures { option_map view result ≡ said_whole bytes.now }
{
    let number = word_at(bytes, 4);
    match Opcode::of(number) {
        Some(opcode) => body(opcode, behind(bytes, HEADER_SIZE)),
        None => Some(unread(number)),
    }
}

/// A message of which nothing but the kind is read.
fn unread<'a>(number: u32) -> Message<'a>
    ensures { view result ≡ said_unread number }
{
    match Unserved::of(number) {
        Some(kind) => Message::Unserved(kind),
        None => Message::Unknown(number),
    }
}

/// The message of this kind that the bytes behind a header are.
#[tactic(auto, unfolding(crate::specs::Said::said_in))]
fn body<'a>(opcode: Opcode, bytes: &'a [u8]) -> Option<Message<'a>>
    ensures { option_map view result ≡ said_in opcode bytes.now }
{
    match opcode {
        Opcode::Lookup => Some(Message::Lookup(split_name(bytes)?.0)),
        Opcode::Forget => Some(Message::Forget(Forget::decode(bytes)?)),
        Opcode::GetAttr => Some(Message::GetAttr(GetAttr::decode(bytes)?)),
        Opcode::SetAttr => Some(Message::SetAttr(SetAttr::decode(bytes)?)),
        Opcode::Mknod => mknod(bytes),
        Opcode::Mkdir => mkdir(bytes),
        Opcode::Unlink => Some(Message::Unlink(split_name(bytes)?.0)),
        Opcode::Rmdir => Some(Message::Rmdir(split_name(bytes)?.0)),
        Opcode::Rename => rename(bytes),
        Opcode::Open => Some(Message::Open(Open::decode(bytes)?)),
        Opcode::Read => Some(Message::Read(Read::decode(bytes)?)),
        Opcode::Write => write(bytes),
        Opcode::Statfs => Some(Message::Statfs),
        Opcode::Release => Some(Message::Release(Release::decode(bytes)?)),
        Opcode::Fsync => Some(Message::Fsync(Fsync::decode(bytes)?)),
        Opcode::Flush => Some(Message::Flush(Flush::decode(bytes)?)),
        Opcode::Init => Some(Message::Init(Init::decode(bytes)?)),
        Opcode::Opendir => Some(Message::Opendir(Open::decode(bytes)?)),
        Opcode::Readdir => Some(Message::Readdir(Read::decode(bytes)?)),
        Opcode::Releasedir => Some(Message::Releasedir(Release::decode(bytes)?)),
        Opcode::Fsyncdir => Some(Message::Fsyncdir(Fsync::decode(bytes)?)),
        Opcode::Access => Some(Message::Access(Access::decode(bytes)?)),
        Opcode::Create => create(bytes),
        Opcode::Interrupt => interrupt(bytes),
        Opcode::Destroy => Some(Message::Destroy),
        Opcode::Ioctl => ioctl(bytes),
        Opcode::BatchForget => batch_forget(bytes),
        Opcode::Readdirplus => Some(Message::Readdirplus(Read::decode(bytes)?)),
        Opcode::Rename2 => rename_with_flags(bytes),
    }
}

/// How many nodes, then the nodes, 16 bytes each.
#[tactic(auto, unfolding(crate::specs::Said::said_in))]
fn batch_forget<'a>(bytes: &'a [u8]) -> Option<Message<'a>>
    ensures { option_map view result ≡ said_in kind.BatchForget bytes.now }
{
    if bytes.len() < 8 {
        return None;
    }
    let size = 16 * word_at(bytes, 0) as usize;
    let bytes = first_bytes(behind(bytes, 8), size)?;
    Some(Message::BatchForget(Forgets { bytes }))
}

/// The number of another message.
#[tactic(auto, unfolding(crate::specs::Said::said_in))]
fn interrupt<'a>(bytes: &'a [u8]) -> Option<Message<'a>>
    ensures { option_map view result ≡ said_in kind.Interrupt bytes.now }
{
    if bytes.len() < 8 {
        return None;
    }
    Some(Message::Interrupt(long_at(bytes, 0)))
}

/// A new file's fields, then its name.
#[tactic(auto, unfolding(crate::specs::Said::said_in))]
fn mknod<'a>(bytes: &'a [u8]) -> Option<Message<'a>>
    ensures { option_map view result ≡ said_in kind.Mknod bytes.now }
{
    let fields = Mknod::decode(bytes)?;
    let (name, _) = split_name(behind(bytes, 16))?;
    Some(Message::Mknod(fields, name))
}

/// A new directory's fields, then its name.
#[tactic(auto, unfolding(crate::specs::Said::said_in))]
fn mkdir<'a>(bytes: &'a [u8]) -> Option<Message<'a>>
    ensures { option_map view result ≡ said_in kind.Mkdir bytes.now }
{
    let fields = Mkdir::decode(bytes)?;
    let (name, _) = split_name(behind(bytes, 8))?;
    Some(Message::Mkdir(fields, name))
}

/// A new file's fields, then its name.
#[tactic(auto, unfolding(crate::specs::Said::said_in))]
fn create<'a>(bytes: &'a [u8]) -> Option<Message<'a>>
    ensures { option_map view result ≡ said_in kind.Create bytes.now }
{
    let fields = Create::decode(bytes)?;
    let (name, _) = split_name(behind(bytes, 16))?;
    Some(Message::Create(fields, name))
}

/// Where an entry is moved, then its name and its new name.
#[tactic(auto, unfolding(crate::specs::Said::said_in))]
fn rename<'a>(bytes: &'a [u8]) -> Option<Message<'a>>
    ensures { option_map view result ≡ said_in kind.Rename bytes.now }
{
    let fields = Rename::decode(bytes)?;
    let (name, new_name) = two_names(behind(bytes, 8))?;
    Some(Message::Rename(fields, name, new_name))
}

/// The same, with flags before the names.
#[tactic(auto, unfolding(crate::specs::Said::said_in))]
fn rename_with_flags<'a>(bytes: &'a [u8]) -> Option<Message<'a>>
    ensures { option_map view result ≡ said_in kind.Rename2 bytes.now }
{
    let fields = Rename::decode_with_flags(bytes)?;
    let (name, new_name) = two_names(behind(bytes, 16))?;
    Some(Message::Rename(fields, name, new_name))
}

/// Where bytes go, then the bytes, as many as the fields say; what may stand behind them is not read.
#[tactic(auto, unfolding(crate::specs::Said::said_in))]
fn write<'a>(bytes: &'a [u8]) -> Option<Message<'a>>
    ensures { option_map view result ≡ said_in kind.Write bytes.now }
{
    let fields = Write::decode(bytes)?;
    let data = first_bytes(behind(bytes, 40), fields.size as usize)?;
    Some(Message::Write(fields, data))
}

/// A control call's fields, then the bytes that it carries.
#[tactic(auto, unfolding(crate::specs::Said::said_in))]
fn ioctl<'a>(bytes: &'a [u8]) -> Option<Message<'a>>
    ensures { option_map view result ≡ said_in kind.Ioctl bytes.now }
{
    let fields = Fields::decode(bytes)?;
    let data = first_bytes(behind(bytes, 32), fields.in_size as usize)?;
    Some(Message::Ioctl(Ioctl {
        handle: fields.handle,
        directory: fields.directory,
        command: Command::of(fields.number, data),
        out_size: fields.out_size,
    }))
}
