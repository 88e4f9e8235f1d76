//! What a kernel is told of answers.

ghost use Rattle.std.specs.Prelude.{◌≡◌, ◌*◌, ◌≤◌, min, length, option_copied};
ghost use Rattle.lfs_fuse_calls.specs.Telling.{TellsBytes, access_to, access_told, attr_told, count_served, is_granted, is_runnable, may_run, opened_told, refusal_at_once, refusal_in, run_told, seen_in, written_by, named_in, refusal_told};
ghost use Rattle.lfs_fuse_wire.specs.Views.{view};
ghost use Rattle.lfs_fuse_calls.specs.Shown.{all_bytes};

use crate::attr::attr;
use crate::errors::refusal;
use crate::shown::{all_bytes, is_served};
use crate::told::Told;
use lfs_fuse_reply::errno::Errno;
use lfs_fuse_reply::reply::Opened;
use lfs_fuse_wire::attributes::Access;
use lfs_fuse_wire::flags::OpenFlags;
use lfs_fuse_wire::message::Message;
use lfs_rules::access::grants;
use lfs_rules::flags::immutable;
use lfs_types::answer::{Answer, Served};
use lfs_types::attrs::{Attrs, Bit};
use lfs_types::cred::Cred;
use lfs_types::mode::Mode;
use std::alloc::Global;

/// A file's handle tells nothing apart, as each read and write names its file.
pub const OPENED_FILE: Opened = Opened {
    handle: 0,
    direct_io: true,
};

/// What a Stat shows.
#[derive(Clone, Copy)]
pub struct Seen {
    /// The inode number.
    pub number: u32,
    /// The attributes.
    pub attrs: Attrs,
}

/// What the first of the Stats among answers shows.
pub fn seen_in(answers: &[Answer]) -> Option<Seen>
    ensures { result ≡ seen_in answers.now }
{
    let mut rest = answers;
    while let Some((first, behind)) = rest.split_first() {
        if let Answer::Served(Served::Stat(number, attrs)) = first {
            return Some(Seen {
                number: *number,
                attrs: *attrs,
            });
        }
        rest = behind;
    }
    None
}

/// The error of the first answer that isn't served.
pub fn refusal_in(answers: &[Answer]) -> Option<Errno>
    ensures { result ≡ refusal_in answers.now }
{
    let mut rest = answers;
    while let Some((first, behind)) = rest.split_first() {
        if let Some(errno) = refusal(first) {
            return Some(errno);
        }
        rest = behind;
    }
    None
}

/// The error of the first answer, if that isn't served.
pub fn refusal_at_once(answers: &[Answer]) -> Option<Errno>
    ensures { result ≡ refusal_at_once answers.now }
{
    match answers.split_first() {
        Some((first, _)) => refusal(first),
        None => None,
    }
}

/// How many answers are served, counted up to 32.
fn count_served(answers: &[Answer]) -> usize
    ensures count { result ≡ min 32 (count_served answers.now) }
    ensures few { result ≤ 32 }
{
    let mut count = 0;
    let mut rest = answers;
    while let Some((first, behind)) = rest.split_first() {
        if is_served(first) && count < 32 {
            count += 1;
        }
        rest = behind;
    }
    count
}

/// How many of so many bytes were written.
pub fn written_by(size: usize, answers: &[Answer]) -> u32
    ensures { result ≡ written_by size answers.now }
{
    (4_096 * count_served(answers)).min(size) as u32
}

/// Whether a mode lets somebody run a file.
fn is_runnable(mode: Mode) -> bool
    ensures { result ≡ is_runnable mode }
{
    mode.bits() & 0o111 != 0
}

/// Whether a caller may run a file, or search a directory: a file that nobody may run not even the superuser (execve(2)).
fn may_run(cred: &Cred, attrs: &Attrs) -> bool
    ensures { result ≡ may_run cred.now attrs.now }
{
    grants(attrs, cred, Bit::Search) && (attrs.kind.is_directory() || is_runnable(attrs.mode))
}

/// Whether a mode grants what is asked.
fn is_granted(cred: &Cred, wanted: &Access, attrs: &Attrs) -> bool
    ensures { result ≡ is_granted cred.now wanted.now attrs.now }
{
    (!wanted.read || grants(attrs, cred, Bit::Read))
        && (!wanted.write || grants(attrs, cred, Bit::Write))
        && (!wanted.execute || may_run(cred, attrs))
}

/// Whether a user may do what he asks with a file of these attributes, as access(2) tells it: nobody writes what is immutable.
fn access_to(cred: &Cred, wanted: &Access, attrs: &Attrs) -> Told
    ensures { result ≡ access_to cred.now wanted.now attrs.now }
{
    if wanted.write && immutable(attrs) {
        return Told::Error(Errno::EPERM);
    }
    if is_granted(cred, wanted, attrs) {
        Told::Done
    } else {
        Told::Error(Errno::EACCES)
    }
}

/// Whether a user may do what he asks, by what a Stat shows.
pub fn access_told(cred: &Cred, wanted: &Access, answers: &[Answer]) -> Told
    ensures { result ≡ access_told cred.now wanted.now (seen_in answers.now) }
{
    match seen_in(answers) {
        Some(seen) => access_to(cred, wanted, &seen.attrs),
        None => Told::Error(Errno::EIO),
    }
}

/// What a caller is told of a file that he opened to run it, by what a Stat shows.
fn run_told(cred: &Cred, answers: &[Answer]) -> Told
    ensures { result ≡ run_told cred.now (seen_in answers.now) }
{
    match seen_in(answers) {
        Some(seen) => {
            if may_run(cred, &seen.attrs) {
                Told::Open(OPENED_FILE)
            } else {
                Told::Error(Errno::EACCES)
            }
        }
        None => Told::Error(Errno::EIO),
    }
}

/// What a caller is told of a file that he opened: one that is to be run may be run by him.
pub fn opened_told(cred: &Cred, flags: &OpenFlags, answers: &[Answer]) -> Told
    ensures { result ≡ opened_told cred.now flags.now (seen_in answers.now) }
{
    if flags.exec {
        run_told(cred, answers)
    } else {
        Told::Open(OPENED_FILE)
    }
}

/// The attributes that a Stat shows.
pub fn attr_told(answers: &[Answer]) -> Told
    ensures { result ≡ attr_told (seen_in answers.now) }
{
    match seen_in(answers) {
        Some(seen) => Told::Attr(attr(seen.number, &seen.attrs)),
        None => Told::Error(Errno::EIO),
    }
}

/// The bytes that Reads show, one behind the other.
pub fn bytes_told(alloc: Global, answers: &[Answer]) -> Told
    ensures { TellsBytes (all_bytes answers.now) result }
{
    match all_bytes(alloc, answers) {
        Ok(bytes) => Told::Bytes(bytes),
        Err(_) => Told::Error(Errno::ENOMEM),
    }
}

/// The name that a message tells, in the directory that its node is.
pub fn named_in<'m>(message: &Message<'m>) -> Option<&'m [u8]>
    ensures { option_copied result ≡ named_in (view message.now) }
{
    match message {
        Message::Lookup(name) | Message::Unlink(name) | Message::Rmdir(name) => Some(*name),
        Message::Mknod(_, name) => Some(*name),
        Message::Mkdir(_, name) => Some(*name),
        Message::Create(_, name) => Some(*name),
        _ => None,
    }
}

/// The error that is told of answers: the first refusal; of reads and writes in pieces the first piece's alone.
pub fn refusal_told(message: &Message<'_>, answers: &[Answer]) -> Option<Errno>
    ensures { result ≡ refusal_told (view message.now) answers.now }
{
    match message {
        Message::Read(_) | Message::Write(_, _) => refusal_at_once(answers),
        _ => refusal_in(answers),
    }
}
