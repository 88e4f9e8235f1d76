//! The groups of a process: the kernel tells one in a message, and the others in the status of the process.

ghost use Rattle.std.specs.Prelude.{◌≡◌, ◌==◌};
ghost use Rattle.std.specs.List.{list_any};
ghost use Rattle.lfs_fuse_talk.specs.Serving.{are_wanted, calling};

use crate::statuses::Statuses;
use lfs_fuse_wire::header::Header;
use std::alloc::{AllocError, Global};
use std::os::unix::fs::FileExt;
use std::rt::Files;

/// The most groups beside the first.
const MOST: usize = 15;

/// As many bytes of a process's status are read. Where the line of its groups doesn't end in them, they are more than
/// 15.
const STATUS_BYTES: usize = 4_096;

/// The messages that make calls, by their numbers in the protocol: LOOKUP, GETATTR, SETATTR, MKNOD to RENAME, OPEN to
/// WRITE, FSYNC, OPENDIR, FSYNCDIR to CREATE, IOCTL, RENAME2.
const CALLING: [u32; 18] = [
    1, 3, 4, 8, 9, 10, 11, 12, 14, 15, 16, 20, 27, 30, 34, 35, 39, 45,
];

/// Whether a message of this number makes calls.
fn makes_calls(opcode: u32) -> bool
    ensures { result ≡ list_any (λ n. n == opcode) calling }
{
    CALLING.contains(&opcode)
}

/// Whether the groups of the caller may count: a superuser is granted everything, whatever they are.
pub(crate) fn are_wanted(header: &Header) -> bool
    ensures { result ≡ are_wanted header.now }
{
    header.uid != 0 && makes_calls(header.opcode)
}

/// The lines that end in some bytes.
fn whole_lines(bytes: &[u8]) -> &[u8] {
    match bytes.iter().rposition(|byte| *byte == b'\n') {
        Some(end) => &bytes[..end],
        None => &[],
    }
}

/// What stands behind a word at the front of a line.
fn field<'a>(text: &'a [u8], name: &[u8]) -> Option<&'a str> {
    for line in text.split(|byte| *byte == b'\n') {
        if let Some(rest) = line.strip_prefix(name) {
            return str::from_utf8(rest).ok();
        }
    }
    None
}

/// The numbers of a field.
fn numbers(alloc: Global, field: &str) -> Result<Option<Vec<u32>>, AllocError> {
    let mut numbers = Vec::new(alloc);
    for word in field.split_whitespace() {
        let Ok(number) = word.parse::<u32>() else {
            return Ok(None);
        };
        numbers.push(number)?;
    }
    Ok(Some(numbers))
}

/// The fourth number of a field, by which files are judged.
fn judged_as(text: &[u8], name: &[u8]) -> Option<u32> {
    let word = field(text, name)?.split_whitespace().nth(3)?;
    word.parse::<u32>().ok()
}

/// The groups of a process but the first, by what its status says; none where it is another user's by now, or they are
/// too many.
fn others_in(alloc: Global, text: &[u8], header: &Header) -> Result<Option<Vec<u32>>, AllocError> {
    if judged_as(text, b"Uid:") != Some(header.uid)
        || judged_as(text, b"Gid:") != Some(header.gid)
    {
        return Ok(None);
    }
    let Some(field) = field(text, b"Groups:") else {
        return Ok(None);
    };
    let Some(mut groups) = numbers(alloc, field)? else {
        return Ok(None);
    };
    let first = header.gid;
    groups.retain(|group| *group != first);
    if groups.len() > MOST {
        return Ok(None);
    }
    Ok(Some(groups))
}

/// The groups of the process of a message but that of its header, at most 15, by what its status says now; `None` where
/// they can't be known.
pub(crate) fn others<S: Files>(
    alloc: Global,
    files: &S,
    statuses: &mut Statuses<S::File>,
    header: &Header,
) -> Result<Option<Vec<u32>>, AllocError>
where
    S::File: FileExt,
{
    let mut buffer = [0; STATUS_BYTES];
    match statuses.read(alloc, files, header.pid, &mut buffer)? {
        Some(count) => others_in(alloc, whole_lines(&buffer[..count]), header),
        None => Ok(None),
    }
}
