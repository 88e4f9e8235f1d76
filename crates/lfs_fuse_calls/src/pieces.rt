//! Reads and writes in pieces: a call carries 4,096 bytes at most.

ghost use Rattle.std.specs.Prelude.{◌≡◌, ◌*◌, ◌≤◌, IfOk, take, drop, length};
ghost use Rattle.lfs_fuse_calls.specs.Pieces.{next_place, piece_count, put_at, read_pieces, write_pieces};

use lfs_types::limits::TRANSFER_BYTES;
use lfs_types::path::Path;
use lfs_types::payload::Payload;
use lfs_types::request::{Place, Request};
use std::alloc::{AllocError, Global};

/// The bytes of a piece.
const PIECE: u32 = 4_096;

/// The most pieces of a message.
const PIECES: u32 = 32;

/// How many pieces so many bytes have, at most 32.
fn piece_count(size: u32) -> u32
    ensures { result ≡ piece_count size }
{
    let whole = size / PIECE;
    let begun = if size % PIECE == 0 { 0 } else { 1 };
    (whole + begun).min(PIECES)
}

/// Where the next piece begins.
fn next_place(off: u64) -> u64
    ensures { result ≡ next_place off }
{
    off.saturating_add(u64::from(PIECE))
}

#[tactic(auto, using(crate::proofs::PieceLemmas::reads_on))]
/// The calls that read bytes of a file, at most 131,072.
pub(crate) fn read_pieces(
    alloc: Global,
    path: &Path,
    offset: u64,
    size: u32,
) -> Result<Vec<Request>, AllocError>
    ensures { IfOk result (λ calls. calls.items ≡ read_pieces path.now offset size (piece_count size)) }
{
    let mut calls = Vec::new(alloc);
    let mut off = offset;
    let mut left = size;
    let mut count = piece_count(size);
    while count > 0 {
        let path = path.try_clone(alloc)?;
        let len = left.min(PIECE);
        calls.push(Request::Read { path, off, len })?;
        off = next_place(off);
        left = left.saturating_sub(PIECE);
        count -= 1;
    }
    Ok(calls)
}

/// Where a piece goes.
pub(crate) fn put_at(append: bool, off: u64) -> Place
    ensures { result ≡ put_at append off }
{
    if append { Place::End } else { Place::At(off) }
}

/// At most so many bytes from the front.
fn front<'a>(bytes: &'a [u8], most: usize) -> &'a [u8]
    ensures bytes { result.now ≡ take most bytes.now }
    ensures few { length result.now ≤ most }
{
    if bytes.len() <= most {
        return bytes;
    }
    &bytes[..most]
}

/// The bytes behind those.
fn behind<'a>(bytes: &'a [u8], most: usize) -> &'a [u8]
    ensures { result.now ≡ drop most bytes.now }
{
    if bytes.len() <= most {
        return &[];
    }
    &bytes[most..]
}

/// These bytes, as what a call carries.
pub(crate) fn payload(alloc: Global, bytes: &[u8]) -> Result<Payload, AllocError>
    requires { length bytes.now ≤ 4096 }
    ensures { IfOk result (λ payload. payload ≡ bytes.now) }
{
    let content = Vec::from_slice(alloc, bytes)?;
    match Payload::new(content) {
        Ok(payload) => Ok(payload),
        // Never: the piece is there, as is required.
        Err(_) => unreachable!(),
    }
}

#[tactic(auto, using(crate::proofs::PieceLemmas::writes_on))]
/// The calls that write bytes into a file, at most 131,072 of them.
pub(crate) fn write_pieces(
    alloc: Global,
    path: &Path,
    append: bool,
    offset: u64,
    bytes: &[u8],
) -> Result<Vec<Request>, AllocError>
    ensures { IfOk result (λ calls. calls.items
        ≡ write_pieces path.now append offset bytes.now (piece_count (length bytes.now))) }
{
    let mut calls = Vec::new(alloc);
    let mut off = offset;
    let mut rest = bytes;
    let mut count = count_of(bytes);
    while count > 0 {
        let path = path.try_clone(alloc)?;
        let place = put_at(append, off);
        let bytes = payload(alloc, front(rest, TRANSFER_BYTES))?;
        calls.push(Request::Write { path, place, bytes })?;
        off = next_place(off);
        rest = behind(rest, TRANSFER_BYTES);
        count -= 1;
    }
    Ok(calls)
}

/// How many pieces these bytes have, at most 32.
fn count_of(bytes: &[u8]) -> u32
    ensures { result ≡ piece_count (length bytes.now) }
{
    let most = (PIECE * PIECES) as usize;
    piece_count(bytes.len().min(most) as u32)
}
