//! The calls that a message asks for, of a path, in order.

ghost use Rattle.std.specs.Prelude.{◌≡◌, ◌+◌, ◌<◌, ◌++◌, ◌∷◌, [], IfOk, OnOk};
ghost use Rattle.lfs_fuse_wire.specs.Views.{view};
ghost use Rattle.lfs_fuse_calls.specs.Asked.{asked, asked_if, asked_to_open, asked_to_set, asked_with, due_mode, is_told, lacking, lent_mode, mode_of, reads, told_or, writes};
ghost use Rattle.lfs_fuse_calls.specs.Pieces.{put_at};

use crate::pieces::{payload, put_at, read_pieces, write_pieces};
use lfs_fuse_wire::attributes::SetAttr;
use lfs_fuse_wire::flags::{AccessMode, OpenFlags};
use lfs_fuse_wire::message::Message;
use lfs_types::attrs::Attrs;
use lfs_types::mode::Mode;
use lfs_types::path::Path;
use lfs_types::request::Request;
use std::alloc::{AllocError, Global};

/// The permissions of a message, at most 07777.
fn mode_of(permissions: u16) -> Mode
    ensures { result ≡ mode_of permissions }
{
    match Mode::new(permissions % 0o10000) {
        Some(mode) => mode,
        // Never: it is below 010000.
        None => unreachable!(),
    }
}

/// What the owner lacks of the bits by which he may read and write.
fn lacking(mode: u16) -> u16
    requires { mode < 4096 }
    ensures bits { result ≡ lacking mode }
    ensures room { result + mode < 4096 }
{
    let read = if mode / 256 % 2 == 0 { 0o400 } else { 0 };
    let write = if mode / 128 % 2 == 0 { 0o200 } else { 0 };
    read + write
}

/// The mode with which a file is made that is opened too: with its owner's right to read and write it, which grants nothing
/// to anybody but who makes it.
fn lent_mode(permissions: u16) -> Mode
    ensures { result ≡ lent_mode permissions }
{
    let bits = permissions % 0o10000;
    match Mode::new(bits + lacking(bits)) {
        Some(mode) => mode,
        // Never: by `room` of `lacking` it is below 010000.
        None => unreachable!(),
    }
}

/// The mode that a file gets once it is closed, where it was made with another.
pub fn due_mode(permissions: u16) -> Option<Mode>
    ensures { result ≡ due_mode permissions }
{
    let mode = mode_of(permissions);
    if lacking(mode.bits()) == 0 {
        None
    } else {
        Some(mode)
    }
}

/// Whether the mode reads.
fn reads(access: AccessMode) -> bool
    ensures { result ≡ reads access }
{
    !matches!(access, AccessMode::WriteOnly)
}

/// Whether the mode writes.
fn writes(access: AccessMode) -> bool
    ensures { result ≡ writes access }
{
    !matches!(access, AccessMode::ReadOnly)
}

/// The call alone.
fn one(alloc: Global, request: Request) -> Result<Vec<Request>, AllocError>
    ensures { IfOk result (λ calls. calls.items ≡ request ∷ []) }
{
    let mut calls = Vec::new(alloc);
    calls.push(request)?;
    Ok(calls)
}

/// The call, and then a Stat of a path.
fn and_stat(alloc: Global, request: Request, path: &Path) -> Result<Vec<Request>, AllocError>
    ensures { IfOk result (λ calls. calls.items ≡ request ∷ Request.Stat path.now ∷ []) }
{
    let mut calls = one(alloc, request)?;
    let path = path.try_clone(alloc)?;
    calls.push(Request::Stat { path })?;
    Ok(calls)
}

/// The calls by which a file is opened.
fn asked_to_open(alloc: Global, flags: &OpenFlags, path: &Path) -> Result<Vec<Request>, AllocError>
    ensures { IfOk result (λ calls. calls.items ≡ asked_to_open flags.now path.now) }
{
    let mut calls = Vec::new(alloc);
    if reads(flags.access) {
        let path = path.try_clone(alloc)?;
        calls.push(Request::Read {
            path,
            off: 0,
            len: 0,
        })?;
    }
    push_writing(alloc, &mut calls, flags, path)?;
    if flags.truncate {
        let path = path.try_clone(alloc)?;
        calls.push(Request::SetLength { path, len: 0 })?;
    }
    push_running(alloc, &mut calls, flags, path)?;
    Ok(calls)
}

/// Adds the call that looks at a file which is opened to run it.
fn push_running(
    alloc: Global,
    calls: &mut Vec<Request>,
    flags: &OpenFlags,
    path: &Path,
) -> Result<(), AllocError>
    ensures { OnOk result (calls.new.items ≡ calls.old.items
        ++ asked_if flags.now.exec (Request.Stat path.now)) }
{
    if flags.exec {
        let path = path.try_clone(alloc)?;
        calls.push(Request::Stat { path })?;
    }
    Ok(())
}

/// Adds the call by which a file is opened to be written.
fn push_writing(
    alloc: Global,
    calls: &mut Vec<Request>,
    flags: &OpenFlags,
    path: &Path,
) -> Result<(), AllocError>
    ensures { OnOk result (calls.new.items ≡ calls.old.items
        ++ asked_if (writes flags.now.access) (Request.Write path.now (put_at flags.now.append 0) [])) }
{
    if writes(flags.access) {
        let path = path.try_clone(alloc)?;
        let place = put_at(flags.append, 0);
        let bytes = payload(alloc, &[])?;
        calls.push(Request::Write { path, place, bytes })?;
    }
    Ok(())
}

/// The calls that a message asks for, of the path of its node, or of the name in it.
pub fn asked(alloc: Global, message: &Message<'_>, path: &Path) -> Result<Vec<Request>, AllocError>
    ensures { IfOk result (λ calls. calls.items ≡ asked (view message.now) path.now) }
{
    match message {
        Message::Lookup(_)
        | Message::GetAttr(_)
        | Message::SetAttr(_)
        | Message::Access(_)
        | Message::Ioctl(_) => {
            let path = path.try_clone(alloc)?;
            one(alloc, Request::Stat { path })
        }
        Message::Mknod(fields, _) => made(alloc, mode_of(fields.permissions), path),
        Message::Create(fields, _) => made(alloc, lent_mode(fields.permissions), path),
        Message::Mkdir(fields, _) => made_directory(alloc, fields.permissions, path),
        Message::Unlink(_) => {
            let path = path.try_clone(alloc)?;
            one(alloc, Request::Unlink { path })
        }
        Message::Rmdir(_) => {
            let path = path.try_clone(alloc)?;
            one(alloc, Request::Rmdir { path })
        }
        Message::Open(fields) => asked_to_open(alloc, &fields.flags, path),
        Message::Read(fields) => read_pieces(alloc, path, fields.offset, fields.size),
        Message::Write(fields, bytes) => {
            write_pieces(alloc, path, fields.flags.append, fields.offset, bytes)
        }
        Message::Opendir(_) => {
            let path = path.try_clone(alloc)?;
            one(alloc, Request::List { path })
        }
        _ => Ok(Vec::new(alloc)),
    }
}

/// The calls that make a file of this mode.
fn made(alloc: Global, mode: Mode, path: &Path) -> Result<Vec<Request>, AllocError>
    ensures { IfOk result (λ calls. calls.items
        ≡ Request.Create path.now mode ∷ Request.Stat path.now ∷ []) }
{
    let new = path.try_clone(alloc)?;
    and_stat(alloc, Request::Create { path: new, mode }, path)
}

/// The calls that make a directory.
fn made_directory(alloc: Global, permissions: u16, path: &Path) -> Result<Vec<Request>, AllocError>
    ensures { IfOk result (λ calls. calls.items
        ≡ Request.Mkdir path.now (mode_of permissions) ∷ Request.Stat path.now ∷ []) }
{
    let mode = mode_of(permissions);
    let new = path.try_clone(alloc)?;
    and_stat(alloc, Request::Mkdir { path: new, mode }, path)
}

/// The calls that change the attributes of a file, which are these at present, and show them.
pub fn asked_to_set(
    alloc: Global,
    fields: &SetAttr,
    present: &Attrs,
    path: &Path,
) -> Result<Vec<Request>, AllocError>
    ensures { IfOk result (λ calls. calls.items ≡ asked_to_set fields.now present.now path.now) }
{
    let mut calls = Vec::new(alloc);
    push_length(alloc, &mut calls, fields.size, path)?;
    push_owner(alloc, &mut calls, fields, present, path)?;
    push_mode(alloc, &mut calls, fields.permissions, path)?;
    let path = path.try_clone(alloc)?;
    calls.push(Request::Stat { path })?;
    Ok(calls)
}

/// Adds the call that sets a length, if one is told.
fn push_length(
    alloc: Global,
    calls: &mut Vec<Request>,
    size: Option<u64>,
    path: &Path,
) -> Result<(), AllocError>
    ensures { OnOk result (calls.new.items ≡ calls.old.items
        ++ asked_with (Request.SetLength path.now) size) }
{
    if let Some(len) = size {
        let path = path.try_clone(alloc)?;
        calls.push(Request::SetLength { path, len })?;
    }
    Ok(())
}

/// Adds the call that sets an owner and a group, if one of them is told.
fn push_owner(
    alloc: Global,
    calls: &mut Vec<Request>,
    fields: &SetAttr,
    present: &Attrs,
    path: &Path,
) -> Result<(), AllocError>
    ensures { OnOk result (calls.new.items ≡ calls.old.items
        ++ asked_if (is_told fields.now.uid fields.now.gid) (Request.Chown path.now
        (told_or present.now.uid fields.now.uid) (told_or present.now.gid fields.now.gid))) }
{
    if fields.uid.is_some() || fields.gid.is_some() {
        let path = path.try_clone(alloc)?;
        let uid = fields.uid.unwrap_or(present.uid);
        let gid = fields.gid.unwrap_or(present.gid);
        calls.push(Request::Chown { path, uid, gid })?;
    }
    Ok(())
}

/// Adds the call that sets permissions, if they are told.
fn push_mode(
    alloc: Global,
    calls: &mut Vec<Request>,
    permissions: Option<u16>,
    path: &Path,
) -> Result<(), AllocError>
    ensures { OnOk result (calls.new.items ≡ calls.old.items
        ++ asked_with (λ bits. Request.Chmod path.now (mode_of bits)) permissions) }
{
    if let Some(permissions) = permissions {
        let path = path.try_clone(alloc)?;
        let mode = mode_of(permissions);
        calls.push(Request::Chmod { path, mode })?;
    }
    Ok(())
}
