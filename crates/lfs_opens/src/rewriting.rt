//! Writes to files that were removed while they were open: what is kept of them changes, and nothing else does.

ghost use Rattle.std.specs.Prelude.{◌≡◌, ◌≢◌, ℕ, ◌+◌, ◌-◌, ◌<◌, ◌≤◌, ◌++◌, IfErr, IfSome, IsTrue, List, OnOk, OnErr, Option, None, Some, drop, false, length, option_map, replicate, slice_index_or, take};
ghost use Rattle.std.specs.Vec.{vec_capacity, vec_len};
ghost use Rattle.lfs_types.specs.Splicing.{resized, splice};
ghost use Rattle.lfs_model.specs.Effects.{mode_after};
ghost use Rattle.lfs_model.specs.Rules.{file_max};
ghost use Rattle.lfs_fuse_wire.specs.Said.{setattr, write};
ghost use Rattle.lfs_fuse_wire.specs.Views.{view};
ghost use Rattle.lfs_fuse_calls.specs.Attrs.{blocks_told};
ghost use Rattle.lfs_opens.specs.declared.kept.OpenFile.{OpenFile};
ghost use Rattle.lfs_opens.specs.Rewritten.{AllHaveRoom, AreChanged, AreRewritten, AreSame, HasRoom, HasRoomFor, IsWanting, LacksRoom, TellsCut, TellsWritten, attr_behind, end_of, file_behind, growth_of, is_rewrite, kept_behind, more_of, new_size, part_of, rewritten, shown_kept, shown_slot, start_of};

use crate::head::Head;
use crate::kept::{Kept, OpenFile};
use crate::opens::Opens;
use lfs_fuse_calls::told::Told;
use lfs_fuse_reply::attr::Attr;
use lfs_fuse_reply::errno::Errno;
use lfs_fuse_wire::attributes::{SetAttr, Time};
use lfs_fuse_wire::handles::Write;
use lfs_fuse_wire::message::Message;
use lfs_types::cred::Cred;
use lfs_types::limits::FILE_BYTES;

/// The most bytes that a message writes.
pub const MAX_WRITE: u32 = 131_072;

/// The units in which stat(2) tells the room of a file, in bytes.
const UNIT: u64 = 512;

/// The length that is to be set, where nothing else is.
pub fn new_size(fields: &SetAttr) -> Option<u64>
    ensures { result ≡ new_size fields.now }
{
    if fields.permissions.is_some()
        || fields.uid.is_some()
        || fields.gid.is_some()
        || fields.accessed.is_some()
        || fields.modified.is_some()
        || fields.changed.is_some()
    {
        None
    } else {
        fields.size
    }
}

/// At most so many bytes from the front.
fn front<'a>(bytes: &'a [u8], most: usize) -> &'a [u8]
    ensures bytes { result.now ≡ take most bytes.now }
    ensures few { length result.now ≤ most }
{
    if bytes.len() <= most {
        return bytes;
    }
    &bytes[..most]
}

/// The bytes of a message that are written.
fn part_of<'a>(bytes: &'a [u8]) -> &'a [u8]
    ensures bytes { result.now ≡ part_of bytes.now }
    ensures few { length result.now ≤ 131072 }
{
    front(bytes, MAX_WRITE as usize)
}

/// Where bytes go in a file of so many.
fn start_of(fields: &Write, size: u64) -> u64
    ensures { result ≡ start_of fields.now size }
{
    if fields.flags.append {
        size
    } else {
        fields.offset
    }
}

/// Where what a message writes into a file of so many bytes ends, or how many bytes the file is to have; None where a
/// file can't have as many.
fn end_of(message: &Message<'_>, size: u64) -> Option<u64>
    ensures end { IfSome result (λ end. end ≡ end_of (view message.now) size) }
    ensures fits { IfSome result (λ end. end ≤ file_max) }
    ensures past { result ≡ None → file_max < end_of (view message.now) size }
{
    let end = match message {
        Message::Write(fields, bytes) => {
            start_of(fields, size).saturating_add(part_of(bytes).len() as u64)
        }
        Message::SetAttr(fields) => new_size(fields).unwrap_or(size),
        _ => size,
    };
    if end <= FILE_BYTES { Some(end) } else { None }
}

/// Adds zeros up to this length, where there is room for them.
fn fill_up(bytes: &mut Vec<u8>, len: usize)
    requires { len ≤ vec_capacity bytes.old }
    ensures { bytes.new.items ≡ bytes.old.items ++ replicate (len - length bytes.old.items) 0 }
{
    if bytes.len() < len {
        let Ok(()) = bytes.resize(len, 0) else {
            // Never: the room is there, as is required.
            unreachable!()
        };
    }
}

/// Writes bytes over as many others.
fn overwrite(old: &mut Vec<u8>, start: usize, bytes: &[u8])
    requires { start + length bytes.now ≤ vec_len old.old }
    ensures { old.new.items ≡ take start old.old.items ++ bytes.now
        ++ drop (start + length bytes.now) old.old.items }
{
    old[start..start + bytes.len()].copy_from_slice(bytes);
}

/// Puts bytes into others, where there is room for them; a gap before them is filled with zeros.
fn splice(old: &mut Vec<u8>, start: usize, bytes: &[u8])
    requires { start + length bytes.now ≤ vec_capacity old.old }
    ensures { old.new.items ≡ splice old.old.items start bytes.now }
{
    if bytes.is_empty() {
        return;
    }
    fill_up(old, start + bytes.len());
    overwrite(old, start, bytes);
}

/// Cuts bytes to this length, or adds zeros up to it, where there is room for them.
fn resize(bytes: &mut Vec<u8>, len: usize)
    requires { len ≤ vec_capacity bytes.old }
    ensures { bytes.new.items ≡ resized bytes.old.items len }
{
    bytes.truncate(len);
    fill_up(bytes, len);
}

/// Changes bytes as a message says, where there is room for that.
fn rewrite(old: &mut Vec<u8>, message: &Message<'_>)
    requires { end_of (view message.now) (length old.old.items) ≤ vec_capacity old.old }
    ensures { old.new.items ≡ rewritten (view message.now) old.old.items }
{
    let size = old.len() as u64;
    match message {
        Message::Write(fields, bytes) => {
            splice(old, start_of(fields, size) as usize, part_of(bytes));
        }
        Message::SetAttr(fields) => {
            if let Some(len) = new_size(fields) {
                resize(old, len as usize);
            }
        }
        _ => (),
    }
}

/// How many units of 512 bytes so many bytes take, the last one begun.
fn blocks_told(size: u64) -> u64
    ensures { result ≡ blocks_told size }
{
    let begun = if size % UNIT == 0 { 0 } else { 1 };
    size / UNIT + begun
}

/// The permissions of a file that a caller changes: without set-id bits, unless he is the superuser.
fn permissions_behind(cred: &Cred, permissions: u16) -> u16
    ensures { result ≡ mode_after cred.now permissions }
{
    if cred.is_superuser() {
        permissions
    } else {
        permissions % 0o2000
    }
}

/// Attributes of a file that a caller changes now, and that has so many bytes then.
fn attr_behind(now: Time, cred: &Cred, size: u64, attr: Attr) -> Attr
    ensures { result ≡ attr_behind now cred.now size attr }
{
    Attr {
        size,
        blocks: blocks_told(size),
        permissions: permissions_behind(cred, attr.permissions),
        modified: now,
        changed: now,
        ..attr
    }
}

/// What is kept of a file, changed as a message says, where there is room for that.
fn kept_behind(now: Time, kept: Kept, message: &Message<'_>, cred: &Cred) -> Kept
    requires { end_of (view message.now) (length kept.bytes.items) ≤ vec_capacity kept.bytes }
    ensures { shown_kept result ≡ kept_behind now cred.now (view message.now) (shown_kept kept) }
{
    let Kept { attr, mut bytes } = kept;
    rewrite(&mut bytes, message);
    let attr = attr_behind(now, cred, bytes.len() as u64, attr);
    Kept { attr, bytes }
}

/// The same, if something is kept.
fn some_behind(now: Time, kept: Option<Kept>, message: &Message<'_>, cred: &Cred) -> Option<Kept>
    requires { HasRoomFor (view message.now) kept }
    ensures { option_map shown_kept result
        ≡ option_map (kept_behind now cred.now (view message.now)) (option_map shown_kept kept) }
{
    match kept {
        Some(kept) => Some(kept_behind(now, kept, message, cred)),
        None => None,
    }
}

/// A slot, with what is kept of a file on a message's node changed as it says, where there is room for that.
fn file_behind(head: &Head, file: Option<OpenFile>, message: &Message<'_>) -> Option<OpenFile>
    requires { HasRoom (view message.now) head.now.node file }
    ensures { shown_slot result
        ≡ file_behind (kept_behind head.now.time head.now.cred (view message.now)) head.now.node
        (shown_slot file) }
{
    let file = file?;
    if file.node != head.node {
        return Some(file);
    }
    let OpenFile {
        node: own,
        cred: opener,
        access,
        kept,
        lack,
    } = file;
    Some(OpenFile {
        node: own,
        cred: opener,
        access,
        kept: some_behind(head.time, kept, message, &head.cred),
        lack,
    })
}

/// What is kept, with room for what a message makes of it, and whether there is that.
fn kept_with_room(kept: Kept, message: &Message<'_>) -> (Kept, bool)
    ensures same { shown_kept result.0 ≡ shown_kept kept }
    ensures room { IsTrue result.1 → HasRoomFor (view message.now) (Some result.0) }
{
    let Kept { attr, mut bytes } = kept;
    let size = bytes.len();
    let done = match end_of(message, size as u64) {
        Some(end) => bytes.reserve((end as usize).saturating_sub(size)).is_ok(),
        None => false,
    };
    (Kept { attr, bytes }, done)
}

/// The same, if something is kept.
fn some_with_room(kept: Option<Kept>, message: &Message<'_>) -> (Option<Kept>, bool)
    ensures same { option_map shown_kept result.0 ≡ option_map shown_kept kept }
    ensures room { IsTrue result.1 → HasRoomFor (view message.now) result.0 }
{
    match kept {
        Some(kept) => {
            let (kept, done) = kept_with_room(kept, message);
            (Some(kept), done)
        }
        None => (None, true),
    }
}

/// A slot, with room for what a message makes of a file on this node, and whether there is that.
fn file_with_room(
    file: Option<OpenFile>,
    node: u64,
    message: &Message<'_>,
) -> (Option<OpenFile>, bool)
    ensures same { shown_slot result.0 ≡ shown_slot file }
    ensures room { IsTrue result.1 → HasRoom (view message.now) node result.0 }
{
    let Some(file) = file else {
        return (None, true);
    };
    let OpenFile {
        node: own,
        cred: opener,
        access,
        kept,
        lack,
    } = file;
    let (kept, done) = if own == node {
        some_with_room(kept, message)
    } else {
        (kept, true)
    };
    let file = OpenFile {
        node: own,
        cred: opener,
        access,
        kept,
        lack,
    };
    (Some(file), done)
}

/// What is told of a message that writes no bytes into a file of so many.
fn nothing_told(message: &Message<'_>, size: u64) -> Told
    ensures tells { (node : ℕ) (files : List (Option OpenFile))
        → TellsWritten (LacksRoom (view message.now) node size files) 0
        (end_of (view message.now) size) result }
    ensures same { is_rewrite (view message.now) result ≡ false }
{
    match end_of(message, size) {
        Some(_) => Told::Written(0),
        None => Told::Error(Errno::EFBIG),
    }
}

/// How many more bytes are kept of a file, where what is kept of a node's files gets so many more.
fn more_of(file: &Option<OpenFile>, node: u64, more: usize) -> usize
    ensures { result ≡ more_of node more file.now }
{
    match file {
        Some(file) => {
            if file.node == node && file.kept.is_some() {
                more
            } else {
                0
            }
        }
        None => 0,
    }
}

/// The same of all files, counted up to the largest number.
fn growth_of(files: &[Option<OpenFile>], node: u64, more: usize) -> usize
    ensures most { result ≤ growth_of node more files.now }
    ensures all { result ≤ 33554432 → growth_of node more files.now ≤ result }
{
    let mut rest = files;
    let mut growth: usize = 0;
    while let Some((first, behind)) = rest.split_first() {
        growth = growth.saturating_add(more_of(first, node, more));
        rest = behind;
    }
    growth
}

impl Opens {
    /// Takes what is in a slot out of it.
    fn take(&mut self, slot: usize) -> Option<OpenFile>
        ensures file { result ≡ slice_index_or self.old.files.items slot None }
        ensures others { (s : ℕ) → s ≢ slot → slice_index_or self.new.files.items s None
            ≡ slice_index_or self.old.files.items s None }
        ensures len { length self.new.files.items ≡ length self.old.files.items }
    {
        if slot < self.files.len() {
            self.files[slot].take()
        } else {
            None
        }
    }

    /// Puts something into a slot.
    fn put(&mut self, slot: usize, file: Option<OpenFile>)
        ensures file { slot < length self.old.files.items
            → slice_index_or self.new.files.items slot None ≡ file }
        ensures past { length self.old.files.items ≤ slot
            → slice_index_or self.new.files.items slot None ≡ None }
        ensures others { (s : ℕ) → s ≢ slot → slice_index_or self.new.files.items s None
            ≡ slice_index_or self.old.files.items s None }
    {
        if slot < self.files.len() {
            self.files[slot] = file;
        }
    }

    /// Makes room for what a message makes of what is kept in a slot. Whether there is that. Nothing else changes.
    fn make_room_at(&mut self, slot: usize, node: u64, message: &Message<'_>) -> bool
        ensures same { shown_slot (slice_index_or self.new.files.items slot None)
            ≡ shown_slot (slice_index_or self.old.files.items slot None) }
        ensures others { (s : ℕ) → s ≢ slot → slice_index_or self.new.files.items s None
            ≡ slice_index_or self.old.files.items s None }
        ensures room { IsTrue result → HasRoom (view message.now) node
            (slice_index_or self.new.files.items slot None) }
    {
        let old = self.take(slot);
        let (file, done) = file_with_room(old, node, message);
        self.put(slot, file);
        done
    }

    /// Makes room for what a message makes of each file on a node. Whether there is that.
    fn make_room(&mut self, node: u64, message: &Message<'_>) -> bool
        ensures same { AreSame self.old.files.items self.new.files.items }
        ensures room { IsTrue result → AllHaveRoom (view message.now) node self.new.files.items }
    {
        for slot in 0..self.files.len() {
            if !self.make_room_at(slot, node, message) {
                return false;
            }
        }
        true
    }

    /// Changes what is kept in a slot of a file on a message's node, as it says, where there is room for that.
    fn change_at(&mut self, head: &Head, slot: usize, message: &Message<'_>)
        requires { HasRoom (view message.now) head.now.node
            (slice_index_or self.old.files.items slot None) }
        ensures changed { shown_slot (slice_index_or self.new.files.items slot None)
            ≡ file_behind (kept_behind head.now.time head.now.cred (view message.now)) head.now.node
            (shown_slot (slice_index_or self.old.files.items slot None)) }
        ensures others { (s : ℕ) → s ≢ slot → slice_index_or self.new.files.items s None
            ≡ slice_index_or self.old.files.items s None }
    {
        let old = self.take(slot);
        self.put(slot, file_behind(head, old, message));
    }

    /// Changes what is kept of each file on a message's node, as it says, where there is room for that.
    fn change(&mut self, head: &Head, message: &Message<'_>)
        requires { AllHaveRoom (view message.now) head.now.node self.old.files.items }
        ensures { AreChanged (kept_behind head.now.time head.now.cred (view message.now)) head.now.node
            self.old.files.items self.new.files.items }
    {
        for slot in 0..self.files.len() {
            self.change_at(head, slot, message);
        }
    }

    /// Changes what is kept of each file on a message's node, as it says, where one of them has so many bytes.
    ///
    /// # Errors
    ///
    /// The file would be too large, or there is no room or no memory. Nothing changed.
    fn rewrite(&mut self, head: &Head, message: &Message<'_>, size: u64) -> Result<(), Errno>
        ensures changed { OnOk result (AreChanged
            (kept_behind head.now.time head.now.cred (view message.now)) head.now.node
            self.old.files.items self.new.files.items) }
        ensures same { OnErr result (AreSame self.old.files.items self.new.files.items) }
        ensures fits { OnOk result (end_of (view message.now) size ≤ file_max) }
        ensures room { OnOk result
            (LacksRoom (view message.now) head.now.node size self.old.files.items → ⊥) }
        ensures error { IfErr result (IsWanting
            (LacksRoom (view message.now) head.now.node size self.old.files.items)
            (end_of (view message.now) size)) }
    {
        let Some(end) = end_of(message, size) else {
            return Err(Errno::EFBIG);
        };
        let more = end.saturating_sub(size) as usize;
        if growth_of(self.files.as_slice(), head.node, more) > self.room() {
            return Err(Errno::ENOSPC);
        }
        if !self.make_room(head.node, message) {
            return Err(Errno::ENOMEM);
        }
        self.change(head, message);
        Ok(())
    }

    /// Writes into a node's removed file, of which one who has it open for that sees so many bytes.
    pub fn write(&mut self, head: &Head, fields: &Write, bytes: &[u8], size: u64) -> Told
        ensures tells { TellsWritten
            (LacksRoom (write fields.now bytes.now) head.now.node size self.old.files.items)
            (length (part_of bytes.now)) (end_of (write fields.now bytes.now) size) result }
        ensures files { AreRewritten head.now.time head.now.cred head.now.node
            (write fields.now bytes.now) result self.old.files.items self.new.files.items }
    {
        let message = Message::Write(*fields, bytes);
        let count = part_of(bytes).len() as u32;
        if count == 0 {
            return nothing_told(&message, size);
        }
        match self.rewrite(head, &message, size) {
            Ok(()) => Told::Written(count),
            Err(errno) => Told::Error(errno),
        }
    }

    /// Gives a node's removed file the length that a message tells, of which one who has it open for that sees these
    /// attributes and so many bytes.
    pub fn cut(&mut self, head: &Head, fields: &SetAttr, attr: Attr, size: u64) -> Told
        ensures tells { TellsCut
            (LacksRoom (setattr fields.now) head.now.node size self.old.files.items)
            (attr_behind head.now.time head.now.cred (end_of (setattr fields.now) size) attr)
            (end_of (setattr fields.now) size) result }
        ensures files { AreRewritten head.now.time head.now.cred head.now.node (setattr fields.now) result
            self.old.files.items self.new.files.items }
    {
        let message = Message::SetAttr(*fields);
        match self.rewrite(head, &message, size) {
            Ok(()) => {
                let len = new_size(fields).unwrap_or(size);
                Told::Attr(attr_behind(head.time, &head.cred, len, attr))
            }
            Err(errno) => Told::Error(errno),
        }
    }
}
