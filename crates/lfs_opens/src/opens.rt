//! Files that are open. Of one that is removed its bytes and attributes are kept until it is closed.

ghost use Rattle.std.specs.Prelude.{◌≡◌, ◌≢◌, ℕ, ◌-◌, ◌<◌, IfNone, IfOk, IfSome, IsSome, None, Some, length, option_copied, slice_index_or, slice_set, vec_len};
ghost use Rattle.lfs_fuse_wire.specs.Views.{view};
ghost use Rattle.lfs_fuse_calls.specs.Asked.{reads, writes};
ghost use Rattle.lfs_opens.specs.Opens.{AllAreTaken, AreLeft, AreKeptWhereDone, AreUnkept, IsFree, NoneIsOpen, closed_at, file_at_slot, first_kept, first_to_write, handle_of, is_open_to, kept_of, kept_to, lack_of, node_of, opened_in, opened_on, opener_of, slot_of, unkept, with_kept, with_seen};
ghost use Rattle.lfs_opens.specs.Rewritten.{bytes_kept, size_of};

use crate::head::Head;
use crate::kept::{KeepingFault, Kept, OpenFile};
use lfs_fuse_calls::told::Told;
use lfs_fuse_wire::flags::AccessMode;
use lfs_fuse_wire::message::Message;
use lfs_types::cred::Cred;
use std::alloc::{AllocError, Global};

/// So many files that are open have a slot.
const SLOTS: usize = 128;

/// The most bytes that are kept of all files: no volume holds more.
const MOST: usize = 33_554_432;

/// The files that are open, each in one of 128 slots. A handle tells its slot.
#[derive(Drop)]
pub struct Opens {
    pub(crate) files: Vec<Option<OpenFile>>,
    ghost sized: { vec_len files ≡ 128 },
}

/// The slot of a handle, if it has one.
fn slot_of(handle: u64) -> Option<usize>
    ensures { result ≡ slot_of handle }
{
    let place = handle / 2;
    if place == 0 {
        None
    } else {
        Some((place - 1) as usize)
    }
}

/// The handle of a file with a slot, or with none.
pub(crate) fn handle_of(slot: Option<usize>) -> u64
    requires { IfSome slot (λ s. s < 256) }
    ensures handle { result ≡ handle_of slot }
    ensures room { result < 1024 }
{
    match slot {
        Some(slot) => 2 * (slot as u64 + 1),
        None => 0,
    }
}

/// Whether the file of a slot is open to be read.
fn is_to_read(file: &Option<OpenFile>) -> bool
    ensures { result ≡ is_open_to reads file.now }
{
    match file {
        Some(file) => !matches!(file.access, AccessMode::WriteOnly),
        None => false,
    }
}

/// Whether the file of a slot is open to be written.
fn is_to_write(file: &Option<OpenFile>) -> bool
    ensures { result ≡ is_open_to writes file.now }
{
    match file {
        Some(file) => !matches!(file.access, AccessMode::ReadOnly),
        None => false,
    }
}

/// What is kept of a file, where this user opened it on this node.
fn kept_of<'a>(file: &'a Option<OpenFile>, node: u64, cred: &Cred) -> Option<&'a Kept>
    ensures { option_copied result ≡ kept_of file.now node cred.now }
{
    match file {
        Some(file) => {
            if file.node == node && file.cred.uid() == cred.uid() {
                file.kept.as_ref()
            } else {
                None
            }
        }
        None => None,
    }
}

/// What is kept of the first of those.
fn first_kept<'a>(files: &'a [Option<OpenFile>], node: u64, cred: &Cred) -> Option<&'a Kept>
    ensures { option_copied result ≡ first_kept files.now node cred.now }
{
    let mut rest = files;
    while let Some((first, behind)) = rest.split_first() {
        if let Some(kept) = kept_of(first, node, cred) {
            return Some(kept);
        }
        rest = behind;
    }
    None
}

/// What is kept of a file, where this user opened it on this node to read it.
fn kept_to_read<'a>(file: &'a Option<OpenFile>, node: u64, cred: &Cred) -> Option<&'a Kept>
    ensures { option_copied result ≡ kept_to reads file.now node cred.now }
{
    if is_to_read(file) {
        kept_of(file, node, cred)
    } else {
        None
    }
}

/// What is kept of a file, where this user opened it on this node to write it.
fn kept_to_write<'a>(file: &'a Option<OpenFile>, node: u64, cred: &Cred) -> Option<&'a Kept>
    ensures { option_copied result ≡ kept_to writes file.now node cred.now }
{
    if is_to_write(file) {
        kept_of(file, node, cred)
    } else {
        None
    }
}

/// What is kept of the first of those.
fn first_to_write<'a>(files: &'a [Option<OpenFile>], node: u64, cred: &Cred) -> Option<&'a Kept>
    ensures { option_copied result ≡ first_to_write files.now node cred.now }
{
    let mut rest = files;
    while let Some((first, behind)) = rest.split_first() {
        if let Some(kept) = kept_to_write(first, node, cred) {
            return Some(kept);
        }
        rest = behind;
    }
    None
}

/// Who opened a file, if it is open on this node.
fn opener_of(file: &Option<OpenFile>, node: u64) -> Option<Cred>
    ensures { result ≡ opener_of file.now node }
{
    match file {
        Some(file) => {
            if file.node == node {
                Some(file.cred)
            } else {
                None
            }
        }
        None => None,
    }
}

/// A slot, with this kept for its file, or this told of why nothing is.
fn with_kept(
    file: Option<OpenFile>,
    kept: Option<Kept>,
    lack: Option<KeepingFault>,
) -> Option<OpenFile>
    ensures { result ≡ with_kept kept lack file }
{
    match file {
        Some(file) => {
            let OpenFile {
                node,
                cred,
                access,
                kept: old,
                lack: _,
            } = file;
            drop(old);
            Some(OpenFile {
                node,
                cred,
                access,
                kept,
                lack,
            })
        }
        None => None,
    }
}

/// Why nothing is kept of the file of a slot, if a reason was told.
fn lack_of(file: &Option<OpenFile>) -> Option<KeepingFault>
    ensures { result ≡ lack_of file.now }
{
    match file {
        Some(file) => file.lack,
        None => None,
    }
}

/// How many bytes are kept of a file.
fn size_of(file: &Option<OpenFile>) -> usize
    ensures { result ≡ size_of file.now }
{
    match file {
        Some(file) => match &file.kept {
            Some(kept) => kept.bytes.len(),
            None => 0,
        },
        None => 0,
    }
}

/// For how many bytes more there is room.
fn room_beside(files: &[Option<OpenFile>]) -> usize
    ensures { result ≡ 33554432 - bytes_kept files.now }
{
    let mut rest = files;
    let mut room = MOST;
    while let Some((first, behind)) = rest.split_first() {
        room = room.saturating_sub(size_of(first));
        rest = behind;
    }
    room
}

impl Opens {
    /// 128 slots, in which no file is open.
    ///
    /// # Errors
    ///
    /// There is no memory for them.
    pub fn new(alloc: Global) -> Result<Opens, AllocError>
        ensures { IfOk result (λ opens. NoneIsOpen opens.files.items) }
    {
        let mut files = Vec::with_capacity(alloc, SLOTS)?;
        for _ in 0..SLOTS {
            files.push(None)?;
        }
        Ok(Opens { files })
    }

    /// What is kept of the file of a handle, where this user opened it on this node to read it.
    pub fn to_read<'a>(&'a self, handle: u64, node: u64, cred: &Cred) -> Option<&'a Kept>
        ensures { option_copied result
            ≡ kept_to reads (file_at_slot self.now.files.items (slot_of handle)) node cred.now }
    {
        let slot = slot_of(handle)?;
        match self.files.as_slice().get(slot) {
            Some(file) => kept_to_read(file, node, cred),
            None => None,
        }
    }

    /// The same, where he opened it to write it.
    pub fn to_write<'a>(&'a self, handle: u64, node: u64, cred: &Cred) -> Option<&'a Kept>
        ensures { option_copied result
            ≡ kept_to writes (file_at_slot self.now.files.items (slot_of handle)) node cred.now }
    {
        let Some(slot) = slot_of(handle) else {
            return None;
        };
        match self.files.as_slice().get(slot) {
            Some(file) => kept_to_write(file, node, cred),
            None => None,
        }
    }

    /// What is kept of the first file that this user opened on this node to write it.
    pub fn to_cut<'a>(&'a self, node: u64, cred: &Cred) -> Option<&'a Kept>
        ensures { option_copied result ≡ first_to_write self.now.files.items node cred.now }
    {
        first_to_write(self.files.as_slice(), node, cred)
    }

    /// What is kept of the first file that this user opened on this node.
    pub fn by_node<'a>(&'a self, node: u64, cred: &Cred) -> Option<&'a Kept>
        ensures { option_copied result ≡ first_kept self.now.files.items node cred.now }
    {
        first_kept(self.files.as_slice(), node, cred)
    }

    /// How many slots there are.
    pub fn slots(&self) -> usize
        ensures { result ≡ length self.now.files.items }
    {
        self.files.len()
    }

    /// The node on which the file of a slot is open.
    pub fn node(&self, slot: usize) -> Option<u64>
        ensures { result ≡ node_of (slice_index_or self.now.files.items slot None) }
    {
        match self.files.as_slice().get(slot)? {
            Some(file) => Some(file.node),
            None => None,
        }
    }

    /// How many bytes more may be kept: 33,554,432 in all.
    pub fn room(&self) -> usize
        ensures { result ≡ 33554432 - bytes_kept self.now.files.items }
    {
        room_beside(self.files.as_slice())
    }

    /// Who opened the file of a slot, if it is open on this node.
    pub fn opener(&self, slot: usize, node: u64) -> Option<Cred>
        ensures { result ≡ opener_of (slice_index_or self.now.files.items slot None) node }
    {
        match self.files.as_slice().get(slot) {
            Some(file) => opener_of(file, node),
            None => None,
        }
    }

    /// Why nothing is kept of the file of a slot, if a reason was told.
    pub fn lack(&self, slot: usize) -> Option<KeepingFault>
        ensures { result ≡ lack_of (slice_index_or self.now.files.items slot None) }
    {
        match self.files.as_slice().get(slot) {
            Some(file) => lack_of(file),
            None => None,
        }
    }

    /// Keeps this for the file of a slot, and tells this reason, in place of what there was.
    fn replace(&mut self, slot: usize, kept: Option<Kept>, lack: Option<KeepingFault>)
        ensures { self.new.files.items ≡ slice_set self.old.files.items slot
            (with_kept kept lack (slice_index_or self.old.files.items slot None)) }
    {
        if slot < self.files.len() {
            let file = &mut self.files[slot];
            let old = file.take();
            *file = with_kept(old, kept, lack);
        }
    }

    /// Keeps what was seen of the file of a slot, in place of what was kept, or else tells why nothing was seen.
    pub fn keep(&mut self, slot: usize, seen: Result<Kept, KeepingFault>)
        ensures { self.new.files.items ≡ slice_set self.old.files.items slot
            (with_seen seen (slice_index_or self.old.files.items slot None)) }
    {
        match seen {
            Ok(kept) => self.replace(slot, Some(kept), None),
            Err(lack) => self.replace(slot, None, Some(lack)),
        }
    }

    /// A slot in which no file is; None only where all are taken.
    fn free(&self) -> Option<usize>
        ensures free { IfSome result (IsFree self.now.files.items) }
        ensures few { IfSome result (λ slot. slot < 256) }
        ensures full { IfNone result (AllAreTaken self.now.files.items) }
    {
        for slot in 0..SLOTS {
            if self.files[slot].is_none() {
                return Some(slot);
            }
        }
        None
    }

    /// A file is opened, and gets a slot, if one is free.
    fn open(&mut self, node: u64, access: AccessMode, cred: &Cred) -> Option<usize>
        ensures free { IfSome result (IsFree self.old.files.items) }
        ensures few { IfSome result (λ slot. slot < 256) }
        ensures full { IfNone result (AllAreTaken self.old.files.items) }
        ensures files { self.new.files.items
            ≡ opened_in result (Some node) access cred.now self.old.files.items }
    {
        let slot = self.free()?;
        self.files[slot] = Some(OpenFile {
            node,
            cred: *cred,
            access,
            kept: None,
            lack: None,
        });
        Some(slot)
    }

    /// The file of a handle is closed, and what is kept of it goes.
    fn close(&mut self, handle: u64)
        ensures { self.new.files.items ≡ closed_at (slot_of handle) self.old.files.items }
    {
        if let Some(slot) = slot_of(handle)
            && slot < self.files.len()
        {
            self.files[slot] = None;
        }
    }

    /// Nothing is kept of the file of a slot, if it is open on this node.
    fn unkeep_at(&mut self, slot: usize, node: u64)
        ensures here { slice_index_or self.new.files.items slot None
            ≡ unkept node (slice_index_or self.old.files.items slot None) }
        ensures others { (s : ℕ) → s ≢ slot → slice_index_or self.new.files.items s None
            ≡ slice_index_or self.old.files.items s None }
    {
        if self.opener(slot, node).is_some() {
            self.replace(slot, None, None);
        }
    }

    /// Nothing is kept of files that are open on this node.
    fn unkeep(&mut self, node: u64)
        ensures { AreUnkept node self.old.files.items self.new.files.items }
    {
        for slot in 0..self.files.len() {
            self.unkeep_at(slot, node);
        }
    }

    /// What was kept of a node's file stays where its removal was done, and goes where it wasn't.
    fn keep_where_done(&mut self, left: Option<u64>, told: &Told)
        ensures { AreKeptWhereDone left told.now self.old.files.items self.new.files.items }
    {
        if let Some(node) = left {
            match told {
                Told::Done => (),
                _ => self.unkeep(node),
            }
        }
    }

    /// Notes what a message opened, closed or removed, and gives the slot of what it opened, if that has one.
    pub fn note(
        &mut self,
        head: &Head,
        message: &Message<'_>,
        told: &Told,
        left: Option<u64>,
    ) -> Option<usize>
        ensures free { IfSome result (λ slot. IsFree self.old.files.items slot
            × IsSome (opened_on (view message.now) head.now.node told.now)) }
        ensures few { IfSome result (λ slot. slot < 256) }
        // What it opened gets no slot only where all are taken.
        ensures full { IfNone result
            (IsSome (opened_on (view message.now) head.now.node told.now)
            → AllAreTaken self.old.files.items) }
        ensures files { AreLeft (view message.now) head.now.node head.now.cred told.now left result
            self.old.files.items self.new.files.items }
    {
        match message {
            Message::Create(fields, _) => {
                if let Told::Create(entry, _) = told {
                    self.open(entry.node, fields.flags.access, &head.cred)
                } else {
                    None
                }
            }
            Message::Open(fields) => {
                if let Told::Open(_) = told {
                    self.open(head.node, fields.flags.access, &head.cred)
                } else {
                    None
                }
            }
            Message::Release(fields) => {
                self.close(fields.handle);
                None
            }
            _ => {
                self.keep_where_done(left, told);
                None
            }
        }
    }
}
