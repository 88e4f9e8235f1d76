//! The records that wait to be written, told apart by number.

ghost use Rattle.std.specs.Prelude.{◌≡◌, ◌-◌, ◌<◌, ◌∷◌, ◌++◌, ◌==◌, [], IfOk, IsSome, drop, length};
ghost use Rattle.std.specs.Option.{is_some};
ghost use Rattle.std.specs.VecDeque.{deque_capacity};
ghost use Rattle.lfs_types.specs.Ranges.{most_inodes};
ghost use Rattle.lfs_log.specs.declared.packing.TheConstants.{SLOT_COUNT};
ghost use Rattle.lfs_parts.specs.Waiting.{Replaces, replaced};
ghost use Rattle.lfs_parts.specs.Waiting.{waiting_in, without};

use crate::oldest::{Oldest, oldest_of};
use lfs_inodes::inode::Inode;
use lfs_log::packing::SLOT_COUNT;
use lfs_types::limits::MOST_INODES;
use std::alloc::{AllocError, Global};
use std::collections::VecDeque;
use std::marker::Model;

/// The greatest number of inode records that wait to be written (this project's profile).
pub const WAITING_LIMIT: usize = 64;

/// At most `WAITING_LIMIT` inode records, each of another number, newest first. Contracts see a list.
/// That a number has none is told without a search, and a record at either end comes and goes without
/// a move of the others.
#[derive(Drop)]
pub struct Records {
    records: VecDeque<Inode>,
    // For each number whether one of the records is of it.
    waits: Vec<bool>,
}

impl Model for Records {
    ghost use Rattle.std.specs.Prelude.{List};
    ghost use Rattle.lfs_inodes.specs.declared.inode.Inode.{Inode};

    ghost Value = { List Inode };

    ghost use Rattle.std.specs.VecDeque.{deque_capacity};
    ghost use Rattle.lfs_parts.specs.Waiting.{IsRecords};

    ghost view = { λ r. r.records.items };

    ghost invariant = { λ r. IsRecords r.records.items r.waits.items (deque_capacity r.records) };
}

/// Takes the first record of a number off a list.
fn drop_record(records: &mut VecDeque<Inode>, number: u32)
    ensures items { records.new.items ≡ without number records.old.items }
    ensures capacity { deque_capacity records.new ≡ deque_capacity records.old }
{
    for place in 0..records.len() {
        if records[place].number == number {
            let _dropped = records.remove(place);
            return;
        }
    }
}

/// Takes the first record of a number off a list, where it is known whether there is one.
fn drop_known(records: &mut VecDeque<Inode>, number: u32, waits: bool)
    requires { waits ≡ is_some (waiting_in records.old.items number) }
    ensures items { records.new.items ≡ without number records.old.items }
    ensures capacity { deque_capacity records.new ≡ deque_capacity records.old }
{
    if waits {
        drop_record(records, number);
    }
}

/// The first record of a number on a list, if there is one. By places: an iterator over the two halves of a ring takes more
/// instructions for each record.
fn find_record(records: &VecDeque<Inode>, number: u32) -> Option<Inode>
    ensures { result ≡ waiting_in records.now.items number }
{
    for place in 0..records.len() {
        if records[place].number == number {
            return Some(records[place]);
        }
    }
    None
}

/// Puts a record in the place of the one of its number.
fn replace_record(records: &mut VecDeque<Inode>, changed: Inode)
    requires { IsSome (waiting_in records.old.items changed.number) }
    ensures items { records.new.items ≡ replaced records.old.items changed }
    ensures record { Replaces records.old.items records.new.items changed }
    ensures capacity { deque_capacity records.new ≡ deque_capacity records.old }
{
    let place = records
        .iter()
        .position(|inode| inode.number == changed.number);
    match place {
        Some(place) => records[place] = changed,
        // Never: one of its number waits, as is required.
        None => unreachable!(),
    }
}

impl Records {
    /// No records. All room is taken here.
    pub fn new(alloc: Global) -> Result<Records, AllocError>
        ensures { IfOk result (λ records. records ≡ []) }
    {
        let records = VecDeque::with_capacity(alloc, WAITING_LIMIT)?;
        let waits = Vec::from_elem(alloc, false, MOST_INODES as usize)?;
        Ok(Records { records, waits })
    }

    /// How many records there are.
    pub fn len(&self) -> usize
        ensures { result ≡ length self.now }
    {
        self.records.len()
    }

    /// Whether there is none.
    pub fn is_empty(&self) -> bool
        ensures { result ≡ (length self.now == 0) }
    {
        self.records.is_empty()
    }

    /// The records that have waited longest: the last of them, at most `SLOT_COUNT`, in their order.
    /// There must be one.
    pub fn oldest(&self) -> Oldest
        requires { 0 < length self.now }
        ensures { result ≡ drop (length self.now - SLOT_COUNT) self.now }
    {
        oldest_of(&self.records)
    }

    /// The record of a number, if there is one.
    pub fn find(&self, number: u32) -> Option<Inode>
        ensures { result ≡ waiting_in self.now number }
    {
        if self.has(number) {
            find_record(&self.records, number)
        } else {
            None
        }
    }

    /// Whether there is a record of a number.
    fn has(&self, number: u32) -> bool
        ensures { result ≡ is_some (waiting_in self.now number) }
    {
        number < MOST_INODES && self.waits[number as usize]
    }

    /// Puts a record first, in place of any other of its number.
    pub fn put(&mut self, inode: Inode)
        requires numbered { inode.number < most_inodes }
        requires room { length (without inode.number self.old) < WAITING_LIMIT }
        ensures { self.new ≡ inode ∷ without inode.number self.old }
    {
        let number = inode.number;
        let waits = self.has(number);
        drop_known(&mut self.records, number, waits);
        self.records.push_front_reserved(inode);
        self.waits[number as usize] = true;
    }

    /// Takes the record of a number away, if there is one.
    pub fn remove(&mut self, number: u32)
        ensures { self.new ≡ without number self.old }
    {
        if self.has(number) {
            drop_record(&mut self.records, number);
            self.waits[number as usize] = false;
        }
    }

    /// Puts a record in the place of the one of its number.
    pub fn replace(&mut self, changed: Inode)
        requires { IsSome (waiting_in self.old changed.number) }
        ensures items { self.new ≡ replaced self.old changed }
        ensures record { Replaces self.old self.new changed }
    {
        replace_record(&mut self.records, changed);
    }

    /// Takes the last record away, of at least one.
    pub fn pop(&mut self) -> Inode
        requires { 0 < length self.old }
        ensures { self.old ≡ self.new ++ result ∷ [] }
    {
        match self.records.pop_back() {
            Some(inode) => {
                self.waits[inode.number as usize] = false;
                inode
            }
            // Never: there is one, as is required.
            None => unreachable!(),
        }
    }
}
