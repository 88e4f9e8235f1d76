//! The times of each inode number.

ghost use Rattle.std.specs.Prelude.{◌≡◌, IfOk, replicate, slice_set};
ghost use Rattle.lfs_stamps.specs.Stamps.{born, epoch};
ghost use Rattle.lfs_stamps.specs.Times.{dated, dated_attr, dated_entry, marked, marked_by, stamped, stamps_of, with_times};

use crate::change::{Change, Mark};
use crate::stamps::Stamps;
use lfs_fuse_calls::told::Told;
use lfs_fuse_reply::attr::{Attr, Entry};
use lfs_fuse_wire::attributes::Time;
use std::alloc::{AllocError, Global};

/// Where 1970 begins.
const EPOCH: Time = Time {
    seconds: 0,
    nanoseconds: 0,
};

/// The times of each inode number of a volume. They are kept beside it, and go with the mount.
#[derive(Drop)]
pub struct Times {
    stamps: Vec<Stamps>,
}

/// What a change of a node makes of its times.
fn marked_by(mark: &Mark, now: Time, stamps: Stamps) -> Stamps
    ensures { result ≡ marked_by mark.now now stamps }
{
    match mark {
        Mark::Written => stamps.written(now),
        Mark::Restated => stamps.restated(now),
        Mark::Set(fields) => stamps.set(now, fields),
    }
}

/// Attributes, with these times.
fn with_times(attr: Attr, stamps: Stamps) -> Attr
    ensures { result ≡ with_times attr stamps }
{
    Attr {
        accessed: stamps.accessed,
        modified: stamps.modified,
        changed: stamps.changed,
        ..attr
    }
}

impl Times {
    /// So many inode numbers, whose files are made now.
    pub fn new(alloc: Global, numbers: u32, now: Time) -> Result<Times, AllocError>
        ensures { IfOk result (λ times. times.stamps.items ≡ replicate numbers (born now)) }
    {
        let stamps = Vec::from_elem(alloc, Stamps::born(now), numbers as usize)?;
        Ok(Times { stamps })
    }

    /// The times of a number.
    pub fn of(&self, number: u64) -> Stamps
        ensures { result ≡ stamps_of self.now.stamps.items number }
    {
        match self.stamps.as_slice().get(number as usize) {
            Some(stamps) => *stamps,
            None => Stamps::born(EPOCH),
        }
    }

    /// Gives a number these times; of a number that there isn't nothing is kept.
    fn put(&mut self, number: u64, stamps: Stamps)
        ensures { self.new.stamps.items ≡ slice_set self.old.stamps.items number stamps }
    {
        let number = number as usize;
        if number < self.stamps.len() {
            self.stamps[number] = stamps;
        }
    }

    /// Marks a change of a number's file, if there is one.
    fn mark(&mut self, now: Time, number: Option<u32>, mark: &Mark)
        ensures { self.new.stamps.items ≡ marked now number mark.now self.old.stamps.items }
    {
        if let Some(number) = number {
            let number = u64::from(number);
            let stamps = marked_by(mark, now, self.of(number));
            self.put(number, stamps);
        }
    }

    /// What a message makes of the times, which changed the file of a number, or the directories of two.
    pub fn stamp(&mut self, now: Time, row: Option<u32>, other: Option<u32>, change: &Change)
        ensures { self.new.stamps.items ≡ stamped now row other change.now self.old.stamps.items }
    {
        match change {
            Change::Nothing => (),
            Change::Node(mark) => self.mark(now, row, mark),
            Change::Made(number) => {
                self.put(*number, Stamps::born(now));
                self.mark(now, row, &Mark::Written);
            }
            Change::Moved => {
                self.mark(now, row, &Mark::Written);
                self.mark(now, other, &Mark::Written);
            }
        }
    }

    /// Attributes, with the times of their number.
    fn dated_attr(&self, attr: Attr) -> Attr
        ensures { result ≡ dated_attr self.now.stamps.items attr }
    {
        let stamps = self.of(attr.inode);
        with_times(attr, stamps)
    }

    /// What is told, with the times of the files whose attributes it tells.
    pub fn dated(&self, told: Told) -> Told
        ensures { result ≡ dated self.now.stamps.items told }
    {
        match told {
            Told::Attr(attr) => Told::Attr(self.dated_attr(attr)),
            Told::Entry(entry) => Told::Entry(self.dated_entry(entry)),
            Told::Create(entry, opened) => Told::Create(self.dated_entry(entry), opened),
            other => other,
        }
    }

    /// An entry, with the times of its number.
    fn dated_entry(&self, entry: Entry) -> Entry
        ensures { result ≡ dated_entry self.now.stamps.items entry }
    {
        Entry {
            attr: self.dated_attr(entry.attr),
            ..entry
        }
    }
}
