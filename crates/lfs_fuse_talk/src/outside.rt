//! What a mount asks of the world outside: the time, and the groups of a process.

ghost use Rattle.std.specs.Prelude.{◌≡◌, ℕ, List, Option, IfOk};
ghost use Rattle.std.specs.Option.{option_map};
ghost use Rattle.lfs_fuse_wire.specs.declared.attributes.Time.{Time};
ghost use Rattle.lfs_fuse_wire.specs.declared.header.Header.{Header};

use crate::groups::others;
use crate::statuses::Statuses;
use lfs_fuse_wire::attributes::Time;
use lfs_fuse_wire::header::Header;
use std::alloc::{AllocError, Global};
use std::os::unix::fs::FileExt;
use std::rt::Files;
use std::time::{Clock, SystemTime, UNIX_EPOCH};

/// The world outside a mount.
pub trait Outside {
    /// Which time it tells, and what it is then.
    ghost time: { Self → Time → Self → Type 0 };
    /// Which groups it tells of a message's process, if any, and what it is then.
    ghost groups: { Self → Header → Option (List ℕ) → Self → Type 0 };

    /// The present time.
    fn now(&mut self) -> Time
        ensures { time self.old result self.new };

    /// The groups of the process of a message but that of its header, at most 15; `None` where they can't be known.
    fn others(&mut self, alloc: Global, header: &Header) -> Result<Option<Vec<u32>>, AllocError>
        ensures { IfOk result (λ found. groups self.old header.now
            (option_map (λ others. others.items) found) self.new) };
}

/// The system: its clock, and its processes' files beneath `/proc`.
#[derive(Drop)]
pub struct System<'a, S: Files + Clock> {
    system: &'a S,
    /// The last time that its clock read.
    last: Time,
    /// The files of the processes whose groups were asked for.
    statuses: Statuses<S::File>,
}

impl<'a, S: Files + Clock> System<'a, S>
where
    S::File: FileExt,
{
    /// This system, whose clock has not been read.
    pub fn of(alloc: Global, system: &'a S) -> System<'a, S>
        ensures system { result.system.now ≡ system.now }
        ensures last { result.last ≡ record { seconds = 0; nanoseconds = 0 } }
    {
        System {
            system,
            last: Time {
                seconds: 0,
                nanoseconds: 0,
            },
            statuses: Statuses::new(alloc),
        }
    }
}

/// What a clock reads, if it reads.
fn time_of<S: Clock>(clock: &S) -> Option<Time> {
    let now = SystemTime::now(clock).ok()?;
    let since = now.duration_since(UNIX_EPOCH).ok()?;
    Some(Time {
        seconds: since.as_secs(),
        nanoseconds: since.subsec_nanos(),
    })
}

impl<S: Files + Clock> Outside for System<'_, S>
where
    S::File: FileExt,
{
    ghost use Rattle.lfs_fuse_talk.specs.Worlds.{any_groups, any_time};

    ghost time = { any_time };

    ghost groups = { any_groups };

    /// What the clock reads; the last time that it read, where it doesn't.
    fn now(&mut self) -> Time {
        if let Some(time) = time_of(self.system) {
            self.last = time;
        }
        self.last
    }

    fn others(&mut self, alloc: Global, header: &Header) -> Result<Option<Vec<u32>>, AllocError> {
        others(alloc, self.system, &mut self.statuses, header)
    }
}

/// A recorded talk, whose processes are gone: no group is known but that of a message, and each look at the time is a
/// second behind the one before.
#[derive(Drop)]
pub struct Recording {
    seconds: u64,
}

impl Recording {
    /// The beginning of a talk, at second 0 of 1970.
    pub fn new() -> Recording
        ensures { result ≡ record { seconds = 0 } }
    {
        Recording { seconds: 0 }
    }
}

impl Outside for Recording {
    ghost use Rattle.lfs_fuse_talk.specs.Worlds.{no_groups, recorded_time};

    ghost time = { recorded_time };

    ghost groups = { no_groups };

    fn now(&mut self) -> Time {
        let seconds = self.seconds;
        self.seconds = seconds.saturating_add(1);
        Time {
            seconds,
            nanoseconds: 0,
        }
    }

    fn others(&mut self, alloc: Global, _header: &Header) -> Result<Option<Vec<u32>>, AllocError> {
        Ok(Some(Vec::new(alloc)))
    }
}
