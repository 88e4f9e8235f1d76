//! The calls that are timed.

ghost use Rattle.std.specs.Prelude.{◌<◌};

use crate::scale::Scale;
use crate::step::{STRANGER, Spot, Step, Verb};
use crate::workload::UserLoad;
use lfs_types::block::BLOCK_SIZE;
use lfs_types::limits::TRANSFER_BYTES;
use lfs_types::request::Place;

/// How many bytes a small Write puts.
pub const SMALL: u32 = 16;

/// How many bytes a Write at the end of a large file puts.
const BLOCK: u32 = BLOCK_SIZE as u32;

/// The most bytes that a call reads or writes.
pub const LARGE: u32 = TRANSFER_BYTES as u32;

/// How many calls of different kinds a mixed workload has before it begins anew.
const KINDS: u32 = 8;

/// The file that is read and written.
const FIRST: Spot = Spot::File(0);

/// The call of this index of a workload.
pub fn timed_step(scale: &Scale, load: UserLoad, index: u32) -> Step {
    let is_even = index % 2 == 0;
    let (spot, verb) = match load {
        UserLoad::StatDeep => (Spot::File(index % scale.names), Verb::Stat),
        UserLoad::ReadHot => (FIRST, read(scale, index)),
        UserLoad::Write4k => (FIRST, write(scale, index, LARGE)),
        UserLoad::WriteSmall => (FIRST, write(scale, index, SMALL)),
        UserLoad::WriteSync if is_even => (FIRST, write(scale, index / 2, SMALL)),
        UserLoad::WriteSync => (Spot::Root, Verb::Sync),
        UserLoad::CreateUnlink if is_even => (Spot::Made, Verb::Create),
        UserLoad::CreateUnlink => (Spot::Made, Verb::Unlink),
        UserLoad::Rename if is_even => (FIRST, Verb::Rename(Spot::Moved)),
        UserLoad::Rename => (Spot::Moved, Verb::Rename(FIRST)),
        UserLoad::ListLarge => (last_directory(scale), Verb::List),
        UserLoad::Deny => return denied_step(scale, index),
        UserLoad::Mixed => return mixed_step(scale, index),
        UserLoad::LargeWrite if is_even => (FIRST, last_write(scale)),
        UserLoad::LargeWrite => (Spot::Root, Verb::Sync),
        UserLoad::LargeRead => (FIRST, last_read(scale)),
        UserLoad::LargeCut => (FIRST, Verb::SetLength(0)),
    };
    Step::new(spot, verb)
}

/// The call of this index in the mixed workload.
fn mixed_step(scale: &Scale, index: u32) -> Step {
    let (spot, verb) = match index % KINDS {
        0 => (Spot::File(index % scale.names), Verb::Stat),
        1 => (FIRST, read(scale, index)),
        2 => (FIRST, write(scale, index, SMALL)),
        3 => (Spot::Made, Verb::Create),
        4 => (Spot::Made, Verb::Rename(Spot::Moved)),
        5 => (last_directory(scale), Verb::List),
        6 => return denied_step(scale, index),
        _ => (Spot::Moved, Verb::Unlink),
    };
    Step::new(spot, verb)
}

/// A small Write of a user who may not make it.
fn denied_step(scale: &Scale, index: u32) -> Step {
    Step {
        user: STRANGER,
        spot: FIRST,
        verb: write(scale, index, SMALL),
    }
}

/// A Read of the block of 4,096 bytes whose turn it is.
pub fn read(scale: &Scale, index: u32) -> Verb {
    Verb::Read(offset(scale, index, LARGE), LARGE)
}

/// A Write over the bytes whose turn it is.
pub fn write(scale: &Scale, index: u32, size: u32) -> Verb
    requires { 0 < size }
{
    Verb::Write(Place::At(offset(scale, index, size)), size)
}

/// A Write of the last 512 bytes of the file.
fn last_write(scale: &Scale) -> Verb {
    let off = scale.bytes.saturating_sub(BLOCK);
    Verb::Write(Place::At(u64::from(off)), BLOCK)
}

/// A Read of the last 4,096 bytes of the file.
fn last_read(scale: &Scale) -> Verb {
    Verb::Read(u64::from(scale.bytes.saturating_sub(LARGE)), LARGE)
}

/// Where the bytes begin whose turn it is. They go through the file again and again, and never beyond its end.
fn offset(scale: &Scale, index: u32, size: u32) -> u64
    requires { 0 < size }
{
    let places = (scale.bytes / size).max(1);
    u64::from(index % places) * u64::from(size)
}

/// The directory that has the files.
fn last_directory(scale: &Scale) -> Spot {
    Spot::Directory(scale.components.saturating_sub(1))
}
