//! A walk along names, from the root on.

ghost use Rattle.std.specs.Prelude.{◌≡◌, ◌<◌, ◌↔◌, ℕ, IfOk, OnOk, false, length, slice_index_or, true};
ghost use Rattle.lfs_types.specs.Ranges.{most_inodes};
ghost use Rattle.lfs_dirs.specs.Reading.{entries_of};
ghost use Rattle.lfs_reach.specs.Reach.{IsListed, IsNamedBy, Reaches};
ghost use Rattle.lfs_reach.specs.Walks.{Adds, IsWalk};

use crate::blocks::{bytes_at, file_address, record_of};
use lfs_dirs::entries;
use lfs_recovery::RecordPlace;
use lfs_segments::segments::Segments;
use lfs_types::block::Block;
use lfs_types::limits::{MOST_INODES, ROOT_INODE};
use std::alloc::{AllocError, Global};

/// For each inode number whether names lead to it from the root on, where the record of each number stands at the place
/// that a table tells. Each directory that is reached is read once.
pub fn reached(
    alloc: Global,
    memory: &Segments,
    places: &[Option<RecordPlace>],
) -> Result<Vec<bool>, AllocError>
    requires long { length places.now ≡ most_inodes }
    ensures long { IfOk result (λ marks. length marks.items ≡ most_inodes) }
    ensures reached { IfOk result (λ marks. (n : ℕ) →
        (slice_index_or marks.items n false ≡ true) ↔ Reaches memory.now places.now n) }
{
    let mut marks = vec![in alloc; false; MOST_INODES as usize]?;
    let mut order = Vec::new(alloc);
    reach(&mut marks, &mut order, ROOT_INODE)?;
    let mut done = 0;
    while done < order.len() {
        let number = order[done] as usize;
        reach_named(&mut marks, &mut order, memory, &places[number])?;
        done += 1;
    }
    Ok(marks)
}

/// Reaches what the record at a place names, where it is a directory's.
fn reach_named(
    marks: &mut Vec<bool>,
    order: &mut Vec<u32>,
    memory: &Segments,
    place: &Option<RecordPlace>,
) -> Result<(), AllocError>
    requires { IsWalk marks.old.items order.old.items }
    ensures walk { OnOk result (IsWalk marks.new.items order.new.items) }
    ensures added { OnOk result (Adds (IsNamedBy memory.now place.now) order.old.items order.new.items) }
{
    let Some(inode) = record_of(memory, place) else {
        return Ok(());
    };
    if !inode.kind.is_directory() {
        return Ok(());
    }
    for index in 0..inode.blocks() {
        let address = file_address(memory, &inode, index);
        reach_listed(marks, order, bytes_at(memory, address))?;
    }
    Ok(())
}

/// Reaches what a block lists.
fn reach_listed(
    marks: &mut Vec<bool>,
    order: &mut Vec<u32>,
    block: &Block,
) -> Result<(), AllocError>
    requires { IsWalk marks.old.items order.old.items }
    ensures walk { OnOk result (IsWalk marks.new.items order.new.items) }
    ensures added { OnOk result
        (Adds (IsListed (entries_of block.now)) order.old.items order.new.items) }
{
    for (number, _) in entries(block) {
        if number < MOST_INODES {
            reach(marks, order, number)?;
        }
    }
    Ok(())
}

/// Reaches a number.
fn reach(marks: &mut Vec<bool>, order: &mut Vec<u32>, number: u32) -> Result<(), AllocError>
    requires below { number < most_inodes }
    requires walk { IsWalk marks.old.items order.old.items }
    ensures walk { OnOk result (IsWalk marks.new.items order.new.items) }
    ensures added { OnOk result (Adds (λ n. n ≡ number) order.old.items order.new.items) }
{
    if !marks[number as usize] {
        order.push(number)?;
        marks[number as usize] = true;
    }
    Ok(())
}
