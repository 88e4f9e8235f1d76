//! What a disk is told while a memory is written out.

use crate::{Call, MemoryDisk, Mirror, read_all};
use lfs_segments::segments::Segments;
use lfs_types::block::{BLOCK_SIZE, Block};
use std::alloc::{AllocError, Global};
use std::test::Fail;

const SUMMARY: Block = [1; BLOCK_SIZE];

const DATA: Block = [2; BLOCK_SIZE];

/// The addresses of writes, and `sync` for a sync, each with a blank behind it.
fn shown(alloc: Global, calls: &[Call]) -> Result<String, AllocError> {
    let mut text = String::new(alloc);
    for call in calls {
        match call {
            Call::Written { address, .. } => write!(text, "{address} ")?,
            Call::Synced => text.push_str("sync ")?,
        }
    }
    Ok(text)
}

#[test]
fn blocks_land_before_their_summary(rt: HostRuntime) -> Result<(), Fail> {
    let alloc = rt.alloc();
    let mut memory = Segments::format(alloc, 6, 16)?;
    let disk = MemoryDisk::holding(alloc, &memory)?;
    let mut mirror = Mirror::over(disk, &memory);
    memory.append(&[SUMMARY, DATA, DATA]);
    mirror.write_out(&memory)?;
    let told = shown(alloc, mirror.disk().calls())?;
    assert_eq!(rt; told.as_str(), "2 3 sync 1 sync ");
    let mut disk = mirror.into_disk();
    let blocks = read_all(alloc, &mut disk, 384)?;
    assert!(rt; blocks.get(1) == Some(&SUMMARY));
    assert!(rt; blocks.get(3) == Some(&DATA));
    Ok(())
}

#[test]
fn an_opened_segment_begins_with_zeros(rt: HostRuntime) -> Result<(), Fail> {
    let alloc = rt.alloc();
    let mut memory = Segments::format(alloc, 6, 16)?;
    let disk = MemoryDisk::holding(alloc, &memory)?;
    let mut mirror = Mirror::over(disk, &memory);
    memory.open_next(3);
    memory.append(&[SUMMARY, DATA]);
    mirror.write_out(&memory)?;
    let told = shown(alloc, mirror.disk().calls())?;
    assert!(rt; told.as_str().starts_with("192 sync 193 194 195 "));
    assert!(rt; told.as_str().ends_with("254 255 sync 192 sync "));
    Ok(())
}
