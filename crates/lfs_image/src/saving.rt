//! Writing an image.

ghost use Rattle.std.specs.Prelude.{◌≡◌, ◌++◌, OnOk};
ghost use Rattle.std.specs.List.{flat_map};
ghost use Rattle.lfs_image.specs.Image.{head_bytes, head_of, image_bytes};

use crate::head::Head;
use lfs_log::Log;
use lfs_types::level::Level;
use lfs_types::limits::SEGMENT_BLOCKS;
use std::alloc::AllocError;

/// Adds the image of a log and a securelevel to some bytes: the head, each block, the ifile. What waits over the log is no
/// part of it. After an `AllocError` some of it may be there.
pub fn save(log: &Log, level: Level, out: &mut Vec<u8>) -> Result<(), AllocError>
    ensures { OnOk result (out.new.items ≡ out.old.items ++ image_bytes log.now level) }
{
    push_head(log, level, out)?;
    push_blocks(log, out)?;
    let ifile = log.ifile_bytes()?;
    out.extend_from_slice(&ifile)
}

/// Adds the head.
fn push_head(log: &Log, level: Level, out: &mut Vec<u8>) -> Result<(), AllocError>
    ensures { OnOk result (out.new.items ≡ out.old.items ++ head_bytes (head_of log.now level)) }
{
    let block = Head::of(log, level).block();
    out.extend_from_slice(&block)
}

/// Adds each block, in the order of their addresses.
fn push_blocks(log: &Log, out: &mut Vec<u8>) -> Result<(), AllocError>
    ensures { OnOk result (out.new.items ≡ out.old.items
        ++ flat_map (λ block. block) log.now.memory.blocks) }
{
    for address in 0..log.segments() * SEGMENT_BLOCKS {
        out.extend_from_slice(log.block(address))?;
    }
    Ok(())
}
