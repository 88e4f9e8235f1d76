//! Room in the log for what is to be written.

ghost use Rattle.std.specs.Prelude.{◌≡◌, ◌+◌, ◌<◌, ◌≤◌, OnErr, OnOk};
ghost use Rattle.lfs_types.specs.declared.limits.TheConstants.{SEGMENT_BLOCKS};
ghost use Rattle.lfs_ifile.specs.declared.segment.SegState.TheVariants.{Clean};
ghost use Rattle.lfs_log.specs.Parts.{state_of};
ghost use Rattle.lfs_segments.specs.Memory.{room_of};
ghost use Rattle.lfs_segwrite.specs.Room.{KeepsFiles, OpensSegment};
ghost use Rattle.lfs_parts.specs.Store.{IsStore};

use lfs_parts::parts::Parts;
use lfs_types::limits::SEGMENT_BLOCKS;

/// The blocks that a segment has behind its label at least.
pub const WHOLE: u32 = SEGMENT_BLOCKS - 1;

/// The blocks that stay when room is kept for a segment to be finished, beside those that this takes.
pub const SPARE: u32 = 12;

/// Those that stay behind what users give back, so that the cleaner and the superuser have some.
pub const USERS_SPARE: u32 = 32;

/// The log has no room: too few blocks are left in the active segment, and no segment may be opened.
#[derive(Clone, Copy, PartialEq, Eq, Debug)]
pub struct RoomFault;

/// Makes room in the active segment for so many blocks, at most 63. Where it has fewer left, a
/// clean segment is opened; where none is clean, nothing changes.
pub fn make_room(parts: &mut Parts, blocks: u32) -> Result<(), RoomFault>
    requires store { IsStore parts.old }
    requires at_most { blocks < SEGMENT_BLOCKS }
    ensures store { IsStore parts.new }
    ensures files { KeepsFiles parts.old parts.new }
    ensures room { OnOk result (blocks ≤ room_of parts.new.log.memory) }
    ensures enough { blocks ≤ room_of parts.old.log.memory → parts.new ≡ parts.old }
    ensures opened { OnOk result (room_of parts.old.log.memory < blocks
        → (parts.new.log.clean + 1 ≡ parts.old.log.clean)
        × (state_of parts.old.log.tables parts.new.log.memory.active ≡ Clean)) }
    ensures fresh { OnOk result (room_of parts.old.log.memory < blocks
        → SEGMENT_BLOCKS ≤ room_of parts.new.log.memory + 1) }
    ensures refused { OnErr result (parts.new ≡ parts.old) }
    ensures short { OnErr result (room_of parts.old.log.memory < blocks) }
    ensures none { OnErr result (parts.old.log.clean ≡ 0) }
{
    if parts.log.room() >= blocks {
        return Ok(());
    }
    if parts.log.clean() == 0 {
        return Err(RoomFault);
    }
    open_segment(parts);
    Ok(())
}

/// Opens a clean segment, of which there is one: the active one has too little room left.
fn open_segment(parts: &mut Parts)
    requires store { IsStore parts.old }
    requires some { 0 < parts.old.log.clean }
    ensures { OpensSegment parts.old parts.new }
{
    match parts.log.open() {
        Some(_) => {}
        // Never: by `some`.
        None => unreachable!(),
    }
}
