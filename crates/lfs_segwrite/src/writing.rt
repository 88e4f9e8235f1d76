//! Writing what waits.

ghost use Rattle.lfs_segwrite.specs.Applying.{HasRoom, WritesWaiting};
ghost use Rattle.lfs_parts.specs.Store.{IsStore};

use crate::collecting::blocks_to_write;
use crate::flushing::flush;
use crate::room::make_room;
use lfs_parts::parts::Parts;

/// Writes all that waits, in a segment that is opened where the active one has too little room left.
pub fn write_waiting(parts: &mut Parts)
    requires store { IsStore parts.old }
    requires room { HasRoom parts.old }
    ensures { WritesWaiting parts.old parts.new }
{
    let blocks = blocks_to_write(parts);
    match make_room(parts, blocks) {
        Ok(()) => flush(parts),
        // Never: by `HasRoom`.
        Err(_) => unreachable!(),
    }
}
