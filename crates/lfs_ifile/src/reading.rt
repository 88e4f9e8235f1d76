//! Reading an ifile's bytes, whoever made them.

ghost use Rattle.std.specs.Prelude.{◌≡◌, ◌+◌, ◌≤◌, ◌↔◌, length, IsTrue, IfNone, IfSome};
ghost use Rattle.lfs_ifile.specs.declared.segment.SegUse.{SegUse};
ghost use Rattle.lfs_ifile.specs.Layout.{number_at, IsLaidOut, ReadsUse};

use crate::segment::{SegState, SegUse};

/// `LFIF`, with which an ifile's bytes begin.
pub(crate) const MAGIC: u32 = 0x4c46_4946;

/// The number in the four bytes from a place on, the highest first.
#[tactic(auto, unfolding(crate::specs::Layout::number_at))]
pub(crate) fn number_at(bytes: &[u8], place: usize) -> u32
    requires { place + 4 ≤ length bytes.now }
    ensures { result ≡ number_at bytes.now place }
{
    u32::from_be_bytes([
        bytes[place],
        bytes[place + 1],
        bytes[place + 2],
        bytes[place + 3],
    ])
}

/// Whether the first four bytes and the length are those of an ifile.
pub(crate) fn is_laid_out(bytes: &[u8]) -> bool
    ensures { IsTrue result ↔ IsLaidOut bytes.now }
{
    if bytes.len() < 12 || number_at(bytes, 0) != MAGIC {
        return false;
    }
    let segments = u64::from(number_at(bytes, 4));
    let inodes = u64::from(number_at(bytes, 8));
    bytes.len() as u64 == 12 + 8 * segments + 12 * inodes
}

/// How a segment is used by an ifile's bytes; `None` where the first four bytes, the length or that
/// segment's state isn't that of an ifile, or where it has no such segment. The live bytes are the
/// number that stands there, whatever it is.
pub fn usage_in(bytes: &[u8], seg: u32) -> Option<SegUse>
    ensures some { IfSome result (ReadsUse bytes.now seg) }
    ensures none { IfNone result ((any : SegUse) → ¬ ReadsUse bytes.now seg any) }
{
    if !is_laid_out(bytes) || seg >= number_at(bytes, 4) {
        return None;
    }
    let place = 12 + 8 * seg as usize;
    let state = SegState::from_number(number_at(bytes, place + 4))?;
    Some(SegUse {
        live: number_at(bytes, place),
        state,
    })
}
