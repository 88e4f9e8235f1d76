//! Whether what waits fits what the active segment has left, with changes too.

ghost use Rattle.std.specs.Prelude.{◌≡◌, ◌≤◌, ◌↔◌, All, IsTrue, length};
ghost use Rattle.lfs_parts.specs.Store.{IsStore};
ghost use Rattle.lfs_segwrite.specs.Applying.{IsInReach};
ghost use Rattle.lfs_durable_store.specs.Fitting.{Fits, FitsWith, frames_at_most, frames_of_all_at_most};

use lfs_cache::LOCKED_LIMIT;
use lfs_parts::parts::Parts;
use lfs_parts::records::WAITING_LIMIT;
use lfs_segwrite::collecting::blocks_to_write;
use lfs_staging::cutting::CUT_FRAMES;
use lfs_types::store::Change;

/// Whether what waits fits what the active segment has left.
pub(crate) fn fits(parts: &Parts) -> bool
    requires { IsStore parts.now }
    ensures { IsTrue result ↔ Fits parts.now }
{
    blocks_to_write(parts) <= parts.log.room()
}

/// Frames that a change never takes more of. A put of n bytes takes (n + 2558) / 512 at most, with what leads to its
/// blocks.
fn frames_at_most(change: &Change<'_>) -> usize
    requires { IsInReach change.now }
    ensures frames { result ≡ frames_at_most change.now }
    ensures few { result ≤ 12 }
{
    match *change {
        Change::Make { .. } | Change::SetAttrs { .. } => 0,
        Change::Remove { .. } | Change::SetLength { .. } => CUT_FRAMES,
        Change::Put { bytes, .. } => {
            if bytes.is_empty() {
                0
            } else {
                (bytes.len() + 2558) / 512
            }
        }
    }
}

/// Frames that changes never take more of.
fn frames_of_all_at_most(changes: &[Change<'_>]) -> usize
    requires reach { All IsInReach changes.now }
    requires few { length changes.now ≤ 4 }
    ensures frames { result ≡ frames_of_all_at_most changes.now }
    ensures few { result ≤ 48 }
{
    let mut frames = 0;
    for change in changes {
        frames += frames_at_most(change);
    }
    frames
}

/// Whether with changes no more waits than may, and it is sure to fit the active segment.
pub(crate) fn fits_with(parts: &Parts, changes: &[Change<'_>]) -> bool
    requires store { IsStore parts.now }
    requires reach { All IsInReach changes.now }
    requires few { length changes.now ≤ 4 }
    ensures { IsTrue result ↔ FitsWith changes.now parts.now }
{
    let frames = parts.cache.locked_count() + frames_of_all_at_most(changes);
    let records = parts.waiting.len() + changes.len();
    if frames > LOCKED_LIMIT || records > WAITING_LIMIT {
        return false;
    }
    frames + records.div_ceil(4) + 1 <= parts.log.room() as usize
}
