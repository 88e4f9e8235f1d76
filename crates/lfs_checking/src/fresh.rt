//! A store that is laid out anew.

ghost use Rattle.std.specs.Prelude.{◌≡◌, ◌↔◌, IfOk, IsErrOf};
ghost use Rattle.lfs_found.specs.Written.{IsRecoverable};
ghost use Rattle.lfs_parts.specs.Opening.{IsTooFew, IsTooMany};
ghost use Rattle.lfs_segwrite.specs.Ordered.{IsOrdered};
ghost use Rattle.lfs_logstore.specs.States.{opening_state, state_of};
ghost use Rattle.lfs_checking.specs.Files.{IsFreshStore};

use lfs_logstore::LogStore;
use lfs_types::fault::FormatFault;
use lfs_types::store::Params;
use std::alloc::Global;

/// A store with the root directory alone, of the sizes that are told. Its summaries have serials, the first 1, where
/// they are asked for, and else none.
///
/// # Errors
///
/// `TooFew` and `TooMany` for a size out of its range; `Memory` where a growth was refused.
pub fn fresh_store(alloc: Global, params: Params, serials: bool) -> Result<LogStore, FormatFault>
    ensures too_few { IsErrOf result FormatFault.TooFew
        ↔ IsTooFew params.segments params.inodes params.frames }
    ensures too_many { IsErrOf result FormatFault.TooMany
        ↔ IsTooMany params.segments params.inodes params.frames }
    ensures opening { IfOk result (λ store.
        state_of store ≡ opening_state params.segments params.inodes) }
    ensures laid_out { IfOk result (IsFreshStore serials params) }
    // With serials it can be found again in its blocks: all that was written is whole, and each number's latest record
    // stands where the inode map has it.
    ensures whole { IfOk result (λ store. IsRecoverable store.log.memory) }
    ensures ordered { IfOk result (λ store. IsOrdered store.log) }
{
    if serials {
        LogStore::format_with_serials(alloc, params)
    } else {
        LogStore::format(alloc, params)
    }
}
