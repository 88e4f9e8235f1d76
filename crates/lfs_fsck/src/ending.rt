//! Where the log ends.

ghost use Rattle.std.specs.Prelude.{◌≡◌, ◌↔◌, ◌+◌, ◌*◌, ◌<◌, ◌≤◌, ℕ, [], Some, IsTrue, IfErr, OnOk};
ghost use Rattle.lfs_types.specs.Blocks.{zero_block};
ghost use Rattle.lfs_segments.specs.Log.{Expects, expected_at};
ghost use Rattle.lfs_segments.specs.Memory.{block_at, next_address};
ghost use Rattle.lfs_fsck.specs.Faults.{IsFileFaultOf};

use crate::bytes::is_zeros;
use crate::fault::LogFault;
use crate::reader::Reader;
use lfs_log::Log;
use lfs_segments::segments::log_start;
use lfs_types::limits::SEGMENT_BLOCKS;

/// Unfinished or NotZeros where the active segment's log doesn't go on with a summary, over zeros.
pub(crate) fn check_end(log: &Log) -> Result<(), LogFault>
    ensures ok { OnOk result (Expects log.now.memory []) }
    ensures fault { IfErr result (IsFileFaultOf log.now) }
{
    if goes_on(log) {
        check_zeros(log)
    } else {
        Err(LogFault::Unfinished {
            segment: log.active(),
        })
    }
}

/// Whether the active segment's log goes on with a summary where the next block is put.
fn goes_on(log: &Log) -> bool
    ensures { IsTrue result
        ↔ expected_at log.now.memory log.now.memory.active (next_address log.now.memory) ≡ Some [] }
{
    let mut reader = Reader::start();
    let active = log.active();
    for address in active * SEGMENT_BLOCKS + log_start(active)..log.next_address() {
        reader.pass(log.block(address), log.has_serials());
    }
    reader.is_ready()
}

/// NotZeros at the first block of the active segment behind the log's end that isn't zeros.
fn check_zeros(log: &Log) -> Result<(), LogFault>
    ensures ok { OnOk result ((a : ℕ) → next_address log.now.memory ≤ a
        → a < log.now.memory.active * 64 + 64
        → block_at log.now.memory a ≡ zero_block) }
    ensures fault { IfErr result (IsFileFaultOf log.now) }
{
    for address in log.next_address()..(log.active() + 1) * SEGMENT_BLOCKS {
        check_zero(log, address)?;
    }
    Ok(())
}

/// NotZeros where a block behind the log's end isn't zeros.
fn check_zero(log: &Log, address: u32) -> Result<(), LogFault>
    requires from { next_address log.now.memory ≤ address }
    requires below { address < log.now.memory.active * 64 + 64 }
    requires inside { address < log.now.memory.segments * 64 }
    ensures ok { OnOk result (block_at log.now.memory address ≡ zero_block) }
    ensures fault { IfErr result (IsFileFaultOf log.now) }
{
    if is_zeros(log.block(address)) {
        Ok(())
    } else {
        Err(LogFault::NotZeros { address })
    }
}
