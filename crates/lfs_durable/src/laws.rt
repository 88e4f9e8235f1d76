//! Laws of recovery. Each function does nothing, and its contract is a law.

ghost use Rattle.lfs_durable.specs.Alike.{FindsBlocks};
ghost use Rattle.lfs_durable.specs.Contents.{FindsContent};
ghost use Rattle.lfs_durable.specs.Crashes.{CrashSpares, FindsAfterCrash, FlushCrashes, StagedCrashes};
ghost use Rattle.lfs_durable.specs.Kept.{FlushedIsDurable, FreshCanBeFound, FreshIsDurable};
ghost use Rattle.lfs_durable.specs.Kept.{MovesCanBeFound, SameCanBeFound, WritesCanBeFound};
ghost use Rattle.lfs_durable.specs.Names.{FindsNames, FindsRecordOfEach};
ghost use Rattle.lfs_durable.specs.Runs.{FindsPrefix};
ghost use Rattle.lfs_durable.specs.Spared.{FindsSpared};

/// Of a store of which nothing waits recovery reads each block of a file as the store does, by the file's record and the
/// blocks of the log alone.
pub fn finds_blocks()
    ensures { FindsBlocks }
{}

/// Of each number in use recovery finds the record that the store has, where all of the store lies in its log.
pub fn finds_record_of_each()
    ensures { FindsRecordOfEach }
{}

/// And names lead to a number, by the newest records and the blocks alone, exactly where it is in use.
pub fn finds_names()
    ensures { FindsNames }
{}

/// So what stands on what recovery finds of the store contains what the store contained.
pub fn finds_content()
    ensures { FindsContent }
{}

/// And so it does where the blocks are another memory's that spares the store.
pub fn finds_spared()
    ensures { FindsSpared }
{}

/// What a crash leaves, between any two block writes of a flush, spares the store.
pub fn crash_spares()
    ensures { CrashSpares }
{}

/// So what stands on what recovery finds there contains what the store contained before that flush.
pub fn finds_after_crash()
    ensures { FindsAfterCrash }
{}

/// What a store's blocks are between any two block writes of a flush is what a crash leaves.
pub fn flush_crashes()
    ensures { FlushCrashes }
{}

/// So a crash while changes are written leaves the store as it was before them.
pub fn staged_crashes()
    ensures { StagedCrashes }
{}

/// A store that was just laid out with serials can be found.
pub fn fresh_can_be_found()
    ensures { FreshCanBeFound }
{}

/// And is durable.
pub fn fresh_is_durable()
    ensures { FreshIsDurable }
{}

/// It can be found whatever is written at its log's end.
pub fn writes_can_be_found()
    ensures { WritesCanBeFound }
{}

/// And where the cleaner has blocks written again.
pub fn moves_can_be_found()
    ensures { MovesCanBeFound }
{}

/// And where no block changes, as where a segment is made clean.
pub fn same_can_be_found()
    ensures { SameCanBeFound }
{}

/// So it is durable wherever nothing waits, until the last serial comes: behind each Sync.
pub fn flushed_is_durable()
    ensures { FlushedIsDurable }
{}

/// After a crash in a run of calls what is found is what the store contained behind some of them: at least those up to the
/// last Sync.
pub fn finds_prefix()
    ensures { FindsPrefix }
{}
