//! Laws of what a disk can follow. Each function does nothing, and its contract is a law.

ghost use Rattle.lfs_disk.specs.Flushing.{FindsOldOrNew, FlushFollowsOn, FlushingAheadFollowsOn, MarkingFollowsOn, OpenedFollowsOn, OpensCleanOnly, WritingFollowsOn};

/// Behind a flush a store's log has gone on in the active segment, so that a mirror can write it out.
pub fn flush_follows_on()
    ensures { FlushFollowsOn }
{}

/// And behind one for which a segment was opened it has gone on there.
pub fn opened_follows_on()
    ensures { OpenedFollowsOn }
{}

/// Behind what was to be written it has gone on in one of these ways.
pub fn flushing_ahead_follows_on()
    ensures { FlushingAheadFollowsOn }
{}

/// So behind all that waits, which was written.
pub fn writing_follows_on()
    ensures { WritingFollowsOn }
{}

/// So behind blocks that were written again for a cleaner.
pub fn marking_follows_on()
    ensures { MarkingFollowsOn }
{}

/// A segment that was opened for what was to be written was clean.
pub fn opens_clean_only()
    ensures { OpensCleanOnly }
{}

/// Behind a crash while a store is written out, what is found contains what the store contained before, or what it
/// contains now.
pub fn finds_old_or_new()
    ensures { FindsOldOrNew }
{}
