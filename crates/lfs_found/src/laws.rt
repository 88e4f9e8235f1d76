//! Laws of recovery. Each function does nothing, and its contract is a law.

ghost use Rattle.lfs_found.specs.Found.{FindsAll, FindsBegun, FindsEnd, FindsNewest, FindsRecords, LatestIsOne};
ghost use Rattle.lfs_found.specs.Written.{FreshIsFindable, FreshIsRecoverable, OpensKeep, OpensRecoverable, OpensWhole, WritesKeep, WritesLatest, WritesRecoverable, WritesWhole};

/// Whatever partial segment recovery finds was begun by a summary that the log of its segment expected.
pub fn finds_begun()
    ensures { FindsBegun }
{}

/// Where serials rise along each log, and all blocks of each partial segment are there, recovery finds each one that was
/// begun.
pub fn finds_all()
    ensures { FindsAll }
{}

/// The end of the log that recovery finds, behind the partial segment of the highest serial, is where the next summary
/// would be written.
pub fn finds_end()
    ensures { FindsEnd }
{}

/// The records that recovery finds are those that the log names.
pub fn finds_records()
    ensures { FindsRecords }
{}

/// The newest record that recovery finds of a number is the latest one that the log names.
pub fn finds_newest()
    ensures { FindsNewest }
{}

/// A number has one latest record.
pub fn latest_is_one()
    ensures { LatestIsOne }
{}

/// Of a volume that was just laid out everything is found, which is nothing yet.
pub fn fresh_is_findable()
    ensures { FreshIsFindable }
{}

/// A partial segment that is written whole leaves all whole.
pub fn writes_whole()
    ensures { WritesWhole }
{}

/// A number of which a partial segment has no record keeps its latest one when it is written.
pub fn writes_keep()
    ensures { WritesKeep }
{}

/// Of a number of which a partial segment has a record the last one there is the latest once it is written.
pub fn writes_latest()
    ensures { WritesLatest }
{}

/// A segment that is opened leaves the partial segments of all others whole, and has none.
pub fn opens_whole()
    ensures { OpensWhole }
{}

/// A latest record stays so when another segment is opened.
pub fn opens_keep()
    ensures { OpensKeep }
{}

/// Of a volume that was just laid out everything is found, whatever serial its first summary is to get, and where it is to
/// get none nothing is asked.
pub fn fresh_is_recoverable()
    ensures { FreshIsRecoverable }
{}

/// Where everything is found, it is once a partial segment was written whole, with a serial above all others, until the
/// last serial comes.
pub fn writes_recoverable()
    ensures { WritesRecoverable }
{}

/// And once a segment was opened.
pub fn opens_recoverable()
    ensures { OpensRecoverable }
{}
