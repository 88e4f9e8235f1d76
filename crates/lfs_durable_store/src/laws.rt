//! Laws of what a crash leaves. Each function does nothing, and its contract is a law.

ghost use Rattle.lfs_durable_store.specs.Runs.{FindsPrefix};
ghost use Rattle.lfs_durable_store.specs.Surviving.{BehindIsLater, MarkIsLater, SurvivesLater};

/// What is found behind a crash in a later flush of a call contains what the store contained before the call.
pub fn survives_later()
    ensures { SurvivesLater }
{}

/// Such a flush is that behind changes that didn't fit the active segment.
pub fn behind_is_later()
    ensures { BehindIsLater }
{}

/// And that of blocks that are written again.
pub fn mark_is_later()
    ensures { MarkIsLater }
{}

/// After a crash in a run of calls what is found is what the store contained behind some of them: at least those up to the
/// last Sync.
pub fn finds_prefix()
    ensures { FindsPrefix }
{}
