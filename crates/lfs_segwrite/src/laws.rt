//! A law of recovery. The function does nothing, and its contract is the law.

ghost use Rattle.lfs_segwrite.specs.Ordered.{FindsInUse};

/// Of a number in use that has a place in the log, and whose record doesn't wait, recovery finds the
/// record that the store has.
pub fn finds_in_use()
    ensures { FindsInUse }
{}
