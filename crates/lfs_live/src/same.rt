//! A law: a talk whose lines are a script writes what a run of the script does. The function does nothing, and its
//! contract is the law.

ghost use Rattle.lfs_live.specs.Scripts.{WritesAsScript};

/// What a talk writes whose lines are a script without a fault, in which no line has more than 65,536 bytes, a run of
/// that script writes: the lines of the answers, in order, and the report.
pub fn writes_as_script()
    ensures { WritesAsScript }
{}
