//! Laws of what is found. Each function does nothing, and its contract is a law.

ghost use Rattle.lfs_rescue.specs.Rebuilt.{FindsFiles, FindsStore};

/// Whatever a crash leaves of a store of which all lay in its log, between any two block writes of a flush, a store may
/// stand on the log that is built again from it.
pub fn finds_store()
    ensures { FindsStore }
{}

/// Before its live bytes are counted, where no segment of it is clean, the log has no fault in its files or at its end.
pub fn finds_files()
    ensures { FindsFiles }
{}
