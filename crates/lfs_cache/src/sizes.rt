//! The sizes of the profile as numbers.

ghost use Rattle.std.specs.Prelude.{◌≡◌};
ghost use Rattle.lfs_cache.specs.declared.cache.TheConstants.{LOCKED_LIMIT};

/// The constants that contracts cite by name are these numbers: a law, which does nothing.
pub fn sizes()
    ensures locked { LOCKED_LIMIT ≡ 24 }
{}
