//! The sizes of the profile as numbers.

ghost use Rattle.std.specs.Prelude.{◌≡◌};
ghost use Rattle.lfs_segments.specs.declared.summary.TheConstants.{ENTRY_LIMIT};

/// The constants that contracts cite by name are these numbers: a law, which does nothing.
pub fn sizes()
    ensures entries { ENTRY_LIMIT ≡ 40 }
{}
