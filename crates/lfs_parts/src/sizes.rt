//! The size of the profile as a number.

ghost use Rattle.std.specs.Prelude.{◌≡◌};
ghost use Rattle.lfs_parts.specs.declared.records.TheConstants.{WAITING_LIMIT};

/// The constant that contracts cite by name is this number: a law, which does nothing.
pub fn sizes()
    ensures { WAITING_LIMIT ≡ 64 }
{}
