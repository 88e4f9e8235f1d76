//! The size of the profile as a number.

ghost use Rattle.std.specs.Prelude.{◌≡◌};
ghost use Rattle.lfs_staging.specs.declared.cutting.TheConstants.{CUT_FRAMES};

/// The constant that contracts cite by name is this number: a law, which does nothing.
pub fn sizes()
    ensures { CUT_FRAMES ≡ 4 }
{}
