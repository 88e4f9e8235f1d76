//! The sizes of the profile as numbers.

ghost use Rattle.std.specs.Prelude.{◌≡◌};
ghost use Rattle.lfs_segwrite.specs.declared.applying.TheConstants.{APPLIED_FRAMES, APPLIED_RECORDS};
ghost use Rattle.lfs_segwrite.specs.declared.room.TheConstants.{SPARE, USERS_SPARE, WHOLE};

/// The constants that contracts cite by name are these numbers: a law, which does nothing.
pub fn sizes()
    ensures frames { APPLIED_FRAMES ≡ 20 }
    ensures records { APPLIED_RECORDS ≡ 4 }
    ensures whole { WHOLE ≡ 63 }
    ensures spare { SPARE ≡ 12 }
    ensures users { USERS_SPARE ≡ 32 }
{}
