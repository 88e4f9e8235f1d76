//! The sizes of the profile as numbers.

ghost use Rattle.std.specs.Prelude.{◌≡◌};
ghost use Rattle.lfs_log.specs.declared.packing.TheConstants.{SLOT_COUNT};

/// The constants that contracts cite by name are these numbers: a law, which does nothing.
pub fn sizes()
    ensures slots { SLOT_COUNT ≡ 4 }
{}
