//! The sizes of the profile as numbers.

ghost use Rattle.std.specs.Prelude.{◌≡◌};
ghost use Rattle.lfs_ifile.specs.declared.segment.TheConstants.{SEGMENT_BYTES};

/// The constants that contracts cite by name are these numbers: a law, which does nothing.
pub fn sizes()
    ensures segment { SEGMENT_BYTES ≡ 32768 }
{}
