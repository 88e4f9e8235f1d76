//! The sizes of the profile as numbers.

ghost use Rattle.std.specs.Prelude.{◌≡◌};
ghost use Rattle.lfs_inodes.specs.declared.inode.TheConstants.{ADDRESS_LIMIT, DIRECT_COUNT, DOUBLE_PLACE, ENTRY_COUNT, ROOT_COUNT, SINGLE_END};
ghost use Rattle.lfs_inodes.specs.declared.record.TheConstants.{RECORD_SIZE};

/// The constants that contracts cite by name are these numbers: a law, which does nothing.
pub fn sizes()
    ensures direct { DIRECT_COUNT ≡ 12 }
    ensures roots { ROOT_COUNT ≡ 14 }
    ensures entries { ENTRY_COUNT ≡ 128 }
    ensures single_end { SINGLE_END ≡ 140 }
    ensures double { DOUBLE_PLACE ≡ 13 }
    ensures addresses { ADDRESS_LIMIT ≡ 65536 }
    ensures record { RECORD_SIZE ≡ 128 }
{}
