//! The sizes of the profile as numbers.

ghost use Rattle.std.specs.Prelude.{◌≡◌};
ghost use Rattle.lfs_bmap.specs.declared.blocks.TheConstants.{BLOCK_CODES, DIRECT_BLOCKS, FIRST_DATA_CODE};
ghost use Rattle.lfs_bmap.specs.declared.tables.TheConstants.{MOST_DEPTH, RANKS};

/// The constants that contracts cite by name are these numbers: a law, which does nothing.
pub fn sizes()
    ensures direct { DIRECT_BLOCKS ≡ 12 }
    ensures first_data { FIRST_DATA_CODE ≡ 131 }
    ensures codes { BLOCK_CODES ≡ 16655 }
    ensures depth { MOST_DEPTH ≡ 3 }
    ensures ranks { RANKS ≡ 3 }
{}
