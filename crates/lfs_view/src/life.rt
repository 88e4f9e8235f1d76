//! Whether what was written is of use.

ghost use Rattle.std.specs.Prelude.{◌≡◌};
ghost use Rattle.lfs_view.specs.Cells.{block_life, life_among, record_life};

/// Whether what was written is of use.
#[derive(Clone, Copy, PartialEq, Eq, Debug)]
pub enum Life {
    /// It is what its file has now.
    Live,
    /// Some records of it are what their files have now.
    Partly,
    /// It was written again elsewhere, or belongs to no file.
    Dead,
}

impl Life {
    /// That of a file's block at an address, by its present address.
    pub fn of_block(address: u32, present: u32) -> Life
        ensures { result ≡ block_life address present }
    {
        if present == address {
            Life::Live
        } else {
            Life::Dead
        }
    }

    /// That of a record, by whether it is the present one of its file.
    pub fn of_record(is_live: bool) -> Life
        ensures { result ≡ record_life is_live }
    {
        if is_live { Life::Live } else { Life::Dead }
    }

    /// That of a block of so many records, of which so many are the present ones.
    pub fn of_records(found: u32, live: u32) -> Life
        ensures { result ≡ life_among found live }
    {
        if live == 0 {
            Life::Dead
        } else if live == found {
            Life::Live
        } else {
            Life::Partly
        }
    }
}
