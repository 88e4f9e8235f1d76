//! Calls as plain values, before their paths and bytes are made.

use lfs_types::request::Place;

/// The user who owns the tree, and his only group.
pub const OWNER: u32 = 1000;

/// A user who owns nothing of it.
pub const STRANGER: u32 = 2000;

/// The superuser, who makes the first directory.
pub const SUPERUSER: u32 = 0;

/// What a call names. A name without a directory of its own lies in the last one.
#[derive(Clone, Copy)]
pub enum Spot {
    /// The root.
    Root,
    /// The directory that is so many directories below the root.
    Directory(u32),
    /// A file, counted from 0.
    File(u32),
    /// A name that is made and removed.
    Made,
    /// A name that this session makes and removes.
    MadeBy(u32),
    /// A name that a file gets for a while.
    Moved,
}

/// What a call asks.
#[derive(Clone, Copy)]
pub enum Verb {
    /// A Stat.
    Stat,
    /// A Read from this byte on of so many bytes.
    Read(u64, u32),
    /// A Write at this place of so many bytes.
    Write(Place, u32),
    /// A SetLength to so many bytes.
    SetLength(u64),
    /// A List.
    List,
    /// A Create.
    Create,
    /// A Mkdir.
    Mkdir,
    /// An Unlink.
    Unlink,
    /// A Rename to this name.
    Rename(Spot),
    /// A Chown that makes it the owner's.
    Give,
    /// A Sync, which names nothing.
    Sync,
}

/// A call: who makes it, of what, and what it asks.
#[derive(Clone, Copy)]
pub struct Step {
    /// The user, with one group of the same number.
    pub user: u32,
    /// What it names.
    pub spot: Spot,
    /// What it asks.
    pub verb: Verb,
}

impl Step {
    /// A call of the owner.
    pub fn new(spot: Spot, verb: Verb) -> Step {
        Step {
            user: OWNER,
            spot,
            verb,
        }
    }
}
