//! What a user is answered.

ghost use Rattle.std.specs.Prelude.{◌≡◌, IfOk, IsErr};
ghost use Rattle.lfs_types.specs.Shown.{IsList, ServesList};

use crate::attrs::Attrs;
use crate::payload::{Bytes, Names};
use crate::rule::Denial;
use std::alloc::AllocError;

/// What a served call shows.
#[derive(Drop, PartialEq, Eq, Debug)]
pub enum Served {
    /// A Stat's file: its number and attributes. A directory's size is shown as 0.
    Stat(u32, Attrs),
    /// A Read's bytes.
    Bytes(Bytes),
    /// A List's names, in byte order.
    Names(Names),
    /// The call is done.
    Done,
}

/// What a call lacks.
#[derive(Clone, Copy, PartialEq, Eq, Debug)]
pub enum Resource {
    /// A growth of memory was refused. Nothing is changed, and the journal has no entry.
    NoMemory,
    /// The volume has no room.
    NoSpace,
    /// Every inode number is used.
    NoInodes,
    /// The directory has no room for a further name.
    DirectoryFull,
    /// The journal has its limit. Nothing is changed, and the journal has no entry.
    JournalFull,
}

/// The answer to a call.
#[derive(Drop, PartialEq, Eq, Debug)]
pub enum Answer {
    /// The rules allow the call, and it is done.
    Served(Served),
    /// A rule denies the call, and nothing is changed.
    Denied(Denial),
    /// The rules allow the call, but a resource is wanting, and nothing is changed.
    Refused(Resource),
}

impl Served {
    /// A value equal to this one, which shares its bytes or names. Only these can want memory.
    pub fn try_clone(&self) -> Result<Served, AllocError>
        ensures copy { IfOk result (λ copy. copy ≡ self.now) }
        ensures memory { IsErr result → IsList self.now }
    {
        Ok(match self {
            Served::Stat(number, attrs) => Served::Stat(*number, *attrs),
            Served::Bytes(bytes) => Served::Bytes(bytes.try_clone()?),
            Served::Names(names) => Served::Names(names.try_clone()?),
            Served::Done => Served::Done,
        })
    }
}

impl Answer {
    /// An answer equal to this one, which shares its bytes or names. Only these can want memory.
    pub fn try_clone(&self) -> Result<Answer, AllocError>
        ensures copy { IfOk result (λ copy. copy ≡ self.now) }
        ensures memory { IsErr result → ServesList self.now }
    {
        Ok(match self {
            Answer::Served(served) => Answer::Served(served.try_clone()?),
            Answer::Denied(denial) => Answer::Denied(*denial),
            Answer::Refused(resource) => Answer::Refused(*resource),
        })
    }
}
