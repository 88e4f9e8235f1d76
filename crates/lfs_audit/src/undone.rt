//! Why a run on threads is not done, with what it left.

ghost use Rattle.std.specs.Prelude.{◌≡◌};
ghost use Rattle.lfs_audit.specs.Undone.{why};

use crate::fault::ThreadsFault;
use lfs_server::serving::ServeFault;
use lfs_server::unserved::Unserved;
use std::error::Error;
use std::fmt;

/// Why a run of a script on threads is not done. Where its sessions were run to their end, what they left stands beside
/// the session that differs, so that both can be looked into.
#[derive(Drop)]
pub enum Undone<T> {
    /// The sessions were not run to their end, or what they were answered is not written whole.
    Fault(ThreadsFault),
    /// The sessions were run and left this, and the journal is not as this one was answered: 0 is the setup; 255 says
    /// that an entry is of no session. Nothing was written.
    Unsettled(u8, T),
}

impl<T: Drop> Undone<T> {
    /// Why, without what was left.
    pub fn fault(&self) -> ThreadsFault
        ensures { result ≡ why self.now }
    {
        match self {
            Undone::Fault(fault) => *fault,
            Undone::Unsettled(session, _) => ThreadsFault::Serve(ServeFault::Unsettled(*session)),
        }
    }
}

impl<T: Drop> fmt::Debug for Undone<T> {
    fn fmt<W: fmt::Write>(&self, f: &mut fmt::Formatter<W>) -> fmt::Result {
        write!(f, "{:?}", self.fault())
    }
}

impl<T: Drop> fmt::Display for Undone<T> {
    fn fmt<W: fmt::Write>(&self, f: &mut fmt::Formatter<W>) -> fmt::Result {
        write!(f, "{}", self.fault())
    }
}

impl<T: Drop> Error for Undone<T> {}

impl<T: Drop> From<ThreadsFault> for Undone<T> {
    ghost use Rattle.lfs_audit.specs.declared.undone.Undone.TheVariants.{Fault};

    ghost from_gives = { λ fault undone. undone ≡ Fault fault };

    fn from(fault: ThreadsFault) -> Undone<T> {
        Undone::Fault(fault)
    }
}

impl<T: Drop> From<Unserved<T>> for Undone<T> {
    ghost use Rattle.lfs_audit.specs.Undone.{undone_of};

    ghost from_gives = { λ unserved undone. undone ≡ undone_of unserved };

    fn from(unserved: Unserved<T>) -> Undone<T> {
        match unserved {
            Unserved::Fault(fault) => Undone::Fault(ThreadsFault::Serve(fault)),
            Unserved::Unsettled(session, left) => Undone::Unsettled(session, left),
        }
    }
}
