//! Why a run is not handed out as settled, with what it left.

ghost use Rattle.std.specs.Prelude.{◌≡◌};
ghost use Rattle.lfs_server.specs.Unserved.{fault_of};

use crate::serving::ServeFault;
use lfs_types::fault::FormatFault;
use std::alloc::AllocError;
use std::error::Error;
use std::fmt;

/// Why a run is not handed out as settled. Where it was made to its end, what it left stands beside the session that
/// differs, so that both can be looked into.
#[derive(Drop)]
pub enum Unserved<T> {
    /// It was not made to its end.
    Fault(ServeFault),
    /// It was made and left this, and the journal is not as this session was answered: 0 is the setup; 255 says that an
    /// entry is of no session.
    Unsettled(u8, T),
}

impl<T: Drop> Unserved<T> {
    /// Why, without what was left.
    pub fn fault(&self) -> ServeFault
        ensures { result ≡ fault_of self.now }
    {
        match self {
            Unserved::Fault(fault) => *fault,
            Unserved::Unsettled(session, _) => ServeFault::Unsettled(*session),
        }
    }
}

impl<T: Drop> fmt::Debug for Unserved<T> {
    fn fmt<W: fmt::Write>(&self, f: &mut fmt::Formatter<W>) -> fmt::Result {
        write!(f, "{:?}", self.fault())
    }
}

impl<T: Drop> fmt::Display for Unserved<T> {
    fn fmt<W: fmt::Write>(&self, f: &mut fmt::Formatter<W>) -> fmt::Result {
        write!(f, "{}", self.fault())
    }
}

impl<T: Drop> Error for Unserved<T> {}

impl<T: Drop> From<ServeFault> for Unserved<T> {
    ghost use Rattle.lfs_server.specs.declared.unserved.Unserved.TheVariants.{Fault};

    ghost from_gives = { λ fault unserved. unserved ≡ Fault fault };

    fn from(fault: ServeFault) -> Unserved<T> {
        Unserved::Fault(fault)
    }
}

impl<T: Drop> From<FormatFault> for Unserved<T> {
    ghost use Rattle.lfs_server.specs.Serving.{served_fault};
    ghost use Rattle.lfs_server.specs.declared.unserved.Unserved.TheVariants.{Fault};

    ghost from_gives = { λ fault unserved. unserved ≡ Fault (served_fault fault) };

    fn from(fault: FormatFault) -> Unserved<T> {
        Unserved::Fault(ServeFault::from(fault))
    }
}

impl<T: Drop> From<AllocError> for Unserved<T> {
    ghost use Rattle.lfs_server.specs.declared.serving.ServeFault.TheVariants.{Memory};
    ghost use Rattle.lfs_server.specs.declared.unserved.Unserved.TheVariants.{Fault};

    ghost from_gives = { λ _ unserved. unserved ≡ Fault Memory };

    fn from(_error: AllocError) -> Unserved<T> {
        Unserved::Fault(ServeFault::Memory)
    }
}

impl<T: Drop> From<Unserved<T>> for ServeFault {
    ghost from_gives = { λ unserved fault. fault ≡ fault_of unserved };

    fn from(unserved: Unserved<T>) -> ServeFault {
        unserved.fault()
    }
}
