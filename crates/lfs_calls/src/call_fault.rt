//! What keeps a call from being served.

ghost use Rattle.std.specs.Prelude.{◌≡◌};
ghost use Rattle.lfs_types.specs.declared.answer.Resource.TheVariants.{NoMemory};
ghost use Rattle.lfs_calls.specs.Calls.{answered, resource_of};
ghost use Rattle.lfs_calls.specs.declared.call_fault.CallFault.TheVariants as reasons;

use lfs_types::answer::{Answer, Resource, Served};
use lfs_types::rule::Denial;
use lfs_types::store::StoreRefusal;
use std::alloc::AllocError;

/// Why a call is not served.
#[derive(Clone, Copy, PartialEq, Eq, Debug)]
pub enum CallFault {
    /// A rule denies it.
    Denied(Denial),
    /// A resource ran out.
    Refused(Resource),
}

impl From<Denial> for CallFault {
    ghost from_gives = { λ denial why. why ≡ reasons.Denied denial };

    fn from(denial: Denial) -> CallFault {
        CallFault::Denied(denial)
    }
}

impl From<StoreRefusal> for CallFault {
    ghost from_gives = { λ refusal why. why ≡ reasons.Refused (resource_of refusal) };

    fn from(refusal: StoreRefusal) -> CallFault {
        match refusal {
            StoreRefusal::NoSpace => CallFault::Refused(Resource::NoSpace),
            StoreRefusal::NoMemory => CallFault::Refused(Resource::NoMemory),
        }
    }
}

impl From<AllocError> for CallFault {
    ghost from_gives = { λ _ why. why ≡ reasons.Refused NoMemory };

    fn from(_: AllocError) -> CallFault {
        CallFault::Refused(Resource::NoMemory)
    }
}

/// The answer to a call that came to this.
pub fn answered(outcome: Result<Served, CallFault>) -> Answer
    ensures { result ≡ answered outcome }
{
    match outcome {
        Ok(shown) => Answer::Served(shown),
        Err(CallFault::Denied(denial)) => Answer::Denied(denial),
        Err(CallFault::Refused(resource)) => Answer::Refused(resource),
    }
}
