//! Scripts: what a session is to call.

ghost use Rattle.std.specs.Prelude.{◌≡◌};

use crate::cred::Cred;
use crate::request::Request;
use std::marker::Model;

/// The calls of one session, in order, each with the credential that it is made with.
#[derive(Drop, Debug)]
pub struct Script {
    calls: Vec<(Cred, Request)>,
}

impl Model for Script {
    ghost use Rattle.std.specs.Prelude.{List};
    ghost use Rattle.lfs_types.specs.Caller.{Caller};
    ghost use Rattle.lfs_types.specs.declared.request.Request.{Request};

    ghost Value = { List (Caller × Request) };

    ghost view = { λ s. s.calls.items };
}

impl From<Vec<(Cred, Request)>> for Script {
    ghost from_gives = { λ calls script. script ≡ calls.items };

    fn from(calls: Vec<(Cred, Request)>) -> Script {
        Script { calls }
    }
}

impl Script {
    /// The calls, in order.
    pub fn as_slice(&self) -> &[(Cred, Request)]
        ensures { result.now ≡ self.now }
    {
        self.calls.as_slice()
    }

    /// The vector of the calls.
    pub fn into_vec(self) -> Vec<(Cred, Request)>
        ensures { result.items ≡ self }
    {
        self.calls
    }
}
