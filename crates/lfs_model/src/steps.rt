//! Steps of a volume: calls of users and of the cleaner.

ghost use Rattle.std.specs.Prelude.{◌≡◌};
ghost use Rattle.lfs_model.specs.Cleaning.{kind_of};
ghost use Rattle.lfs_model.specs.Runs.{act_of};

use crate::journal::{CleanerAnswer, CleanerKind};
use lfs_types::answer::Answer;
use lfs_types::cleaner::CleanerCall;
use lfs_types::cred::Cred;
use lfs_types::request::Request;

/// What one step does.
#[derive(Drop, Debug)]
pub enum Act {
    /// A user's call.
    User(Request),
    /// A call of the cleaner.
    Cleaner(CleanerCall),
}

/// A step that a run makes.
#[derive(Drop, Debug)]
pub struct Step {
    /// The session that makes the call.
    pub session: u8,
    /// The credential that it is made with.
    pub cred: Cred,
    /// The call.
    pub act: Act,
}

/// The answer to a step.
#[derive(Drop, Debug)]
pub enum StepAnswer {
    /// The answer to a user's call.
    User(Answer),
    /// The answer to a call of the cleaner.
    Cleaner(CleanerAnswer),
}

impl CleanerKind {
    /// Which call of the cleaner it is.
    pub fn of(call: &CleanerCall) -> CleanerKind
        ensures { result ≡ kind_of (act_of call.now) }
    {
        match call {
            CleanerCall::Ifile => CleanerKind::Ifile,
            CleanerCall::Infos(_) => CleanerKind::Infos,
            CleanerCall::Bmapv(_) => CleanerKind::Bmapv,
            CleanerCall::Markv(_) => CleanerKind::Markv,
            CleanerCall::Segclean(_) => CleanerKind::Segclean,
            CleanerCall::Gain => CleanerKind::Gain,
        }
    }
}
