//! What was asked and answered.

ghost use Rattle.std.specs.Prelude.{◌≡◌, ◌↔◌, IsTrue};

use crate::asking::CleanerAct;
use lfs_types::answer::{Answer, Resource};
use lfs_types::cleaner::{CleanFault, InfoList};
use lfs_types::cred::Cred;
use lfs_types::payload::Bytes;
use lfs_types::request::Request;
use lfs_types::rule::Denial;

/// Which call of the cleaner was made.
#[derive(Clone, Copy, PartialEq, Eq, Debug)]
pub enum CleanerKind {
    /// The bytes of the ifile.
    Ifile,
    /// The infos of a dirty segment.
    Infos,
    /// The present addresses of blocks.
    Bmapv,
    /// Blocks to be written again at the end of the log.
    Markv,
    /// A dirty segment without live bytes to become clean.
    Segclean,
    /// A segment to be cleaned where that gains room.
    Gain,
}

/// What came of a cleaner's call, as the journal tells it.
#[derive(Clone, Copy, PartialEq, Eq, Debug)]
pub enum CleanerOutcome {
    /// The caller was not the superuser.
    Denied,
    /// The call did nothing, for this reason.
    Fault(CleanFault),
    /// The call is done: how many bytes of the ifile, infos, addresses or blocks written again it gave;
    /// 0 for a segment that became clean, and for room that was gained.
    Done(u32),
}

/// The answer to a cleaner's call.
#[derive(Drop, Debug)]
pub enum CleanerAnswer {
    /// A resource ran out, and the journal has no entry: `JournalFull`, or `NoMemory`, for the bytes of the ifile or for
    /// a copy of the infos that were handed in.
    Refused(Resource),
    /// The caller is not the superuser.
    Denied(Denial),
    /// The call did nothing, for this reason.
    Fault(CleanFault),
    /// The bytes of the ifile.
    Ifile(Bytes),
    /// The infos of a dirty segment, in the order of the log.
    Infos(InfoList),
    /// The infos that were handed in, each with its present address.
    Bmapv(InfoList),
    /// How many blocks were written again.
    Marked(u32),
    /// The segment is clean.
    Cleaned,
    /// A segment was cleaned, and there is more room.
    Gained,
}

/// What happened in one step.
#[derive(Drop, PartialEq, Eq, Debug)]
pub enum Event {
    /// A user's call, and its answer.
    User(Request, Answer),
    /// A cleaner's call with its arguments, and what came of it.
    Cleaner(CleanerAct, CleanerOutcome),
}

/// An entry of the journal: one step of the volume.
#[derive(Drop, PartialEq, Eq, Debug)]
pub struct Entry {
    /// The session that made the call.
    pub session: u8,
    /// The credential that it was made with.
    pub cred: Cred,
    /// The call and its answer.
    pub event: Event,
}

impl Entry {
    /// Whether it is the entry of this user's call with this answer.
    pub fn is_call(&self, session: u8, cred: &Cred, request: &Request, answer: &Answer) -> bool
        ensures { IsTrue result ↔ (self.now ≡ record {
          session = session;
          cred = cred.now;
          event = Event.User request.now answer.now;
        }) }
    {
        if self.session != session || self.cred != *cred {
            return false;
        }
        match &self.event {
            Event::User(asked, answered) => asked == request && answered == answer,
            Event::Cleaner(_, _) => false,
        }
    }
}

/// A user's call that a run makes.
#[derive(Drop, PartialEq, Eq, Debug)]
pub struct Call {
    /// The session that makes the call.
    pub session: u8,
    /// The credential that it is made with.
    pub cred: Cred,
    /// The call.
    pub request: Request,
}
