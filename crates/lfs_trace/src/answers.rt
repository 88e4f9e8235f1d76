//! Whether a user's call may be answered as an entry tells.

ghost use Rattle.std.specs.Prelude.{◌↔◌, IsTrue};
ghost use Rattle.lfs_model.specs.Steps.{IsChanging};
ghost use Rattle.lfs_trace.specs.Judging.{JudgesMade, JudgesRefusal, OneAnswer, WantsNumber};

use lfs_model::journal::{Entry, Event};
use lfs_types::answer::Resource;
use lfs_types::request::Request;

/// Whether an entry is allowed, where the rules' own answer to its call made the other one: served, denied, or that no
/// inode number is left. It tells one of these too.
pub fn is_as_made(made: &Entry, told: &Entry) -> bool
    ensures { JudgesMade made.now told.now result }
{
    match &told.event {
        Event::User(request, answer) => made.is_call(told.session, &told.cred, request, answer),
        Event::Cleaner(_, _) => false,
    }
}

/// Whether a call may be refused for this resource: for want of space where the rules allow it, it may change files,
/// and it has a number where it wants one; for want of a number where none is left. No directory is full, as it has
/// fewer names than blocks, and what leaves no entry is never told.
pub fn may_be_refused(
    request: &Request,
    is_allowed: bool,
    is_number_left: bool,
    resource: Resource,
) -> bool
    ensures { JudgesRefusal request.now is_allowed is_number_left resource result }
{
    let lacks_number = wants_number(request) && !is_number_left;
    match resource {
        Resource::NoInodes => is_allowed && lacks_number,
        Resource::NoSpace => is_allowed && !lacks_number && is_changing(request),
        Resource::NoMemory | Resource::DirectoryFull | Resource::JournalFull => false,
    }
}

/// Whether a call wants a new number.
pub(crate) fn wants_number(request: &Request) -> bool
    ensures { IsTrue result ↔ WantsNumber request.now }
{
    matches!(request, Request::Create { .. } | Request::Mkdir { .. })
}

/// Whether a call may change files, or writes what waits.
fn is_changing(request: &Request) -> bool
    ensures { IsTrue result ↔ IsChanging request.now }
{
    !matches!(
        request,
        Request::Stat { .. }
            | Request::Read { .. }
            | Request::List { .. }
            | Request::SetLevel { .. }
    )
}

/// The rules have one answer to a call in a world.
pub fn one_answer()
    ensures { OneAnswer }
{}
