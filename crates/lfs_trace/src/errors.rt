//! Entries of another system, whose denials are told by their error numbers alone.

ghost use Rattle.std.specs.Prelude.{◌≡◌, ◌↔◌, IsTrue};
ghost use Rattle.lfs_trace.specs.Errors.{HasErrorOf, IsCheckedAs};
ghost use Rattle.lfs_trace.specs.declared.errors.Denials.TheVariants.{ByError};

use crate::checker::{Checker, legal_if};
use crate::fault::EntryFault;
use lfs_model::journal::{Entry, Event};
use lfs_types::answer::Answer;
use lfs_types::cred::Cred;
use lfs_types::request::Request;
use lfs_types::rule::Denial;

/// What is compared of the denials that users' calls were answered.
#[derive(Clone, Copy, PartialEq, Eq, Debug)]
pub enum Denials {
    /// The rule, the path and the component.
    Whole,
    /// The error number alone: whatever rule refuses with it, at whatever place.
    ByError,
}

impl Checker {
    /// Checks the next entry as `entry` does, and of a user's denial what is to be compared.
    ///
    /// # Errors
    ///
    /// `Illegal` where the rules don't allow the entry so; `Memory`.
    pub fn entry_as(&mut self, denials: Denials, entry: &Entry) -> Result<(), EntryFault>
        ensures { IsCheckedAs denials self.old self.new entry.now.cred entry.now.event result }
    {
        match denials {
            Denials::Whole => self.entry(entry),
            Denials::ByError => self.entry_by_error(entry),
        }
    }

    /// Checks the next entry, of a user's denial by its error number alone.
    fn entry_by_error(&mut self, entry: &Entry) -> Result<(), EntryFault>
        ensures { IsCheckedAs ByError self.old self.new entry.now.cred entry.now.event result }
    {
        match &entry.event {
            Event::User(request, Answer::Denied(denial)) => {
                self.denied_by_error(&entry.cred, request, *denial)
            }
            Event::User(_, Answer::Served(_) | Answer::Refused(_)) | Event::Cleaner(_, _) => {
                self.entry(entry)
            }
        }
    }

    /// Checks that a call was denied with the error number of a denial.
    fn denied_by_error(
        &mut self,
        cred: &Cred,
        request: &Request,
        denial: Denial,
    ) -> Result<(), EntryFault>
        ensures { IsCheckedAs ByError self.old self.new
            cred.now (Event.User request.now (Answer.Denied denial)) result }
    {
        let explanation = self.explain(cred, request)?;
        legal_if(has_error_of(explanation.verdict(), denial))
    }
}

/// Whether a decision is a denial with the error number of another.
fn has_error_of(decided: Option<Denial>, denial: Denial) -> bool
    ensures { IsTrue result ↔ HasErrorOf decided denial }
{
    match decided {
        Some(decided) => decided.rule.error() == denial.rule.error(),
        None => false,
    }
}
