//! How many calls were refused of which no entry tells.

ghost use Rattle.std.specs.Prelude.{◌≡◌, ◌+◌, [], ◌∷◌, ◌++◌, map, None, Some, OnOk, if◌then◌else◌};
ghost use Rattle.lfs_model.specs.declared.steps.StepAnswer.{StepAnswer};
ghost use Rattle.lfs_model.specs.declared.steps.StepAnswer.TheVariants.{User, Cleaner};
ghost use Rattle.lfs_sinks.specs.Refusals.{AddsUp, capped, refused_for, refused_line, refusals_of, refusals_text, wants_memory, wants_room};

use crate::totals::push_count;
use lfs_model::journal::CleanerAnswer;
use lfs_types::answer::{Answer, Resource};
use std::alloc::AllocError;

/// How many calls were refused of which no entry tells. A number that has come to 2^64 - 1 stays there.
#[derive(Clone, Copy, PartialEq, Eq, Debug)]
pub struct Refusals {
    /// Calls that were refused since the journal was full.
    pub journal_full: u64,
    /// Calls that were refused for want of memory.
    pub no_memory: u64,
}

impl Refusals {
    /// Of no answers.
    pub fn none() -> Refusals
        ensures { result ≡ refusals_of [] }
    {
        Refusals {
            journal_full: 0,
            no_memory: 0,
        }
    }

    /// Counts the answer to a further call of a user.
    pub fn add_answer(&mut self, answer: &Answer)
        ensures { AddsUp self.old self.new (User answer.now ∷ []) }
    {
        match answer {
            Answer::Refused(resource) => self.add(*resource),
            Answer::Served(_) | Answer::Denied(_) => {}
        }
    }

    /// Counts the answer to a further call of the cleaner.
    pub fn add_cleaning(&mut self, answer: &CleanerAnswer)
        ensures { AddsUp self.old self.new (Cleaner answer.now ∷ []) }
    {
        match answer {
            CleanerAnswer::Refused(resource) => self.add(*resource),
            CleanerAnswer::Denied(_)
            | CleanerAnswer::Fault(_)
            | CleanerAnswer::Ifile(_)
            | CleanerAnswer::Infos(_)
            | CleanerAnswer::Bmapv(_)
            | CleanerAnswer::Marked(_)
            | CleanerAnswer::Cleaned
            | CleanerAnswer::Gained => {}
        }
    }

    /// Counts the answers to further calls of a user.
    pub fn add_answers(&mut self, answers: &[Answer])
        ensures { AddsUp self.old self.new (map User answers.now) }
    {
        for answer in answers {
            self.add_answer(answer);
        }
    }

    /// Counts a further call that was refused for want of a resource.
    fn add(&mut self, resource: Resource)
        ensures room { self.new.journal_full ≡ (if wants_room (Some resource)
            then capped (self.old.journal_full + 1) else self.old.journal_full) }
        ensures memory { self.new.no_memory ≡ (if wants_memory (Some resource)
            then capped (self.old.no_memory + 1) else self.old.no_memory) }
    {
        match resource {
            Resource::JournalFull => self.journal_full = one_more(self.journal_full),
            Resource::NoMemory => self.no_memory = one_more(self.no_memory),
            Resource::NoSpace | Resource::NoInodes | Resource::DirectoryFull => {}
        }
    }
}

/// The next number, where there is one.
fn one_more(number: u64) -> u64
    ensures { result ≡ capped (number + 1) }
{
    if number < u64::MAX {
        number + 1
    } else {
        number
    }
}

/// Appends the lines of the calls that were refused of which no entry tells, where there were any.
pub fn push_refusals(out: &mut Vec<u8>, refusals: &Refusals) -> Result<(), AllocError>
    ensures { OnOk result (out.new.items ≡ out.old.items ++ refusals_text refusals.now) }
{
    push_refused(out, "JournalFull", refusals.journal_full)?;
    push_refused(out, "NoMemory", refusals.no_memory)
}

/// Appends the line of the calls that were refused for want of a resource, where there were any.
fn push_refused(out: &mut Vec<u8>, word: &str, number: u64) -> Result<(), AllocError>
    ensures { OnOk result (out.new.items ≡ out.old.items ++ refused_line word.now number) }
{
    if number == 0 {
        return Ok(());
    }
    out.extend_from_slice(b"unentered ")?;
    push_count(out, word, number)
}
