//! How many calls were served, denied and refused, how many the cleaner made, and how often each rule denied one.

ghost use Rattle.std.specs.Prelude.{◌≡◌, ◌-◌, ◌<◌, ◌^◌, [], All, Some};
ghost use Rattle.lfs_types.specs.RuleCodes.{rules};
ghost use Rattle.lfs_model.specs.Counts.{AreFew, counts_after, counts_of, denials_after};

use crate::asking::CleanerAct;
use crate::journal::{CleanerOutcome, Event};
use lfs_types::answer::Answer;
use lfs_types::request::Request;
use lfs_types::rule::Rule;

/// How the calls of a journal were answered.
#[derive(Clone, Copy, PartialEq, Eq, Debug)]
pub struct Counts {
    /// How many users' calls were served.
    pub served: u32,
    /// How many users' calls were denied.
    pub denied: u32,
    /// How many users' calls were refused.
    pub refused: u32,
    /// How many calls the cleaner made.
    pub cleaner: u32,
    /// For each rule, in the order of `RULES`, how many calls it denied, a user's or the cleaner's.
    pub rules: [u32; 20],
}

impl Counts {
    /// The counts over a journal without entries.
    pub fn none() -> Counts
        ensures { result ≡ counts_of [] }
    {
        Counts {
            served: 0,
            denied: 0,
            refused: 0,
            cleaner: 0,
            rules: [0; 20],
        }
    }

    /// Counts one more event. No number may have reached 4,294,967,295 before.
    pub fn add(&mut self, event: &Event)
        requires few { AreFew self.old }
        ensures { self.new ≡ counts_after event.now self.old }
    {
        match event {
            Event::User(_, answer) => self.add_answer(answer),
            Event::Cleaner(_, outcome) => self.add_outcome(*outcome),
        }
    }

    /// Counts one more answer to a user's call.
    fn add_answer(&mut self, answer: &Answer)
        requires few { AreFew self.old }
        ensures { (request : Request)
            → self.new ≡ counts_after (Event.User request answer.now) self.old }
    {
        match answer {
            Answer::Served(_) => self.served += 1,
            Answer::Denied(denial) => {
                self.denied += 1;
                count_denial(&mut self.rules, denial.rule);
            }
            Answer::Refused(_) => self.refused += 1,
        }
    }

    /// Counts one more call of the cleaner.
    fn add_outcome(&mut self, outcome: CleanerOutcome)
        requires few { AreFew self.old }
        ensures { (act : CleanerAct)
            → self.new ≡ counts_after (Event.Cleaner act outcome) self.old }
    {
        self.cleaner += 1;
        match outcome {
            CleanerOutcome::Denied => count_denial(&mut self.rules, Rule::IsSuperuser),
            CleanerOutcome::Fault(_) | CleanerOutcome::Done(_) => {}
        }
    }
}

/// Counts one more denial by a rule.
fn count_denial(numbers: &mut [u32; 20], rule: Rule)
    requires few { All (λ number. number < 2 ^ 32 - 1) numbers.old }
    ensures { numbers.new ≡ denials_after (Some rule) rules numbers.old }
{
    numbers[rule.place()] += 1;
}
