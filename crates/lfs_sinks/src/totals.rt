//! The counts of all entries that were handed out of a journal, and the report over them and those that are kept.

ghost use Rattle.std.specs.Prelude.{◌≡◌, ◌+◌, ◌≤◌, ◌^◌, ◌++◌, All, List, [], length, true, IfSome, OnOk};
ghost use Rattle.std.specs.List.{flat_map, zip};
ghost use Rattle.lfs_model.specs.Counts.{counts_of};
ghost use Rattle.lfs_model.specs.declared.steps.StepAnswer.{StepAnswer};
ghost use Rattle.lfs_print.specs.ReportText.{count_line, counts_text, denials_line};
ghost use Rattle.lfs_sinks.specs.Refusals.{run_report, tally_of};
ghost use Rattle.lfs_sinks.specs.Sums.{counts_sum, sums};

use crate::refusals::{Refusals, push_refusals};
use lfs_model::counts::Counts;
use lfs_model::journal::Entry;
use lfs_types::rule::{RULES, Rule};
use lfs_words::append::push_number;
use std::alloc::AllocError;
use std::marker::Model;

/// The most that a number of totals may be: 2^60.
const MOST: u64 = 1 << 60;

/// How the calls of the entries were answered that were handed out of a journal. Each number is at most 2^60.
#[derive(Drop)]
pub struct Totals {
    served: u64,
    denied: u64,
    refused: u64,
    cleaner: u64,
    rules: [u64; 20],
}

impl Model for Totals {
    ghost use Rattle.std.specs.Prelude.{◌≤◌, ◌^◌, All};
    ghost use Rattle.lfs_model.specs.declared.counts.Counts.{Counts};

    ghost Value = { Counts };

    ghost view = { λ t. record {
      served = t.served;
      denied = t.denied;
      refused = t.refused;
      cleaner = t.cleaner;
      rules = t.rules;
    } };

    ghost invariant = { λ t. (t.served ≤ 2 ^ 60) × (t.denied ≤ 2 ^ 60) × (t.refused ≤ 2 ^ 60)
        × (t.cleaner ≤ 2 ^ 60) × All (λ number. number ≤ 2 ^ 60) t.rules };
}

impl Totals {
    /// The totals of no entries.
    pub fn none() -> Totals
        ensures { result ≡ counts_of [] }
    {
        Totals {
            served: 0,
            denied: 0,
            refused: 0,
            cleaner: 0,
            rules: [0; 20],
        }
    }

    /// How many entries they count.
    pub fn entries(&self) -> u64
        ensures { (handed : List Entry) → self.now ≡ counts_of handed → result ≡ length handed }
    {
        self.served + self.denied + self.refused + self.cleaner
    }

    /// The totals with the counts of a journal added; none where a number would be more than 2^60.
    pub fn with(&self, counts: &Counts) -> Option<Totals>
        ensures { IfSome result (λ totals. totals ≡ counts_sum self.now counts.now) }
    {
        let served = few(self.served + u64::from(counts.served))?;
        let denied = few(self.denied + u64::from(counts.denied))?;
        let refused = few(self.refused + u64::from(counts.refused))?;
        let cleaner = few(self.cleaner + u64::from(counts.cleaner))?;
        let rules = added(&self.rules, &counts.rules);
        if !are_few(&rules) {
            return None;
        }
        Some(Totals {
            served,
            denied,
            refused,
            cleaner,
            rules,
        })
    }
}

/// A number that is at most 2^60.
fn few(number: u64) -> Option<u64>
    ensures { IfSome result (λ same. (same ≡ number) × (number ≤ 2 ^ 60)) }
{
    if number <= MOST { Some(number) } else { None }
}

/// Whether each number is at most 2^60.
fn are_few(numbers: &[u64; 20]) -> bool
    ensures { result ≡ true → All (λ number. number ≤ 2 ^ 60) numbers.now }
{
    numbers.iter().all(|number| *number <= MOST)
}

/// Numbers, each with the one of another list added that stands in its place.
fn added(numbers: &[u64; 20], others: &[u32; 20]) -> [u64; 20]
    requires { All (λ number. number ≤ 2 ^ 60) numbers.now }
    ensures { result ≡ sums numbers.now others.now }
{
    let mut all = *numbers;
    for place in 0..20 {
        all[place] = numbers[place] + u64::from(others[place]);
    }
    all
}

/// What a run counts beside its journal.
#[derive(Drop)]
pub struct Tally {
    /// How the calls of the entries that were handed out were answered.
    pub totals: Totals,
    /// How many calls were refused of which no entry tells.
    pub refusals: Refusals,
}

impl Tally {
    /// Of no entries and no answers.
    pub fn none() -> Tally
        ensures { result ≡ tally_of [] [] }
    {
        Tally {
            totals: Totals::none(),
            refusals: Refusals::none(),
        }
    }
}

/// Appends the report of a run: over all entries, of which the tally counts those that were handed out, and the counts those
/// that are kept; and of the calls that were refused without an entry.
pub fn push_report(out: &mut Vec<u8>, tally: &Tally, counts: &Counts) -> Result<(), AllocError>
    ensures { OnOk result ((handed kept : List Entry) (answers : List StepAnswer)
        → tally.now ≡ tally_of handed answers → counts.now ≡ counts_of kept
        → out.new.items ≡ out.old.items ++ run_report (handed ++ kept) answers) }
{
    push_sums(out, &tally.totals, counts)?;
    push_refusals(out, &tally.refusals)
}

/// Appends the report of totals and of counts, added.
fn push_sums(out: &mut Vec<u8>, totals: &Totals, counts: &Counts) -> Result<(), AllocError>
    ensures { OnOk result (out.new.items ≡ out.old.items
        ++ counts_text (counts_sum totals.now counts.now)) }
{
    let served = totals.served + u64::from(counts.served);
    let denied = totals.denied + u64::from(counts.denied);
    let refused = totals.refused + u64::from(counts.refused);
    let cleaner = totals.cleaner + u64::from(counts.cleaner);
    push_count(out, "entries", served + denied + refused + cleaner)?;
    push_count(out, "served", served)?;
    push_count(out, "denied", denied)?;
    push_count(out, "refused", refused)?;
    push_count(out, "cleaner", cleaner)?;
    let rules = added(&totals.rules, &counts.rules);
    push_denials(out, &RULES, &rules)
}

/// Appends a line of a word and a number.
#[tactic(auto, unfolding(lfs_print::specs::ReportText::count_line))]
pub(crate) fn push_count(out: &mut Vec<u8>, word: &str, number: u64) -> Result<(), AllocError>
    ensures { OnOk result (out.new.items ≡ out.old.items ++ count_line word.now number) }
{
    out.extend_from_slice(word.as_bytes())?;
    push_number(out, number)?;
    out.extend_from_slice(b"\n")
}

/// Appends the lines of the rules that denied calls, each with how many.
fn push_denials(out: &mut Vec<u8>, rules: &[Rule], numbers: &[u64]) -> Result<(), AllocError>
    requires { length numbers.now ≡ length rules.now }
    ensures { OnOk result (out.new.items
        ≡ out.old.items ++ flat_map denials_line (zip rules.now numbers.now)) }
{
    for place in 0..rules.len() {
        push_denial(out, rules[place], numbers[place])?;
    }
    Ok(())
}

/// Appends how many calls a rule denied, where it denied any.
fn push_denial(out: &mut Vec<u8>, rule: Rule, number: u64) -> Result<(), AllocError>
    ensures { OnOk result (out.new.items ≡ out.old.items ++ denials_line (rule, number)) }
{
    if number == 0 {
        return Ok(());
    }
    out.extend_from_slice(b"rule ")?;
    push_count(out, rule.code(), number)
}
