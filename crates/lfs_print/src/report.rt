//! The report over a journal, by its counts.

ghost use Rattle.std.specs.Prelude.{◌≡◌, ◌+◌, List, ◌++◌, length, IfOk, OnOk};
ghost use Rattle.std.specs.List.{flat_map, zip};
ghost use Rattle.lfs_model.specs.Counts.{counts_of};
ghost use Rattle.lfs_model.specs.declared.journal.Entry.{Entry};
ghost use Rattle.lfs_print.specs.ReportText.{count_line, counts_text, denials_line, report_text};

use crate::print::end_line;
use lfs_model::counts::Counts;
use lfs_types::rule::{RULES, Rule};
use lfs_words::append::push_number;
use std::alloc::{AllocError, Global};

/// The report of counts: how many entries a journal has, how many users' calls were served, denied and refused, how many calls
/// the cleaner made, and how many calls each rule denied.
pub fn report_counts(alloc: Global, counts: &Counts) -> Result<Vec<u8>, AllocError>
    ensures text { IfOk result (λ text. text.items ≡ counts_text counts.now) }
    ensures same { IfOk result (λ text. (entries : List Entry)
        → counts.now ≡ counts_of entries → text.items ≡ report_text entries) }
{
    let mut text = Vec::new(alloc);
    append_counts(&mut text, counts)?;
    Ok(text)
}

/// Appends the report of counts.
pub fn append_counts(out: &mut Vec<u8>, counts: &Counts) -> Result<(), AllocError>
    ensures text { OnOk result (out.new.items ≡ out.old.items ++ counts_text counts.now) }
    ensures same { OnOk result ((entries : List Entry)
        → counts.now ≡ counts_of entries → out.new.items ≡ out.old.items ++ report_text entries) }
{
    push_counts(out, counts)
}

/// Appends the lines of counts: their sum, the four, and the rules.
fn push_counts(out: &mut Vec<u8>, counts: &Counts) -> Result<(), AllocError>
    ensures { OnOk result (out.new.items ≡ out.old.items ++ counts_text counts.now) }
{
    push_count(out, "entries", entered(counts))?;
    push_count(out, "served", u64::from(counts.served))?;
    push_count(out, "denied", u64::from(counts.denied))?;
    push_count(out, "refused", u64::from(counts.refused))?;
    push_count(out, "cleaner", u64::from(counts.cleaner))?;
    push_denials(out, &RULES, &counts.rules)
}

/// How many entries a journal has of which these are the counts.
fn entered(counts: &Counts) -> u64
    ensures { let c = counts.now in result ≡ c.served + c.denied + c.refused + c.cleaner }
{
    u64::from(counts.served)
        + u64::from(counts.denied)
        + u64::from(counts.refused)
        + u64::from(counts.cleaner)
}

/// Appends the lines of the rules that denied calls, each with how many.
fn push_denials(out: &mut Vec<u8>, rules: &[Rule], numbers: &[u32]) -> Result<(), AllocError>
    requires { length numbers.now ≡ length rules.now }
    ensures { OnOk result (out.new.items
        ≡ out.old.items ++ flat_map denials_line (zip rules.now numbers.now)) }
{
    for place in 0..rules.len() {
        push_denial(out, rules[place], u64::from(numbers[place]))?;
    }
    Ok(())
}

/// Appends how many calls a rule denied, where it denied any.
fn push_denial(out: &mut Vec<u8>, rule: Rule, number: u64) -> Result<(), AllocError>
    ensures { OnOk result (out.new.items ≡ out.old.items ++ denials_line (rule, number)) }
{
    if number == 0 {
        return Ok(());
    }
    out.extend_from_slice(b"rule ")?;
    push_count(out, rule.code(), number)
}

/// Appends a line of a word and a number.
#[tactic(auto, unfolding(crate::specs::ReportText::count_line))]
fn push_count(out: &mut Vec<u8>, word: &str, number: u64) -> Result<(), AllocError>
    ensures { OnOk result (out.new.items ≡ out.old.items ++ count_line word.now number) }
{
    out.extend_from_slice(word.as_bytes())?;
    push_number(out, number)?;
    end_line(out)
}
