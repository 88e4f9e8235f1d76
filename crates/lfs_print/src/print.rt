//! The lines of answers.

ghost use Rattle.std.specs.Prelude.{◌≡◌, ◌∷◌, ◌++◌, [], map, IfOk, OnOk};
ghost use Rattle.lfs_print.specs.AnswerText.{answer_line, answer_words, attrs_words, denial_words, kind_word, resource_word, served_words, stat_words};
ghost use Rattle.lfs_words.specs.Wording.{spaced};
ghost use Rattle.lfs_print.specs.CleanerText.{cleaner_line, cleaner_words, done_words, fault_words, outcome_words};
ghost use Rattle.lfs_words.specs.NameText.{name_text};

use crate::cleaner::cleaner_word;
use lfs_model::journal::{CleanerAnswer, CleanerKind, CleanerOutcome};
use lfs_types::answer::{Answer, Resource, Served};
use lfs_types::attrs::{Attrs, Kind};
use lfs_types::cleaner::CleanFault;
use lfs_types::name::Name;
use lfs_types::rule::Denial;
use lfs_words::append::{
    push_bytes, push_decimal, push_flags, push_mode, push_name, push_number, push_word,
};
use std::alloc::{AllocError, Global};

/// The line of an answer to a user's call: the session, what is answered and a line feed.
pub fn print_answer(alloc: Global, session: u8, answer: &Answer) -> Result<Vec<u8>, AllocError>
    ensures { IfOk result (λ line. line.items ≡ answer_line session answer.now) }
{
    let mut line = Vec::new(alloc);
    append_answer(&mut line, session, answer)?;
    Ok(line)
}

/// Appends the line of an answer to a user's call.
pub fn append_answer(out: &mut Vec<u8>, session: u8, answer: &Answer) -> Result<(), AllocError>
    ensures { OnOk result (out.new.items ≡ out.old.items ++ answer_line session answer.now) }
{
    push_decimal(out, u64::from(session))?;
    push_answer(out, answer)?;
    end_line(out)
}

/// Ends a line.
pub(crate) fn end_line(out: &mut Vec<u8>) -> Result<(), AllocError>
    ensures { OnOk result (out.new.items ≡ out.old.items ++ 10 ∷ []) }
{
    out.extend_from_slice(b"\n")
}

/// Appends the words of an answer.
pub fn push_answer(out: &mut Vec<u8>, answer: &Answer) -> Result<(), AllocError>
    ensures { OnOk result (out.new.items ≡ out.old.items ++ spaced (answer_words answer.now)) }
{
    match answer {
        Answer::Served(served) => push_served(out, served),
        Answer::Denied(denial) => push_denial(out, *denial),
        Answer::Refused(resource) => push_words(out, "refused", resource_word(*resource)),
    }
}

/// Appends two words.
fn push_words(out: &mut Vec<u8>, first: &str, second: &str) -> Result<(), AllocError>
    ensures { OnOk result (out.new.items ≡ out.old.items ++ spaced (first.now ∷ second.now ∷ [])) }
{
    push_word(out, first)?;
    push_word(out, second)
}

/// Appends the words of what a served call shows.
fn push_served(out: &mut Vec<u8>, served: &Served) -> Result<(), AllocError>
    ensures { OnOk result (out.new.items ≡ out.old.items ++ spaced (served_words served.now)) }
{
    match served {
        Served::Stat(number, attrs) => push_stat(out, *number, attrs),
        Served::Bytes(bytes) => {
            push_word(out, "bytes")?;
            push_bytes(out, bytes.as_slice())
        }
        Served::Names(names) => {
            push_word(out, "names")?;
            push_names(out, names.as_slice())
        }
        Served::Done => push_word(out, "ok"),
    }
}

/// Appends a file's number and attributes.
fn push_stat(out: &mut Vec<u8>, number: u32, attrs: &Attrs) -> Result<(), AllocError>
    ensures { OnOk result (out.new.items ≡ out.old.items ++ spaced (stat_words number attrs.now)) }
{
    push_word(out, "stat")?;
    push_number(out, u64::from(number))?;
    push_word(out, kind_word(attrs.kind))?;
    push_attrs(out, attrs)
}

/// Appends the owner, the group, the mode, the flags and the size of a file.
fn push_attrs(out: &mut Vec<u8>, attrs: &Attrs) -> Result<(), AllocError>
    ensures { OnOk result (out.new.items ≡ out.old.items ++ spaced (attrs_words attrs.now)) }
{
    push_number(out, u64::from(attrs.uid))?;
    push_number(out, u64::from(attrs.gid))?;
    push_mode(out, attrs.mode)?;
    push_flags(out, attrs.flags)?;
    push_number(out, attrs.size)
}

/// The word of a kind of file.
fn kind_word(kind: Kind) -> &'static str
    ensures { result.now ≡ kind_word kind }
{
    match kind {
        Kind::File => "file",
        Kind::Directory => "dir",
    }
}

/// Appends names.
fn push_names(out: &mut Vec<u8>, names: &[Name]) -> Result<(), AllocError>
    ensures { OnOk result (out.new.items ≡ out.old.items ++ spaced (map name_text names.now)) }
{
    for name in names {
        push_name(out, name)?;
    }
    Ok(())
}

/// Appends a denial: the rule's code and error, the path and the component.
fn push_denial(out: &mut Vec<u8>, denial: Denial) -> Result<(), AllocError>
    ensures { OnOk result (out.new.items ≡ out.old.items ++ spaced (denial_words denial)) }
{
    push_word(out, "denied")?;
    push_word(out, denial.rule.code())?;
    push_word(out, denial.rule.error().name())?;
    push_number(out, u64::from(denial.path))?;
    push_number(out, u64::from(denial.at))
}

/// The word of a resource.
fn resource_word(resource: Resource) -> &'static str
    ensures { result.now ≡ resource_word resource }
{
    match resource {
        Resource::NoMemory => "NoMemory",
        Resource::NoSpace => "NoSpace",
        Resource::NoInodes => "NoInodes",
        Resource::DirectoryFull => "DirectoryFull",
        Resource::JournalFull => "JournalFull",
    }
}

/// The line of an answer to a cleaner's call: the session, what is answered and a line feed.
pub fn print_cleaner(
    alloc: Global,
    session: u8,
    kind: CleanerKind,
    answer: &CleanerAnswer,
) -> Result<Vec<u8>, AllocError>
    ensures { IfOk result (λ line. line.items ≡ cleaner_line session kind answer.now) }
{
    let mut line = Vec::new(alloc);
    append_cleaner(&mut line, session, kind, answer)?;
    Ok(line)
}

/// Appends the line of an answer to a cleaner's call.
pub fn append_cleaner(
    out: &mut Vec<u8>,
    session: u8,
    kind: CleanerKind,
    answer: &CleanerAnswer,
) -> Result<(), AllocError>
    ensures { OnOk result (out.new.items ≡ out.old.items ++ cleaner_line session kind answer.now) }
{
    push_decimal(out, u64::from(session))?;
    push_word(out, "cleaner")?;
    push_word(out, cleaner_word(kind))?;
    push_cleaner(out, answer)?;
    end_line(out)
}

/// Appends the words of an answer to a cleaner's call.
fn push_cleaner(out: &mut Vec<u8>, answer: &CleanerAnswer) -> Result<(), AllocError>
    ensures { OnOk result (out.new.items ≡ out.old.items ++ spaced (cleaner_words answer.now)) }
{
    match answer {
        CleanerAnswer::Refused(resource) => push_words(out, "refused", resource_word(*resource)),
        CleanerAnswer::Denied(denial) => push_words(out, "denied", denial.rule.code()),
        CleanerAnswer::Fault(fault) => push_fault(out, *fault),
        CleanerAnswer::Ifile(bytes) => push_done(out, bytes.as_slice().len() as u64),
        CleanerAnswer::Infos(infos) => push_done(out, infos.items().len() as u64),
        CleanerAnswer::Bmapv(infos) => push_done(out, infos.items().len() as u64),
        CleanerAnswer::Marked(count) => push_done(out, u64::from(*count)),
        CleanerAnswer::Cleaned | CleanerAnswer::Gained => push_done(out, 0),
    }
}

/// Appends the words of what came of a cleaner's call, as the journal tells it.
pub fn push_outcome(out: &mut Vec<u8>, outcome: CleanerOutcome) -> Result<(), AllocError>
    ensures { OnOk result (out.new.items ≡ out.old.items ++ spaced (outcome_words outcome)) }
{
    match outcome {
        CleanerOutcome::Denied => push_word(out, "denied"),
        CleanerOutcome::Fault(fault) => push_fault(out, fault),
        CleanerOutcome::Done(number) => push_done(out, u64::from(number)),
    }
}

/// Appends that a cleaner's call is done, and the number that it gave.
fn push_done(out: &mut Vec<u8>, number: u64) -> Result<(), AllocError>
    ensures { OnOk result (out.new.items ≡ out.old.items ++ spaced (done_words number)) }
{
    push_word(out, "ok")?;
    push_number(out, number)
}

/// Appends why a cleaner's call did nothing.
fn push_fault(out: &mut Vec<u8>, fault: CleanFault) -> Result<(), AllocError>
    ensures { OnOk result (out.new.items ≡ out.old.items ++ spaced (fault_words fault)) }
{
    push_word(out, "fault")?;
    match fault {
        CleanFault::NoSuchSegment => push_word(out, "NoSuchSegment"),
        CleanFault::Active => push_word(out, "Active"),
        CleanFault::NotDirty => push_word(out, "NotDirty"),
        CleanFault::Live(bytes) => {
            push_word(out, "Live")?;
            push_number(out, u64::from(bytes))
        }
        CleanFault::NoSpace => push_word(out, "NoSpace"),
        CleanFault::NotGainful => push_word(out, "NotGainful"),
    }
}
