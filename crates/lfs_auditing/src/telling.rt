//! What an audit tells, as text.

ghost use Rattle.std.specs.Prelude.{◌≡◌, ◌+◌};

use crate::audit::{Audit, Stop};
use crate::last::LastOnes;
use lfs_journal_lines::telling::push_entry;
use lfs_model::journal::{Entry, Event};
use lfs_print::print::push_answer;
use lfs_trace::checker::Checker;
use lfs_types::cred::Cred;
use lfs_types::path::Path;
use lfs_types::request::Request;
use lfs_who::act::Act;
use lfs_who::telling::push_who;
use lfs_why::lines::tell_explanation;
use lfs_words::append::push_number;
use lfs_words::spelling::spell_path;
use std::alloc::{AllocError, Global};

impl Audit {
    /// The text of an audit that stopped there: what it found, the report, and who could act by a path that is asked
    /// of.
    pub(crate) fn tell(&mut self, stop: &Stop, who: &Option<Path>) -> Result<Vec<u8>, AllocError> {
        let mut text = Vec::new(self.alloc);
        self.push_finding(&mut text, stop)?;
        self.push_report(&mut text)?;
        if let Some(path) = who {
            self.push_path(&mut text, path)?;
        }
        Ok(text)
    }

    /// What an audit found that stopped there, as lines of text.
    pub(crate) fn tell_stop(&mut self, stop: &Stop) -> Result<Vec<u8>, AllocError> {
        let mut text = Vec::new(self.alloc);
        self.push_finding(&mut text, stop)?;
        Ok(text)
    }

    /// Appends who could act by a path behind the legal entries.
    fn push_path(&mut self, out: &mut Vec<u8>, path: &Path) -> Result<(), AllocError> {
        out.extend_from_slice(b"who could by")?;
        spell_path(out, path)?;
        out.extend_from_slice(b":\n")?;
        let kind = self.checker.row(path).map(|row| row.attrs.kind);
        for act in Act::all_of(kind) {
            let who = self.checker.who(*act, path)?;
            push_who(out, act.word(), &who)?;
        }
        Ok(())
    }

    /// Appends what an audit found.
    fn push_finding(&mut self, out: &mut Vec<u8>, stop: &Stop) -> Result<(), AllocError> {
        match stop {
            Stop::End => push_legal(out, u64::from(self.entries)),
            Stop::Illegal(entry) => {
                push_place(out, "illegal", next_of(self.entries))?;
                push_entry(out, entry)?;
                self.push_rules(out, entry)
            }
            Stop::Unread(unread) => {
                push_place(out, "unreadable", next_of(self.entries))?;
                let fault = format!(in self.alloc; "{unread}\n")?;
                out.extend_from_slice(fault.as_bytes())
            }
        }
    }

    /// Appends what the rules say of an entry of a user's call: their answer, and the checks that come to it.
    pub(crate) fn push_rules(
        &mut self,
        out: &mut Vec<u8>,
        entry: &Entry,
    ) -> Result<(), AllocError> {
        match &entry.event {
            Event::User(request, _) => push_ruled(
                self.alloc,
                out,
                &mut self.checker,
                &entry.cred,
                request,
            ),
            Event::Cleaner(..) => Ok(()),
        }
    }

    /// Appends the report.
    fn push_report(&mut self, out: &mut Vec<u8>) -> Result<(), AllocError> {
        self.users.push(out)?;
        out.extend_from_slice(b"changed last:\n")?;
        push_last(out, &self.checker, self.numbers, &self.changed)?;
        out.extend_from_slice(b"read last by others:\n")?;
        push_last(out, &self.checker, self.numbers, &self.read)
    }
}

/// The number of the entry behind so many.
pub(crate) fn next_of(entries: u32) -> u64
    ensures { result ≡ entries + 1 }
{
    u64::from(entries) + 1
}

/// Appends that so many entries are legal.
fn push_legal(out: &mut Vec<u8>, entries: u64) -> Result<(), AllocError> {
    out.extend_from_slice(b"legal")?;
    push_number(out, entries)?;
    out.extend_from_slice(b" entries\n")
}

/// Appends what was found of the entry of a number.
fn push_place(out: &mut Vec<u8>, found: &str, number: u64) -> Result<(), AllocError> {
    out.extend_from_slice(found.as_bytes())?;
    out.extend_from_slice(b" entry")?;
    push_number(out, number)?;
    out.extend_from_slice(b": ")
}

/// Appends the answer of the rules to a call, and the checks that come to it.
fn push_ruled(
    alloc: Global,
    out: &mut Vec<u8>,
    checker: &mut Checker,
    cred: &Cred,
    request: &Request,
) -> Result<(), AllocError> {
    let answer = checker.ruled(cred, request)?;
    out.extend_from_slice(b"by the rules:")?;
    push_answer(out, &answer)?;
    out.push(b'\n')?;
    let explanation = checker.explain(cred, request)?;
    let text = tell_explanation(alloc, &explanation, cred, request)?;
    out.extend_from_slice(text.as_slice())
}

/// Appends a line for each file that is there and of which somebody is put down, by inode number.
fn push_last(
    out: &mut Vec<u8>,
    checker: &Checker,
    numbers: u32,
    ones: &LastOnes,
) -> Result<(), AllocError> {
    for number in 0..numbers {
        match ones.of(number) {
            Some(last) if checker.is_used(number) => last.push(out)?,
            _ => (),
        }
    }
    Ok(())
}
