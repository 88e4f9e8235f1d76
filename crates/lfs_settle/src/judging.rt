//! The setup, the sessions and the strangers of a journal, each judged alone.

ghost use Rattle.std.specs.Prelude.{◌≡◌, ◌↔◌, ◌≤◌, ℕ, IsTrue, MatchOption, length, map};
ghost use Rattle.lfs_settle.specs.Interleaving.{AgreesAt, AreEntered, IsEntered, HasNoStrangers, IsBegun, IsOfRun, IsLowest, MadeItsCalls};

use crate::entries::CLEANER;
use crate::stepping::{after_call, after_setup_call, has_full, next_of, stays_full};
use lfs_model::journal::{Entry, Event};
use lfs_types::answer::Answer;
use lfs_types::cred::Cred;
use lfs_types::request::Request;
use lfs_types::script::Script;

/// The entries behind those of the setup's calls with these answers, if the journal begins with these.
pub fn after_setup<'a>(
    is_full: bool,
    entries: &'a [Entry],
    setup: &[(Cred, Request)],
    answers: &[Answer],
) -> Option<&'a [Entry]>
    ensures { MatchOption result
        ((later : _) → IsBegun is_full entries.now setup.now answers.now later → ⊥)
        (λ rest. IsBegun is_full entries.now setup.now answers.now rest.now) }
{
    if !stays_full(answers) {
        return None;
    }
    let later = behind_setup(is_full, entries, setup, answers)?;
    if !later.is_empty() && has_full(answers) {
        return None;
    }
    Some(later)
}

/// The entries behind those of the setup's next calls with these answers, if these are first.
fn behind_setup<'a>(
    is_full: bool,
    entries: &'a [Entry],
    setup: &[(Cred, Request)],
    answers: &[Answer],
) -> Option<&'a [Entry]>
    ensures { MatchOption result
        ((later : _) → IsEntered is_full entries.now setup.now answers.now later → ⊥)
        (λ rest. IsEntered is_full entries.now setup.now answers.now rest.now) }
{
    let mut rest = entries;
    let mut calls = setup;
    let mut given = answers;
    while let Some((call, more_calls)) = calls.split_first() {
        let (answer, more_given) = given.split_first()?;
        rest = after_setup_call(is_full, rest, call, answer)?;
        calls = more_calls;
        given = more_given;
    }
    if !given.is_empty() {
        return None;
    }
    Some(rest)
}

/// Whether the entries of a session are those of its calls with these answers.
pub fn is_settled(
    session: u8,
    is_full: bool,
    entries: &[Entry],
    script: &[(Cred, Request)],
    answers: &[Answer],
) -> bool
    ensures { IsTrue result ↔ MadeItsCalls is_full entries.now session script.now answers.now }
{
    stays_full(answers) && are_entered(session, is_full, entries, script, answers)
}

/// Whether the entries of a session are those of its next calls with these answers.
fn are_entered(
    session: u8,
    is_full: bool,
    entries: &[Entry],
    script: &[(Cred, Request)],
    answers: &[Answer],
) -> bool
    ensures { IsTrue result ↔ AreEntered is_full entries.now session script.now answers.now }
{
    let mut rest = entries;
    let mut calls = script;
    let mut given = answers;
    while let Some((call, more_calls)) = calls.split_first() {
        let Some((answer, more_given)) = given.split_first() else {
            return false;
        };
        let Some(behind) = after_call(session, is_full, rest, call, answer) else {
            return false;
        };
        rest = behind;
        calls = more_calls;
        given = more_given;
    }
    if !given.is_empty() {
        return false;
    }
    next_of(session, rest).is_none()
}

/// The lowest session from 1 on whose lists differ from its entries.
pub fn differing_session(
    is_full: bool,
    later: &[Entry],
    scripts: &[Script],
    transcripts: &[Vec<Answer>],
) -> Option<u8>
    requires { length scripts.now ≤ 8 }
    ensures { MatchOption result
        ((session : ℕ) → 1 ≤ session
        → AgreesAt is_full later.now scripts.now (map (λ t. t.items) transcripts.now) session)
        (λ u. IsLowest is_full later.now scripts.now (map (λ t. t.items) transcripts.now) u) }
{
    let mut asked = scripts;
    let mut answered = transcripts;
    let mut settled = 0;
    while let Some((script, more_asked)) = asked.split_first() {
        let Some((answers, more_answered)) = answered.split_first() else {
            return Some(settled + 1);
        };
        let session = settled + 1;
        if !is_settled(
            session,
            is_full,
            later,
            script.as_slice(),
            answers.as_slice(),
        ) {
            return Some(session);
        }
        settled = session;
        asked = more_asked;
        answered = more_answered;
    }
    if !answered.is_empty() {
        return Some(settled + 1);
    }
    None
}

/// Whether an entry is of one of so many sessions, or of the cleaner.
fn is_known(sessions: usize, entry: &Entry) -> bool
    ensures { IsTrue result ↔ IsOfRun sessions entry.now }
{
    if entry.session >= 1 && usize::from(entry.session) <= sessions {
        return true;
    }
    if entry.session != CLEANER || entry.cred.uid() != 0 {
        return false;
    }
    match entry.event {
        Event::User(_, _) => false,
        Event::Cleaner(_, _) => true,
    }
}

/// Whether no entry is a stranger's.
pub fn are_known(sessions: usize, entries: &[Entry]) -> bool
    ensures { IsTrue result ↔ HasNoStrangers sessions entries.now }
{
    let mut rest = entries;
    while let Some((entry, behind)) = rest.split_first() {
        if !is_known(sessions, entry) {
            return false;
        }
        rest = behind;
    }
    true
}
