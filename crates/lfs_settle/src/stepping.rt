//! One call more, found in a journal or missed there.

ghost use Rattle.std.specs.Prelude.{◌≡◌, ◌↔◌, ◌∷◌, [], false, IsTrue, MatchOption};
ghost use Rattle.std.specs.List.{list_any};
ghost use Rattle.lfs_model.specs.Memory.{IsCopying};
ghost use Rattle.lfs_settle.specs.Interleaving.{AreEntered, IsEntered, MayAnswer, StaysFull, is_journal_full, session_entries};
ghost use Rattle.lfs_settle.specs.Entering.{makes_entry};

use lfs_model::journal::Entry;
use lfs_types::answer::{Answer, Resource};
use lfs_types::cred::Cred;
use lfs_types::request::Request;

/// Whether a call copies what it serves.
fn is_copying(request: &Request) -> bool
    ensures { IsTrue result ↔ IsCopying request.now }
{
    matches!(request, Request::Read { .. } | Request::List { .. })
}

/// Whether an answer may be given to a call.
pub fn may_answer(is_full: bool, request: &Request, answer: &Answer) -> bool
    ensures { IsTrue result ↔ MayAnswer is_full request.now answer.now }
{
    match answer {
        Answer::Refused(Resource::NoMemory) => is_copying(request),
        Answer::Refused(Resource::JournalFull) => is_full,
        _ => true,
    }
}

/// Whether a call answered so makes an entry.
pub fn makes_entry(answer: &Answer) -> bool
    ensures { result ≡ makes_entry answer.now }
{
    !matches!(
        answer,
        Answer::Refused(Resource::NoMemory | Resource::JournalFull)
    )
}

/// Whether an answer tells that the journal has no room.
fn is_journal_full(answer: &Answer) -> bool
    ensures { result ≡ is_journal_full answer.now }
{
    matches!(answer, Answer::Refused(Resource::JournalFull))
}

/// Whether one of the answers tells that the journal has no room.
pub fn has_full(answers: &[Answer]) -> bool
    ensures { result ≡ list_any is_journal_full answers.now }
{
    for answer in answers {
        if is_journal_full(answer) {
            return true;
        }
    }
    false
}

/// Whether behind an answer that the journal has no room there is no other.
pub fn stays_full(answers: &[Answer]) -> bool
    ensures { IsTrue result ↔ StaysFull false answers.now }
{
    let mut rest = answers;
    let mut was_full = false;
    while let Some((answer, behind)) = rest.split_first() {
        let is_full = is_journal_full(answer);
        if was_full && !is_full {
            return false;
        }
        was_full = is_full;
        rest = behind;
    }
    true
}

/// The first entry of a session, and those behind it.
pub fn next_of(session: u8, entries: &[Entry]) -> Option<(&Entry, &[Entry])>
    ensures { MatchOption result (session_entries session entries.now ≡ [])
        (λ p. session_entries session entries.now ≡ p.0.now ∷ session_entries session p.1.now) }
{
    let mut rest = entries;
    while let Some((entry, later)) = rest.split_first() {
        if entry.session == session {
            return Some((entry, later));
        }
        rest = later;
    }
    None
}

/// The entries behind the entry of the setup's next call, if they can be that call's and those behind.
pub fn after_setup_call<'a>(
    is_full: bool,
    entries: &'a [Entry],
    call: &(Cred, Request),
    answer: &Answer,
) -> Option<&'a [Entry]>
    ensures { MatchOption result
        ((setup : _) → (answers : _) → (later : _)
        → IsEntered is_full entries.now (call.now ∷ setup) (answer.now ∷ answers) later → ⊥)
        (λ rest. (setup : _) → (answers : _) → (later : _)
        → IsEntered is_full entries.now (call.now ∷ setup) (answer.now ∷ answers) later
        ↔ IsEntered is_full rest.now setup answers later) }
{
    let (cred, request) = call;
    if !may_answer(is_full, request, answer) {
        return None;
    }
    if !makes_entry(answer) {
        return Some(entries);
    }
    let (entry, rest) = entries.split_first()?;
    if !entry.is_call(0, cred, request, answer) {
        return None;
    }
    Some(rest)
}

/// The entries behind the entry of a session's next call, if they can be that call's and those behind.
pub fn after_call<'a>(
    session: u8,
    is_full: bool,
    entries: &'a [Entry],
    call: &(Cred, Request),
    answer: &Answer,
) -> Option<&'a [Entry]>
    ensures { MatchOption result
        ((script : _) → (answers : _)
        → AreEntered is_full entries.now session (call.now ∷ script) (answer.now ∷ answers) → ⊥)
        (λ rest. (script : _) → (answers : _)
        → AreEntered is_full entries.now session (call.now ∷ script) (answer.now ∷ answers)
        ↔ AreEntered is_full rest.now session script answers) }
{
    let (cred, request) = call;
    if !may_answer(is_full, request, answer) {
        return None;
    }
    if !makes_entry(answer) {
        return Some(entries);
    }
    let (entry, rest) = next_of(session, entries)?;
    if !entry.is_call(session, cred, request, answer) {
        return None;
    }
    Some(rest)
}
