//! Whether a journal is what sessions were told that begin and end at any time.

ghost use Rattle.std.specs.Prelude.{◌≡◌, ◌↔◌, IsTrue, MatchOption, MatchResult};
ghost use Rattle.lfs_settle.specs.Interleaving.{IsCleaners};
ghost use Rattle.lfs_settle.specs.Settled.{AreTold, Differs, HasTeller, HaveTellers, IsAmong, IsInterleavingOf, IsTold, IsToldOtherwise, IsUntold};

use crate::entries::{CLEANER, Unsettled};
use crate::judging::is_settled;
use lfs_model::journal::{Entry, Event};
use lfs_types::answer::Answer;
use lfs_types::cred::Cred;
use lfs_types::request::Request;

/// What a session asked and was answered, in order.
#[derive(Drop, Debug)]
pub struct Transcript {
    /// The number of the session.
    pub session: u8,
    /// Its calls, each with the credential that it was made with.
    pub calls: Vec<(Cred, Request)>,
    /// The answers, one to each call.
    pub answers: Vec<Answer>,
}

/// Whether the entries of a journal, of which there may be `limit`, are an interleaving of these transcripts, whose
/// sessions begin and end at any time, and of calls of the cleaner, session 255 as user 0. No session has two transcripts.
///
/// # Errors
///
/// It names a session that differs, or whose entry has no transcript.
pub fn settle_transcripts(
    journal: &[Entry],
    limit: u32,
    transcripts: &[Transcript],
) -> Result<(), Unsettled>
    ensures { MatchResult result
        (λ _. IsInterleavingOf journal.now limit transcripts.now)
        (λ u. Differs journal.now limit transcripts.now u.0) }
{
    let is_full = journal.len() == limit as usize;
    if let Some(session) = told_otherwise(is_full, journal, transcripts) {
        return Err(Unsettled(session));
    }
    if let Some(session) = untold(transcripts, journal) {
        return Err(Unsettled(session));
    }
    Ok(())
}

/// The first session that has two transcripts, or was told otherwise than the journal has it.
fn told_otherwise(is_full: bool, journal: &[Entry], transcripts: &[Transcript]) -> Option<u8>
    ensures { MatchOption result (AreTold is_full journal.now transcripts.now)
        (λ u. IsToldOtherwise is_full journal.now transcripts.now u) }
{
    let mut rest = transcripts;
    while let Some((transcript, behind)) = rest.split_first() {
        if is_among(transcript.session, behind) || !is_told(is_full, journal, transcript) {
            return Some(transcript.session);
        }
        rest = behind;
    }
    None
}

/// Whether one of the transcripts is of a session.
fn is_among(session: u8, transcripts: &[Transcript]) -> bool
    ensures { IsTrue result ↔ IsAmong session transcripts.now }
{
    let mut rest = transcripts;
    while let Some((transcript, behind)) = rest.split_first() {
        if transcript.session == session {
            return true;
        }
        rest = behind;
    }
    false
}

/// Whether the entries of a session are those of its calls with their answers.
fn is_told(is_full: bool, journal: &[Entry], transcript: &Transcript) -> bool
    ensures { IsTrue result ↔ IsTold is_full journal.now transcript.now }
{
    is_settled(
        transcript.session,
        is_full,
        journal,
        transcript.calls.as_slice(),
        transcript.answers.as_slice(),
    )
}

/// The session of the first entry that is of no transcript, and not the cleaner's.
fn untold(transcripts: &[Transcript], entries: &[Entry]) -> Option<u8>
    ensures { MatchOption result (HaveTellers transcripts.now entries.now)
        (λ u. IsUntold transcripts.now entries.now u) }
{
    let mut rest = entries;
    while let Some((entry, behind)) = rest.split_first() {
        if !has_teller(transcripts, entry) {
            return Some(entry.session);
        }
        rest = behind;
    }
    None
}

/// Whether an entry is of a session that has a transcript, or of the cleaner.
fn has_teller(transcripts: &[Transcript], entry: &Entry) -> bool
    ensures { IsTrue result ↔ HasTeller transcripts.now entry.now }
{
    if is_among(entry.session, transcripts) {
        return true;
    }
    entry.session == CLEANER && entry.cred.uid() == 0 && is_cleaners(&entry.event)
}

/// Whether an event is a cleaner's call.
fn is_cleaners(event: &Event) -> bool
    ensures { IsTrue result ↔ IsCleaners event.now }
{
    match event {
        Event::User(_, _) => false,
        Event::Cleaner(_, _) => true,
    }
}
