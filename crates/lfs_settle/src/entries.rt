//! Whether the entries of a journal are an interleaving of what the sessions asked and were answered.

ghost use Rattle.std.specs.Prelude.{◌≡◌, ◌≤◌, MatchResult, length};
ghost use Rattle.lfs_settle.specs.Interleaving.{IsInterleaving, IsLowestToDiffer, run_of};

use crate::judging::{after_setup, are_known, differing_session};
use lfs_model::journal::Entry;
use lfs_types::answer::Answer;
use lfs_types::cred::Cred;
use lfs_types::request::Request;
use lfs_types::script::Script;
use thiserror::Error;

/// The session of the cleaner. Where only an entry of no session differs, it is told by this number too.
pub const CLEANER: u8 = 255;

/// The journal is no interleaving of what was asked and answered. It names the lowest session that differs: 0 is the
/// setup, and 255 says that only an entry differs that is of no session.
#[derive(Clone, Copy, PartialEq, Eq, Debug, Error)]
#[error("session {0} is not in the journal as it was answered")]
pub struct Unsettled(pub u8);

/// What the setup and the sessions asked, and what they were answered.
#[derive(Clone, Copy)]
pub struct Sessions<'a> {
    /// The calls of the setup, each with its caller.
    pub setup: &'a [(Cred, Request)],
    /// The answers to the setup.
    pub answers: &'a [Answer],
    /// The script of each session, session 1's first.
    pub scripts: &'a [Script],
    /// The answers to each session's script, session 1's first.
    pub transcripts: &'a [Vec<Answer>],
}

/// Whether the entries of a journal, of which there may be `limit`, begin with the setup as session 0, those of session k
/// behind it are those of the k-th script, and all others are the cleaner's, session 255 as user 0. There is one
/// answer to each call, and one transcript to each script; at most eight scripts.
pub fn settle_entries(
    journal: &[Entry],
    limit: u32,
    sessions: Sessions<'_>,
) -> Result<(), Unsettled>
    requires { length sessions.scripts.now ≤ 8 }
    ensures { MatchResult result
        (λ _. IsInterleaving
        (run_of journal.now limit sessions.entry.setup.now sessions.entry.answers.now
        sessions.entry.scripts.now sessions.entry.transcripts.now))
        (λ u. IsLowestToDiffer
        (run_of journal.now limit sessions.entry.setup.now sessions.entry.answers.now
        sessions.entry.scripts.now sessions.entry.transcripts.now) u.0) }
{
    let is_full = journal.len() == limit as usize;
    let Some(later) = after_setup(is_full, journal, sessions.setup, sessions.answers) else {
        return Err(Unsettled(0));
    };
    if let Some(session) = differing_session(
        is_full,
        later,
        sessions.scripts,
        sessions.transcripts,
    ) {
        return Err(Unsettled(session));
    }
    if !are_known(sessions.scripts.len(), later) {
        return Err(Unsettled(CLEANER));
    }
    Ok(())
}
