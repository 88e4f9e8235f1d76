//! Plans as scripts of sessions.

ghost use Rattle.std.specs.Prelude.{◌≡◌, ◌+◌, ◌<◌, ℕ, [], ◌∷◌, false, map, replicate, vec_len, IfOk, OnOk, MatchResult};
ghost use Rattle.std.specs.List.{list_any};
ghost use Rattle.lfs_script.specs.Splitting.{Sorts, act_call, is_cleaner_fault, is_of_cleaner, with_call};

use crate::plan::{Act, Plan, Step, Steps};
use lfs_types::cred::Cred;
use lfs_types::request::Request;
use lfs_types::script::Script;
use std::alloc::{AllocError, Global};
use thiserror::Error;

/// Why a plan is not split into scripts: the first of these that holds (this project's profile).
#[derive(Clone, Copy, PartialEq, Eq, Debug, Error)]
pub enum SplitFault {
    /// A line asks for a call of the cleaner, or for a pass.
    #[error("cleaner line")]
    CleanerLine,
    /// A growth was refused.
    #[error("no memory")]
    Memory,
}

impl From<AllocError> for SplitFault {
    ghost use Rattle.lfs_script.specs.declared.split.SplitFault.TheVariants.{Memory};

    ghost from_gives = { λ _ fault. fault ≡ Memory };

    fn from(_error: AllocError) -> SplitFault {
        SplitFault::Memory
    }
}

/// A call, and who makes it.
type Call = (Cred, Request);

impl Plan {
    /// The calls of session 0, and a script for each session from 1 to the highest that a line names, also for one
    /// without calls.
    pub fn split(self, alloc: Global) -> Result<(Script, Vec<Script>), SplitFault>
        ensures { MatchResult result
            (λ both. (list_any is_of_cleaner self.steps ≡ false) × (vec_len both.1 ≡ self.sessions)
            × Sorts self.steps (self.sessions + 1) (both.0 ∷ both.1.items))
            (λ fault. list_any is_of_cleaner self.steps ≡ is_cleaner_fault fault) }
    {
        if self.has_cleaner_line() {
            return Err(SplitFault::CleanerLine);
        }
        let sessions = usize::from(self.sessions());
        let mut lists = calls_by_session(alloc, self.into_steps(), sessions + 1)?;
        let setup = lists.remove(0);
        let scripts = scripts_of(alloc, lists)?;
        Ok((Script::from(setup), scripts))
    }
}

/// The users' calls of each session below `count`.
fn calls_by_session(alloc: Global, steps: Steps, count: usize) -> Result<Vec<Vec<Call>>, AllocError>
    ensures { IfOk result (λ lists. (vec_len lists ≡ count)
        × Sorts steps count (map (λ list. list.items) lists.items)) }
{
    let mut lists = empty_lists(alloc, count)?;
    for step in steps {
        let session = usize::from(step.session);
        if let Some(call) = user_call(step) {
            push_call(&mut lists, session, call)?;
        }
    }
    Ok(lists)
}

/// The user's call that a step asks for, where it does.
fn user_call(step: Step) -> Option<Call>
    ensures { result ≡ act_call step.cred step.act }
{
    let Step { cred, act, .. } = step;
    match act {
        Act::User(request) => Some((cred, request)),
        Act::Cleaner(_) | Act::Pass => None,
    }
}

/// So many empty lists.
fn empty_lists(alloc: Global, count: usize) -> Result<Vec<Vec<Call>>, AllocError>
    ensures { IfOk result (λ lists. map (λ list. list.items) lists.items ≡ replicate count []) }
{
    let mut lists = Vec::new(alloc);
    for _ in 0..count {
        lists.push(Vec::new(alloc))?;
    }
    Ok(lists)
}

/// Adds a call to those of its session, where there is a list of them.
fn push_call(lists: &mut Vec<Vec<Call>>, session: usize, call: Call) -> Result<(), AllocError>
    ensures { OnOk result (map (λ list. list.items) lists.new.items
        ≡ with_call (map (λ list. list.items) lists.old.items) session call) }
{
    if session < lists.len() {
        lists[session].push(call)?;
    }
    Ok(())
}

/// Lists of calls as scripts.
fn scripts_of(alloc: Global, lists: Vec<Vec<Call>>) -> Result<Vec<Script>, AllocError>
    ensures { IfOk result (λ scripts. scripts.items ≡ map (λ list. list.items) lists.items) }
{
    let mut scripts = Vec::new(alloc);
    for list in lists {
        scripts.push(Script::from(list))?;
    }
    Ok(scripts)
}
