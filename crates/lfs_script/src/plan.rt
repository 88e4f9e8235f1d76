//! What a script asks.

ghost use Rattle.std.specs.Prelude.{◌≡◌, IfOk, OnOk};
ghost use Rattle.std.specs.List.{list_any};
ghost use Rattle.lfs_script.specs.PlanTypes.{AreWithin};
ghost use Rattle.lfs_script.specs.Plans.{added, first_draft, planned};
ghost use Rattle.lfs_script.specs.Splitting.{is_cleaner_act, is_of_cleaner};
ghost use Rattle.lfs_script.specs.declared.plan.Line.TheVariants as says;

use crate::askers::{Asker, Askers};
use crate::chunks::{Chunks, Items};
use lfs_types::cleaner::CleanerCall;
use lfs_types::cred::Cred;
use lfs_types::request::Request;
use std::alloc::{AllocError, Global};
use std::marker::Model;

/// What a line asks to be done.
#[derive(Drop, Debug)]
pub enum Act {
    /// A user's call.
    User(Request),
    /// A call of the cleaner.
    Cleaner(HeldCall),
    /// A pass of the cleaner.
    Pass,
}

/// A call of the cleaner in memory of its own. It may hold 248 infos, for which each line would need room.
#[derive(Drop, Debug)]
pub struct HeldCall {
    call: Box<CleanerCall>,
}

impl Model for HeldCall {
    ghost use Rattle.lfs_types.specs.declared.cleaner.CleanerCall.{CleanerCall};

    ghost Value = { CleanerCall };

    ghost view = { λ h. h.call.value };
}

impl HeldCall {
    /// This call.
    pub fn new(alloc: Global, call: CleanerCall) -> Result<HeldCall, AllocError>
        ensures { IfOk result (λ held. held ≡ call) }
    {
        let call = Box::new(alloc, call)?;
        Ok(HeldCall { call })
    }

    /// The call, which stays held.
    pub fn call(&self) -> &CleanerCall
        ensures { result.now ≡ self.now }
    {
        &self.call
    }

    /// The call.
    pub fn into_call(self) -> CleanerCall
        ensures { result ≡ self }
    {
        Box::into_inner(self.call)
    }
}

/// A line that asks for something: in which session, and who asks.
#[derive(Drop, Debug)]
pub struct Step {
    /// The session, from 0 to 8.
    pub session: u8,
    /// Who asks.
    pub cred: Cred,
    /// What is asked.
    pub act: Act,
}

/// What a line says.
#[derive(Drop)]
pub enum Line {
    /// Nothing: an empty line or a comment.
    Nothing,
    /// The lines that follow are of this session.
    Session(u8),
    /// The lines that follow have this credential.
    Caller(Cred),
    /// This is to be done.
    Act(Act),
}

/// What a line asks for, and who asks.
#[derive(Drop, Debug)]
struct AskedAct {
    act: Act,
    /// The number of who asks, in a table.
    asker: u32,
}

/// What a script asks: its steps, in the order of its lines.
#[derive(Drop, Debug)]
pub struct Plan {
    askers: Vec<Asker>,
    acts: Chunks<AskedAct>,
    sessions: u8,
}

impl Model for Plan {
    ghost use Rattle.lfs_script.specs.Layout.{AreAsked, steps_of};
    ghost use Rattle.lfs_script.specs.PlanTypes.{AreWithin, Planned};

    ghost Value = { Planned };

    ghost view = { λ p. record { steps = steps_of p.askers.items p.acts; sessions = p.sessions } };

    ghost invariant = { λ p. AreAsked p.askers.items p.acts
        × AreWithin (steps_of p.askers.items p.acts) p.sessions };
}

impl Plan {
    /// Whether a step asks for a call of the cleaner, or for a pass.
    pub(crate) fn has_cleaner_line(&self) -> bool
        ensures { result ≡ list_any is_of_cleaner self.now.steps }
    {
        have_cleaner_act(self.acts.chunks())
    }

    /// The highest session that a line names, from 0 to 8. No step is of a higher one.
    pub fn sessions(&self) -> u8
        ensures value { result ≡ self.now.sessions }
        ensures highest { AreWithin self.now.steps result }
    {
        self.sessions
    }

    /// The steps, in the order of the lines.
    pub fn into_steps(self) -> Steps
        ensures { result ≡ self.steps }
    {
        Steps {
            askers: self.askers,
            acts: self.acts.into_items(),
        }
    }
}

/// Whether one of these chunks has a call of the cleaner, or a pass.
fn have_cleaner_act(chunks: &[Vec<AskedAct>]) -> bool
    ensures { result
        ≡ list_any (λ acts. list_any (λ asked. is_cleaner_act asked.act) acts.items) chunks.now }
{
    chunks.iter().any(|acts| has_cleaner_act(acts.as_slice()))
}

/// Whether one of these is a call of the cleaner, or a pass.
fn has_cleaner_act(acts: &[AskedAct]) -> bool
    ensures { result ≡ list_any (λ asked. is_cleaner_act asked.act) acts.now }
{
    acts.iter().any(|asked| is_cleaner_act(&asked.act))
}

/// Whether this is a call of the cleaner, or a pass.
fn is_cleaner_act(act: &Act) -> bool
    ensures { result ≡ is_cleaner_act act.now }
{
    match act {
        Act::User(_) => false,
        Act::Cleaner(_) | Act::Pass => true,
    }
}

/// The steps of a plan, in the order of the lines. They free the memory of what was given out, many steps at a time.
#[derive(Drop)]
pub struct Steps {
    askers: Vec<Asker>,
    acts: Items<AskedAct>,
}

impl Model for Steps {
    ghost use Rattle.std.specs.Prelude.{List};
    ghost use Rattle.lfs_script.specs.Layout.{AreAsked, steps_of};
    ghost use Rattle.lfs_script.specs.declared.plan.Step.{Step};

    ghost Value = { List Step };

    ghost view = { λ s. steps_of s.askers.items s.acts };

    ghost invariant = { λ s. AreAsked s.askers.items s.acts };
}

impl Iterator for Steps {
    type Item = Step;

    ghost use Rattle.std.specs.Iterator.{YieldsFirst, item_count};

    ghost next_gives = { YieldsFirst (λ steps. steps) };

    ghost remaining = { item_count (λ steps. steps) };

    fn next(&mut self) -> Option<Step> {
        let AskedAct { act, asker } = self.acts.next()?;
        let Asker { cred, session } = self.askers[asker as usize];
        Some(Step { session, cred, act })
    }
}

/// The plan of the lines read so far, and the session and the credential of the lines to come.
#[derive(Drop)]
pub(crate) struct Draft {
    askers: Askers,
    acts: Chunks<AskedAct>,
    sessions: u8,
}

impl Model for Draft {
    ghost use Rattle.lfs_script.specs.Layout.{IsDraft, drafted};
    ghost use Rattle.lfs_script.specs.PlanTypes.{Drafted};

    ghost Value = { Drafted };

    ghost view = { λ d. drafted d.askers d.acts d.sessions };

    ghost invariant = { λ d. IsDraft d.askers d.acts d.sessions };
}

impl Draft {
    /// No lines.
    pub(crate) fn new(alloc: Global) -> Draft
        ensures { result ≡ first_draft }
    {
        Draft {
            askers: Askers::new(alloc),
            acts: Chunks::new(alloc),
            sessions: 0,
        }
    }

    /// Adds a line.
    pub(crate) fn add(&mut self, line: Line) -> Result<(), AllocError>
        ensures { OnOk result (self.new ≡ added self.old line) }
    {
        match line {
            Line::Nothing => {}
            Line::Session(session) => {
                self.askers.set_session(session);
                self.sessions = self.sessions.max(session);
            }
            Line::Caller(cred) => self.askers.set_cred(cred),
            Line::Act(act) => return self.push(act),
        }
        Ok(())
    }

    /// Adds what is to be done.
    fn push(&mut self, act: Act) -> Result<(), AllocError>
        ensures { OnOk result (self.new ≡ added self.old (says.Act act)) }
    {
        let asker = self.askers.number()?;
        self.acts.push(AskedAct { act, asker })?;
        Ok(())
    }

    /// The plan of these lines.
    pub(crate) fn finish(self) -> Plan
        ensures { result ≡ planned self }
    {
        Plan {
            askers: self.askers.into_table(),
            acts: self.acts,
            sessions: self.sessions,
        }
    }
}
