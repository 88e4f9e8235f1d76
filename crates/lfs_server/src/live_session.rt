//! A session of a server that runs.

ghost use Rattle.std.specs.Prelude.{◌≡◌, ◌-◌, ◌≤◌, [], IfOk, OnErr, OnOk, length, option_copied, slice_get};
ghost use Rattle.lfs_types.specs.declared.answer.Answer.{Answer};
ghost use Rattle.lfs_server.specs.Telling.{Adds};

use crate::gate::Turns;
use crate::live::{BeginFault, Live};
use crate::telling::make_room;
use lfs_settle::transcripts::Transcript;
use lfs_types::answer::Answer;
use lfs_types::cred::Cred;
use lfs_types::request::Request;
use std::alloc::AllocError;

/// A session of a server: its number, as whom it calls, and what it has asked and been answered.
#[derive(Drop)]
pub struct Session<'s, L: Live> {
    server: &'s L,
    cred: Cred,
    turns: Turns,
    transcript: Transcript,
}

impl<'s, L: Live> Session<'s, L> {
    /// A session that begins: it has a number of its own, and calls with this credential.
    pub fn begin(server: &'s L, cred: Cred) -> Result<Session<'s, L>, BeginFault>
        ensures { IfOk result (λ session. (session.cred ≡ cred)
            × (1 ≤ session.transcript.session) × (session.transcript.session ≤ 254)
            × (session.transcript.calls.items ≡ []) × (session.transcript.answers.items ≡ [])) }
    {
        let transcript = server.begin()?;
        Ok(Session {
            server,
            cred,
            turns: Turns::new(transcript.session),
            transcript,
        })
    }

    /// Its number.
    pub fn number(&self) -> u8
        ensures { result ≡ self.now.transcript.session }
    {
        self.transcript.session
    }

    /// Makes a call, and keeps it with what it is answered.
    ///
    /// # Errors
    ///
    /// Where there is no memory to keep the call. Then it isn't made.
    pub fn call(&mut self, request: Request) -> Result<(), AllocError>
        ensures cred { self.new.cred ≡ self.old.cred }
        ensures answered { OnOk result ((answer : Answer)
            × Adds (self.old.cred, request) answer self.old.transcript self.new.transcript) }
        ensures not_made { OnErr result (
            (self.new.transcript.session ≡ self.old.transcript.session)
            × (self.new.transcript.calls.items ≡ self.old.transcript.calls.items)
            × (self.new.transcript.answers.items ≡ self.old.transcript.answers.items)) }
    {
        let copy = make_room(&mut self.transcript, &request)?;
        self.server.call(
            &mut self.turns,
            &mut self.transcript,
            (self.cred, request),
            copy,
        );
        Ok(())
    }

    /// What its last call was answered; `None` before the first.
    pub fn answer(&self) -> Option<&Answer>
        ensures { option_copied result ≡ slice_get self.now.transcript.answers.items
            (length self.now.transcript.answers.items - 1) }
    {
        self.transcript.answers.as_slice().last()
    }

    /// Ends it.
    pub fn end(self) {
        let Session {
            server,
            transcript,
            ..
        } = self;
        server.end(transcript);
    }
}
