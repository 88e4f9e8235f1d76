//! Who asks: each once for all lines in a row.

ghost use Rattle.std.specs.Prelude.{◌≡◌, ◌++◌, ◌∷◌, ◌<◌, List, [], false, length, IfOk};
ghost use Rattle.lfs_script.specs.Layout.{asker_at};
ghost use Rattle.lfs_script.specs.declared.askers.Asker.{Asker};

use lfs_types::cred::Cred;
use lfs_words::caller::first_caller;
use std::alloc::{AllocError, Global};
use std::marker::Model;

/// Who asks, and in which session.
#[derive(Clone, Copy, Debug)]
pub(crate) struct Asker {
    pub(crate) cred: Cred,
    /// The session, from 0 to 8.
    pub(crate) session: u8,
}

/// Who asked so far, and who asks from now on.
#[derive(Drop)]
pub(crate) struct Askers {
    table: Vec<Asker>,
    present: Asker,
    /// The number of the present asker, if it is in the table.
    number: Option<u32>,
}

impl Model for Askers {
    ghost use Rattle.std.specs.Prelude.{◌≡◌, ◌<◌, length, IfSome};
    ghost use Rattle.lfs_script.specs.Layout.{Known, asker_at};

    ghost Value = { Known };

    ghost view = { λ a. record { table = a.table.items; present = a.present } };

    ghost invariant = { λ a. IfSome a.number (λ number. (number < length a.table.items)
        × (asker_at a.table.items number ≡ a.present)) };
}

impl Askers {
    /// No one so far, and the superuser in session 0 from now on.
    pub(crate) fn new(alloc: Global) -> Askers
        ensures { result ≡ record {
          table = [];
          present = record { cred = record { uid = 0; groups = 0 ∷ []; init = false }; session = 0 };
        } }
    {
        let present = Asker {
            cred: first_caller(),
            session: 0,
        };
        Askers {
            table: Vec::new(alloc),
            present,
            number: None,
        }
    }

    /// The session from now on.
    pub(crate) fn set_session(&mut self, session: u8)
        ensures { self.new ≡ record self.old { present = record self.old.present { session = session } } }
    {
        if session != self.present.session {
            self.present.session = session;
            self.number = None;
        }
    }

    /// The credential from now on.
    pub(crate) fn set_cred(&mut self, cred: Cred)
        ensures { self.new ≡ record self.old { present = record self.old.present { cred = cred } } }
    {
        if cred != self.present.cred {
            self.present.cred = cred;
            self.number = None;
        }
    }

    /// The number of the present asker, who is in the table then.
    pub(crate) fn number(&mut self) -> Result<u32, AllocError>
        ensures known { IfOk result (λ number. (number < length self.new.table)
            × (asker_at self.new.table number ≡ self.old.present)) }
        ensures grown { (more : List Asker) × (self.new ≡ record self.old { table = self.old.table ++ more }) }
    {
        match self.number {
            Some(number) => Ok(number),
            None => self.keep(),
        }
    }

    /// Adds the present asker to the table, and gives its number.
    fn keep(&mut self) -> Result<u32, AllocError>
        ensures known { IfOk result (λ number. (number < length self.new.table)
            × (asker_at self.new.table number ≡ self.old.present)) }
        ensures grown { (more : List Asker) × (self.new ≡ record self.old { table = self.old.table ++ more }) }
    {
        let Ok(number) = u32::try_from(self.table.len()) else {
            return Err(AllocError);
        };
        self.table.push(self.present)?;
        self.number = Some(number);
        Ok(number)
    }

    /// Who asked.
    pub(crate) fn into_table(self) -> Vec<Asker>
        ensures { result.items ≡ self.table }
    {
        self.table
    }
}
