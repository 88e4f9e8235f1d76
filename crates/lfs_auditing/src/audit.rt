//! An audit: a journal's lines, each checked behind those before it.

ghost use Rattle.std.specs.Prelude.{◌≡◌, ◌≢◌, ◌+◌, Ok, length, List, [], ◌∷◌, ◌++◌, IfOk, MatchOption, OnOk};
ghost use Rattle.lfs_types.specs.Tree.{World, opening_world};
ghost use Rattle.lfs_logstore.specs.States.{state_of};
ghost use Rattle.lfs_calls.specs.Volumes.{HasWorld, InWorld};
ghost use Rattle.lfs_trace.specs.Checking.{IsSameStanding, StandsAt, numbers_of};
ghost use Rattle.lfs_auditing.specs.Audits.{HasRead, HasReadLine, HasReadNone, HasReadOn, IsIllegalBehind, IsOfSame, NotesOnly, StopsAtLine, StopsBehind, told_as};
ghost use Rattle.lfs_auditing.specs.Users.{AreCounted};

use crate::fault::{AuditFault, EntryLineFault};
use crate::last::{Last, LastOnes};
use crate::lines::{Piece, read_line};
use crate::telling::next_of;
use crate::users::Users;
use lfs_journal_lines::fault::LineFault;
use lfs_journal_lines::numbering::unnumbered;
use lfs_journal_lines::reading::read_entry;
use lfs_logstore::LogStore;
use lfs_model::journal::{Entry, Event};
use lfs_trace::checker::Checker;
use lfs_trace::errors::Denials;
use lfs_trace::fault::EntryFault;
use lfs_types::answer::{Answer, Served};
use lfs_types::cred::Cred;
use lfs_types::fault::FormatFault;
use lfs_types::level::Level;
use lfs_types::path::Path;
use lfs_types::request::Request;
use lfs_words::fault::FaultKind;
use std::alloc::{AllocError, Global};
use std::io::Read;

/// Where the reading of a journal ended.
#[derive(Drop)]
pub enum Stop {
    /// At its end: all its entries are legal.
    End,
    /// At an entry that isn't legal behind those before it.
    Illegal(Entry),
    /// At a line that tells no entry.
    Unread(EntryLineFault),
}

/// An audit of a journal: a checker of its entries, how many were legal so far, how each user's calls were answered,
/// who changed which file last, and which other than its owner read it last.
#[derive(Drop)]
pub struct Audit {
    pub(crate) alloc: Global,
    pub(crate) checker: Checker,
    pub(crate) denials: Denials,
    pub(crate) numbers: u32,
    pub(crate) entries: u32,
    pub(crate) users: Users,
    pub(crate) changed: LastOnes,
    pub(crate) read: LastOnes,
}

impl Audit {
    /// An audit of the journal of a volume with so many inode numbers and segments from its fresh tree on, which
    /// compares so much of denials.
    pub fn new(
        alloc: Global,
        numbers: u32,
        segments: u32,
        denials: Denials,
    ) -> Result<Audit, FormatFault>
        ensures fresh { IfOk result (HasReadNone opening_world) }
        ensures numbers { IfOk result (λ audit. numbers_of audit.checker ≡ numbers) }
        ensures segments { IfOk result (λ audit. audit.checker.segments ≡ segments) }
        ensures denials { IfOk result (λ audit. audit.denials ≡ denials) }
    {
        let checker = Checker::new(alloc, numbers, segments)?;
        Ok(Audit::at(alloc, checker, numbers, denials)?)
    }

    /// An audit of the journal that a volume goes on with, at this securelevel, from the tree that its store shows,
    /// which compares so much of denials.
    pub fn over(
        alloc: Global,
        store: &mut LogStore,
        level: Level,
        denials: Denials,
    ) -> Result<Audit, FormatFault>
        requires { HasWorld (state_of store.old) }
        ensures begun { IfOk result (λ audit. InWorld (state_of store.old) (λ w. w.level ≡ level
            → HasReadNone w audit)) }
        ensures numbers { IfOk result (λ audit. numbers_of audit.checker
            ≡ (state_of store.old).shape.numbers) }
        ensures segments { IfOk result (λ audit. audit.checker.segments
            ≡ (state_of store.old).shape.segments) }
        ensures denials { IfOk result (λ audit. audit.denials ≡ denials) }
    {
        let numbers = store.parts().log.inodes();
        let segments = store.parts().log.segments();
        let checker = Checker::over(alloc, store, level, numbers, segments)?;
        Ok(Audit::at(alloc, checker, numbers, denials)?)
    }

    /// An audit from where a checker stands, of a volume with so many inode numbers.
    fn at(
        alloc: Global,
        checker: Checker,
        numbers: u32,
        denials: Denials,
    ) -> Result<Audit, AllocError>
        ensures begun { IfOk result (λ audit. (w : World) → StandsAt checker w
            → HasReadNone w audit) }
        ensures checker { IfOk result (λ audit. audit.checker ≡ checker) }
        ensures denials { IfOk result (λ audit. audit.denials ≡ denials) }
    {
        let changed = LastOnes::none(alloc, numbers)?;
        let read = LastOnes::none(alloc, numbers)?;
        Ok(Audit {
            alloc,
            checker,
            denials,
            numbers,
            entries: 0,
            users: Users::none(alloc),
            changed,
            read,
        })
    }

    /// Reads lines up to the end of the input, or to the first that tells no legal entry.
    ///
    /// # Errors
    ///
    /// `Read` where the reader fails; `Memory`.
    pub fn read_journal<R: Read>(&mut self, reader: &mut R) -> Result<Stop, AuditFault>
        requires { (from : World) × (entries : List Entry) × HasRead from self.old entries }
        ensures read { IfOk result (λ stop. (from : World) (entries : List Entry)
            → HasRead from self.old entries
            → HasReadOn (R.remaining reader.old) (R.remaining reader.new)
            from entries self.new stop) }
        ensures same { IsOfSame self.old self.new }
    {
        let mut line = Vec::new(self.alloc);
        for _ in 0..u64::MAX {
            match self.next(reader, &mut line)? {
                None => (),
                Some(stop) => return Ok(stop),
            }
        }
        Err(AuditFault::Read)
    }

    /// Reads a line, and checks the entry that it tells; where it tells none, or there is something against it, or the
    /// input has ended, the audit stops there.
    pub(crate) fn next<R: Read>(
        &mut self,
        reader: &mut R,
        line: &mut Vec<u8>,
    ) -> Result<Option<Stop>, AuditFault>
        requires { (from : World) × (entries : List Entry) × HasRead from self.old entries }
        ensures read { IfOk result (λ stop. (from : World) (entries : List Entry)
            → HasRead from self.old entries
            → MatchOption stop
            (HasReadLine (R.remaining reader.old) (R.remaining reader.new) from entries self.new)
            (λ stop. HasRead from self.new entries
            × StopsBehind (R.remaining reader.old) (R.remaining reader.new)
            from self.new entries stop)) }
        ensures same { IsOfSame self.old self.new }
    {
        match read_line(reader, line)? {
            Piece::Line => self.line(line),
            Piece::End => Ok(Some(Stop::End)),
            Piece::Cut => Ok(Some(Stop::Unread(EntryLineFault::Cut))),
            Piece::TooLong => Ok(Some(Stop::Unread(EntryLineFault::TooLong))),
        }
    }

    /// Checks the entry that a line tells, behind its number where one stands before it; where there is something
    /// against it, the audit stops there.
    fn line(&mut self, line: &[u8]) -> Result<Option<Stop>, AuditFault>
        requires { (from : World) × (entries : List Entry) × HasRead from self.old entries }
        ensures read { IfOk result (λ stop. (from : World) (entries : List Entry)
            → HasRead from self.old entries
            → MatchOption stop
            ((entry : Entry) × (told_as (length entries + 1) line.now ≡ Ok entry)
            × HasRead from self.new (entries ++ entry ∷ []))
            (λ stop. StopsAtLine from self.new entries line.now stop
            × HasRead from self.new entries)) }
        ensures same { IsOfSame self.old self.new }
    {
        match told_as(self.alloc, line, next_of(self.entries))? {
            Ok(entry) => self.entry(entry),
            Err(why) => Ok(Some(Stop::Unread(why))),
        }
    }

    /// Checks an entry; where it is illegal, the audit stops there.
    fn entry(&mut self, entry: Entry) -> Result<Option<Stop>, AuditFault>
        requires { (from : World) × (entries : List Entry) × HasRead from self.old entries }
        ensures read { IfOk result (λ stop. (from : World) (entries : List Entry)
            → HasRead from self.old entries
            → MatchOption stop
            (HasRead from self.new (entries ++ entry ∷ []))
            (λ stop. (stop ≡ Stop.Illegal entry) × IsIllegalBehind from self.new entries entry
            × HasRead from self.new entries)) }
        ensures same { IsOfSame self.old self.new }
    {
        match self.checker.entry_as(self.denials, &entry) {
            Ok(()) => {
                self.note(&entry)?;
                Ok(None)
            }
            Err(EntryFault::Illegal) => Ok(Some(Stop::Illegal(entry))),
            Err(EntryFault::Memory) => Err(AuditFault::Memory),
        }
    }

    /// Counts a legal entry, which the checker stands behind, and puts down what it tells.
    fn note(&mut self, entry: &Entry) -> Result<(), AuditFault>
        requires { (entries : List Entry) × AreCounted self.old.users.counts entries
            × (self.old.entries ≡ length entries) }
        ensures users { OnOk result ((entries : List Entry)
            → AreCounted self.old.users.counts entries
            → AreCounted self.new.users.counts (entries ++ entry.now ∷ [])) }
        ensures counted { OnOk result (self.new.entries ≡ self.old.entries + 1) }
        ensures checker { IsSameStanding self.old.checker self.new.checker }
        ensures denials { self.new.denials ≡ self.old.denials }
    {
        let Some(count) = self.entries.checked_add(1) else {
            return Err(AuditFault::TooMany);
        };
        self.users.add(entry)?;
        self.entries = count;
        self.note_event(entry)?;
        Ok(())
    }

    /// Puts down what a legal entry tells.
    fn note_event(&mut self, entry: &Entry) -> Result<(), AllocError>
        ensures { NotesOnly self.old self.new }
    {
        match &entry.event {
            Event::User(request, Answer::Served(shown)) => self.note_served(entry, request, shown),
            Event::User(..) | Event::Cleaner(..) => Ok(()),
        }
    }

    /// Puts down what a served call did.
    fn note_served(
        &mut self,
        entry: &Entry,
        request: &Request,
        shown: &Served,
    ) -> Result<(), AllocError>
        ensures { NotesOnly self.old self.new }
    {
        match shown {
            Served::Bytes(_) => match read_of(request) {
                Some(path) => self.note_read(entry, path),
                None => Ok(()),
            },
            _ => match changed_of(request) {
                Some(path) => self.note_changed(entry, path, is_making(request)),
                None => Ok(()),
            },
        }
    }

    /// Puts down who changed last what a path leads to now.
    fn note_changed(&mut self, entry: &Entry, path: &Path, is_new: bool) -> Result<(), AllocError>
        ensures { NotesOnly self.old self.new }
    {
        let Some(row) = self.checker.row(path) else {
            return Ok(());
        };
        if is_new {
            self.read.clear(row.number);
        }
        let last = Last::by(self.alloc, path, entry, self.entries)?;
        self.changed.put(row.number, last);
        Ok(())
    }

    /// Puts down who read last what a path leads to, if it isn't his.
    fn note_read(&mut self, entry: &Entry, path: &Path) -> Result<(), AllocError>
        ensures { NotesOnly self.old self.new }
    {
        match self.checker.row(path) {
            Some(row) if is_other(&entry.cred, row.attrs.uid) => {
                let last = Last::by(self.alloc, path, entry, self.entries)?;
                self.read.put(row.number, last);
                Ok(())
            }
            _ => Ok(()),
        }
    }
}

/// What a line tells as that of the entry of a number, which may stand before it: the entry, or why none. An error
/// where memory runs out.
fn told_as(
    alloc: Global,
    line: &[u8],
    number: u64,
) -> Result<Result<Entry, EntryLineFault>, AuditFault>
    ensures { IfOk result (λ told. told_as number line.now ≡ told) }
{
    let Some(text) = unnumbered(line, number) else {
        return Ok(Err(EntryLineFault::Gap));
    };
    match read_entry(alloc, text) {
        Ok(entry) => Ok(Ok(entry)),
        Err(fault) => Ok(Err(unread(fault)?)),
    }
}

/// Why a line with a fault tells no entry, but for want of memory.
fn unread(fault: LineFault) -> Result<EntryLineFault, AuditFault>
    ensures { IfOk result (λ why. (why ≡ EntryLineFault.Line fault) × (fault.kind ≢ FaultKind.Memory)) }
{
    match fault.kind {
        FaultKind::Memory => Err(AuditFault::Memory),
        _ => Ok(EntryLineFault::Line(fault)),
    }
}

/// Whether a caller is neither the superuser nor this owner.
fn is_other(cred: &Cred, owner: u32) -> bool {
    !cred.is_superuser() && cred.uid() != owner
}

/// The path that a call reads.
fn read_of(request: &Request) -> Option<&Path> {
    match request {
        Request::Read { path, .. } => Some(path),
        _ => None,
    }
}

/// The path that leads to what a call has changed.
fn changed_of(request: &Request) -> Option<&Path> {
    match request {
        Request::Write { path, .. }
        | Request::SetLength { path, .. }
        | Request::Create { path, .. }
        | Request::Mkdir { path, .. }
        | Request::Rename { to: path, .. }
        | Request::Chmod { path, .. }
        | Request::Chown { path, .. }
        | Request::Chflags { path, .. } => Some(path),
        Request::Stat { .. }
        | Request::Read { .. }
        | Request::List { .. }
        | Request::Unlink { .. }
        | Request::Rmdir { .. }
        | Request::SetLevel { .. }
        | Request::Sync => None,
    }
}

/// Whether a call makes a file or a directory.
fn is_making(request: &Request) -> bool {
    matches!(request, Request::Create { .. } | Request::Mkdir { .. })
}
