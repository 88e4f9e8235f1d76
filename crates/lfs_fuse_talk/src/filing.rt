//! The journal of a mount, whose entries go to a file, where one is asked for.

ghost use Rattle.std.specs.Prelude.{◌≡◌, ◌<◌, ◌⊎◌, None, false, true, if◌then◌else◌, length, IfErr, IfOk, IfSome, IsSome, OnErr, OnOk, is_some};
ghost use Rattle.lfs_fuse_talk.specs.declared.filing.Keeping.TheVariants.{Nowhere};
ghost use Rattle.lfs_fuse_talk.specs.declared.filing.TheConstants.{LET_GO};
ghost use Rattle.lfs_mount.specs.Tending.{let_go};
ghost use Rattle.lfs_fuse_talk.specs.Filing.{IsFirst, IsHandedOut, IsLetGo, IsShut, Stays, Takes, is_open, lost_reply};

use crate::fault::OpenFault;
use lfs_fuse_calls::told::Told;
use lfs_fuse_reply::errno::Errno;
use lfs_io::tell::tell;
use lfs_mount::mount::Mount;
use lfs_sinks::sink::{JournalSink, LineSink, SinkFault};
use lfs_sinks::spare::SpareRoom;
use lfs_types::store::FileStore;
use std::alloc::{AllocError, Global};
use std::fs::{OpenFile, OpenOptions};
use std::io::{ErrorKind, Write};
use std::os::unix::fs::OpenOptionsExt;
use std::rt::Files;

/// The program's name.
pub(crate) const NAME: &str = "lfs_fuse";

/// Who may read and write the file, which has all users' bytes: its owner.
const OWNERS: u32 = 0o600;

/// Makes the file of the journal, where one is asked for, for its owner alone.
///
/// # Errors
///
/// `Exists` where there is one, which is left as it is; `Unmade` where none could be made.
pub(crate) fn open_journal<S: Files>(
    files: &S,
    path: Option<&str>,
) -> Result<Option<S::File>, OpenFault>
    ensures opened { IfOk result (λ journal. is_some journal ≡ is_some path.entry) }
    ensures asked { IfErr result (λ _. IsSome path.entry) }
{
    let Some(path) = path else {
        return Ok(None);
    };
    let mut how = OpenOptions::new();
    how.write(true).create_new(true).mode(OWNERS);
    match how.open(files, path) {
        Ok(file) => Ok(Some(file)),
        Err(error) if error.kind() == ErrorKind::AlreadyExists => Err(OpenFault::Exists),
        Err(_) => Err(OpenFault::Unmade),
    }
}

/// Where the entries of a mount's journal go.
#[derive(Drop)]
pub enum Keeping<W: Write + Drop> {
    /// Nowhere: they are let go.
    Nowhere,
    /// To a file that takes more.
    File(LineSink<W>),
    /// To a file that took no more, so that no call is served.
    Closed,
}

/// Where the entries of a mount's journal go, and room for a further journal.
#[derive(Drop)]
pub struct Ledger<W: Write + Drop> {
    keeping: Keeping<W>,
    /// Room for a journal.
    spare: SpareRoom,
}

/// Where entries go nowhere, so many are let go together, which are those of a write of 131,072 bytes: few, so that the
/// memory that they took is at hand for the next ones.
const LET_GO: usize = 32;

#[tactic(auto, using(crate::proofs::FilingLemmas::few_kept))]
/// Lets the entries of a mount's journal go, where there are 32, or there is room for few more.
///
/// # Errors
///
/// Memory ran out for the room of a journal, and the entries are still there.
fn let_entries_go<F: FileStore + Drop>(
    alloc: Global,
    mount: &mut Mount<F>,
) -> Result<bool, AllocError>
    ensures let_go { IfOk result (λ did. mount.new.tree.volume
        ≡ (if did then let_go mount.old.tree.volume else mount.old.tree.volume)) }
    ensures few { OnOk result (length mount.new.tree.volume.journal < LET_GO) }
    ensures nodes { mount.new.tree.nodes ≡ mount.old.tree.nodes }
    ensures beside { mount.new.beside ≡ mount.old.beside }
    ensures sizes { mount.new.sizes ≡ mount.old.sizes }
{
    if mount.journal().len() < LET_GO {
        return mount.make_room(alloc);
    }
    let room = Vec::with_capacity(alloc, mount.journal_limit() as usize)?;
    let _ = mount.hand_out(room);
    Ok(true)
}

/// A file takes the entries of a mount's journal, and they are handed out.
fn pass_on<F: FileStore + Drop, W: Write + Drop>(
    sink: &mut LineSink<W>,
    spare: &mut SpareRoom,
    mount: &mut Mount<F>,
) -> Result<(), SinkFault>
    ensures taken { OnOk result (Takes W.contents sink.old sink.new mount.old.tree.volume.journal) }
    ensures let_go { OnOk result (mount.new.tree.volume ≡ let_go mount.old.tree.volume) }
    ensures failed { OnErr result (mount.new.tree.volume ≡ mount.old.tree.volume) }
    ensures nodes { mount.new.tree.nodes ≡ mount.old.tree.nodes }
    ensures beside { mount.new.beside ≡ mount.old.beside }
    ensures sizes { mount.new.sizes ≡ mount.old.sizes }
{
    let room = spare.take(mount.journal_limit())?;
    sink.take(mount.journal())?;
    spare.keep(mount.hand_out(room));
    Ok(())
}

impl<W: Write + Drop> Ledger<W> {
    /// The entries go to this file from now on, where there is one.
    pub(crate) fn new(alloc: Global, file: Option<W>) -> Ledger<W>
        ensures asked { is_some file ≡ false → IsFirst W.contents None false result.keeping }
        ensures first { IfSome file (λ file.
            IsFirst W.contents (W.contents file) true result.keeping) }
    {
        let keeping = match file {
            Some(file) => Keeping::File(LineSink::new(alloc, file)),
            None => Keeping::Nowhere,
        };
        Ledger {
            keeping,
            spare: SpareRoom::none(alloc),
        }
    }

    /// Whether calls may be served: a file that is asked for takes more.
    pub(crate) fn is_open(&self) -> bool
        ensures { result ≡ is_open self.now.keeping }
    {
        !matches!(self.keeping, Keeping::Closed)
    }

    /// Gives the file, where there is one that takes more, the entries of a mount's journal, and hands them out. Where
    /// it doesn't take them, that is told once, and no call is served from then on. Whether none of them is lost.
    pub(crate) fn give<F: FileStore + Drop, D: Write>(
        &mut self,
        mount: &mut Mount<F>,
        teller: &mut D,
    ) -> bool
        ensures taken { result ≡ true
            → Stays self.old.keeping self.new.keeping mount.old.tree.volume mount.new.tree.volume
            ⊎ IsHandedOut W.contents self.old.keeping self.new.keeping
            mount.old.tree.volume mount.new.tree.volume }
        ensures lost { result ≡ false
            → IsShut self.old.keeping self.new.keeping mount.old.tree.volume mount.new.tree.volume }
        ensures silent { is_open self.new.keeping ≡ true
            → (is_open self.old.keeping ≡ true) × (teller.new ≡ teller.old) }
        ensures nodes { mount.new.tree.nodes ≡ mount.old.tree.nodes }
        ensures beside { mount.new.beside ≡ mount.old.beside }
        ensures sizes { mount.new.sizes ≡ mount.old.sizes }
    {
        if mount.journal().is_empty() {
            return true;
        }
        let passed = match &mut self.keeping {
            Keeping::Nowhere | Keeping::Closed => return true,
            Keeping::File(sink) => pass_on(sink, &mut self.spare, mount),
        };
        match passed {
            Ok(()) => true,
            Err(fault) => {
                self.keeping = Keeping::Closed;
                mount.close_journal();
                let _ = tell(teller, NAME, &fault);
                false
            }
        }
    }

    /// Gives the file the entries, where there is one, and else lets them go once there are 32, or there is little
    /// room.
    pub(crate) fn go_on<F: FileStore + Drop, D: Write>(
        &mut self,
        alloc: Global,
        mount: &mut Mount<F>,
        teller: &mut D,
    ) -> Result<(), AllocError>
        ensures moved { OnOk result (
            (Stays self.old.keeping self.new.keeping mount.old.tree.volume mount.new.tree.volume
            ⊎ IsHandedOut W.contents self.old.keeping self.new.keeping
            mount.old.tree.volume mount.new.tree.volume)
            ⊎ (IsLetGo self.old.keeping self.new.keeping
            mount.old.tree.volume mount.new.tree.volume
            ⊎ IsShut self.old.keeping self.new.keeping
            mount.old.tree.volume mount.new.tree.volume)) }
        ensures silent { OnOk result (is_open self.new.keeping ≡ true
            → (is_open self.old.keeping ≡ true) × (teller.new ≡ teller.old)) }
        ensures few { OnOk result (self.old.keeping ≡ Nowhere → length mount.new.tree.volume.journal < LET_GO) }
        ensures nodes { mount.new.tree.nodes ≡ mount.old.tree.nodes }
        ensures beside { mount.new.beside ≡ mount.old.beside }
        ensures sizes { mount.new.sizes ≡ mount.old.sizes }
    {
        if let Keeping::Nowhere = self.keeping {
            let_entries_go(alloc, mount)?;
            return Ok(());
        }
        let _ = self.give(mount, teller);
        Ok(())
    }
}

/// The reply to the message of this number, by whether none of its entries is lost: else it is told that the journal is
/// full, where a reply is wanted.
pub(crate) fn told_or_lost(
    alloc: Global,
    is_kept: bool,
    unique: u64,
    reply: Vec<u8>,
) -> Result<Vec<u8>, AllocError>
    ensures kept { is_kept ≡ true → IfOk result (λ told. told.items ≡ reply.items) }
    ensures lost { is_kept ≡ false → IfOk result (λ told.
        told.items ≡ lost_reply unique reply.items) }
{
    if is_kept || reply.is_empty() {
        return Ok(reply);
    }
    let mut told = Vec::new(alloc);
    Told::Error(Errno::EDQUOT).append(&mut told, unique)?;
    Ok(told)
}
