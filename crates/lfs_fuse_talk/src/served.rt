//! A mount that answers messages, as the world outside tells.

ghost use Rattle.std.specs.Prelude.{◌≡◌, IfOk, OnOk};
ghost use Rattle.std.specs.Option.{option_map};
ghost use Rattle.lfs_mount.specs.Runs.{GoesOn};
ghost use Rattle.lfs_fuse_talk.specs.Filing.{is_open};
ghost use Rattle.lfs_fuse_talk.specs.Serving.{Advances, AreGroups, DoCount, HasRested, IsServed, IsServedTo, held, server_of};

use crate::filing::{Ledger, told_or_lost};
use crate::groups::are_wanted;
use crate::outside::Outside;
use crate::talk::Answerer;
use lfs_fuse_calls::told::Told;
use lfs_fuse_reply::errno::Errno;
use lfs_fuse_wire::header::Header;
use lfs_mount::mount::Mount;
use lfs_types::cleaned::CleanedStore;
use lfs_types::store::FileStore;
use std::alloc::{AllocError, Global};
use std::io::Write;

/// A mount, the world outside it, and where the entries of its journal go.
#[derive(Drop)]
pub struct Served<F: FileStore + Drop, P: Drop, W: Write + Drop> {
    mount: Mount<F>,
    outside: P,
    ledger: Ledger<W>,
    /// How many segments were clean before the last message.
    clean: u32,
}

impl<F: FileStore + Drop, P: Drop, W: Write + Drop> Served<F, P, W> {
    /// A mount, in this world, whose entries go there.
    pub fn new(mount: Mount<F>, outside: P, ledger: Ledger<W>) -> Served<F, P, W>
        ensures mount { result.mount ≡ mount }
        ensures outside { result.outside ≡ outside }
        ensures ledger { result.ledger ≡ ledger }
    {
        Served {
            mount,
            outside,
            ledger,
            clean: 0,
        }
    }

    /// Whether calls may be served: a file of the journal that is asked for takes more.
    pub fn is_open(&self) -> bool
        ensures { result ≡ is_open self.now.ledger.keeping }
    {
        self.ledger.is_open()
    }

    /// The mount.
    pub fn into_mount(self) -> Mount<F>
        ensures { result ≡ self.mount }
    {
        self.mount
    }
}

/// Whether the groups of the caller of a message count.
fn do_count<F: FileStore + Drop>(
    mount: &Mount<F>,
    alloc: Global,
    header: &Header,
    message: &[u8],
) -> bool
    ensures { DoCount F.state mount.now.tree.volume mount.now.tree.nodes header.now message.now
        result }
{
    are_wanted(header) && !mount.needs_no_groups(alloc, header, message)
}

/// The other groups of the process of a message: none where they don't count.
fn groups_of<F: FileStore + Drop, P: Outside>(
    mount: &Mount<F>,
    outside: &mut P,
    alloc: Global,
    header: &Header,
    message: &[u8],
) -> Result<Option<Vec<u32>>, AllocError>
    ensures { IfOk result (λ found. AreGroups F.state P.groups mount.now.tree.volume
        mount.now.tree.nodes header.now message.now
        outside.old (option_map (λ others. others.items) found) outside.new) }
{
    if do_count(mount, alloc, header, message) {
        outside.others(alloc, header)
    } else {
        Ok(Some(Vec::new(alloc)))
    }
}

impl<F: CleanedStore + Drop, P: Outside + Drop, W: Write + Drop> Served<F, P, W> {
    #[tactic(auto, using(lfs_mount::proofs::TendingLemmas::goes_on_none))]
    /// The reply to a message of this header.
    fn reply(
        &mut self,
        alloc: Global,
        header: &Header,
        message: &[u8],
    ) -> Result<Vec<u8>, AllocError>
        ensures served { IfOk result (λ reply. IsServedTo
            (server_of F.state F.is_flushed P.time P.groups)
            header.now (held self.old) message.now reply.items (held self.new)) }
        ensures journal { OnOk result (GoesOn F.state self.old.mount.tree.volume
            self.new.mount.tree.volume) }
        ensures ledger { self.new.ledger ≡ self.old.ledger }
    {
        let mut out = Vec::new(alloc);
        let now = self.outside.now();
        match groups_of(&self.mount, &mut self.outside, alloc, header, message)? {
            Some(others) => {
                self.mount
                    .answer(alloc, now, message, others.as_slice(), &mut out)?;
            }
            None => Told::Error(Errno::EACCES).append(&mut out, header.unique)?,
        }
        Ok(out)
    }
}

impl<F: CleanedStore + Drop, P: Outside + Drop, W: Write + Drop> Answerer for Served<F, P, W> {
    ghost answers = { λ old message reply new. Advances W.contents
        (λ first from to. IsServed W.contents first
        (server_of F.state F.is_flushed P.time P.groups) from message reply to) old new };

    ghost rests = { λ old new. Advances W.contents
        (λ first from to. HasRested W.contents first F.state from to) old new };

    ghost is_well = { λ served. is_open served.ledger.keeping };

    fn answer<D: Write>(
        &mut self,
        alloc: Global,
        message: &[u8],
        teller: &mut D,
    ) -> Result<Vec<u8>, AllocError> {
        let Some(header) = Header::decode(message) else {
            return Ok(Vec::new(alloc));
        };
        self.clean = self.mount.clean_segments();
        let reply = self.reply(alloc, &header, message)?;
        let is_kept = self.ledger.give(&mut self.mount, teller);
        told_or_lost(alloc, is_kept, header.unique, reply)
    }

    fn rest<D: Write>(&mut self, alloc: Global, teller: &mut D) -> Result<(), AllocError> {
        self.mount.tend(self.clean);
        self.ledger.go_on(alloc, &mut self.mount, teller)
    }
}
