//! The calls of the host that a disk makes. Here, and nowhere else, stands what no contract can say: that a function makes
//! the call that it notes.

ghost use Rattle.std.specs.Prelude.{◌≡◌, ◌++◌, ◌∷◌, [], OnErr, OnOk, false, true};
ghost use Rattle.lfs_file_disk.specs.declared.told.HostCall.TheVariants.{Put, Sync};

use crate::told::{HostCall, Told};
use lfs_types::block::Block;
use std::fs::OpenFile;
use std::io;
use std::os::unix::fs::FileExt;

/// A file of the host, what it was told, and whether it failed.
#[derive(Drop)]
pub(crate) struct HostFile<F: FileExt + OpenFile + Drop> {
    file: F,
    told: Told,
    has_failed: bool,
}

impl<F: FileExt + OpenFile + Drop> HostFile<F> {
    /// A file that was told nothing.
    pub(crate) fn new(file: F) -> HostFile<F>
        ensures told { result.told.calls ≡ [] }
        ensures well { result.has_failed ≡ false }
    {
        HostFile {
            file,
            told: Told::nothing(),
            has_failed: false,
        }
    }

    /// The file.
    pub(crate) fn into_file(self) -> F {
        self.file
    }

    /// Whether it has failed.
    pub(crate) fn has_failed(&self) -> bool
        ensures { result ≡ self.now.has_failed }
    {
        self.has_failed
    }

    /// Tells the file to write a block's bytes from an offset on.
    pub(crate) fn put(&mut self, offset: u64, block: &Block) -> io::Result<()>
        // Whatever it answers, it may have them.
        ensures told { self.new.told.calls ≡ self.old.told.calls ++ Put offset block.now ∷ [] }
        ensures ok { OnOk result (self.new.has_failed ≡ self.old.has_failed) }
        ensures err { OnErr result (self.new.has_failed ≡ true) }
    {
        let call = HostCall::Put {
            offset,
            block: *block,
        };
        self.told = self.told.and(&call);
        let answer = self.file.write_all_at(block, offset);
        self.hear(answer)
    }

    /// Tells the file to wait until all that was written has landed.
    pub(crate) fn sync(&mut self) -> io::Result<()>
        ensures told { OnOk result (self.new.told.calls ≡ self.old.told.calls ++ Sync ∷ []) }
        ensures still { OnErr result (self.new.told.calls ≡ self.old.told.calls) }
        ensures ok { OnOk result (self.new.has_failed ≡ self.old.has_failed) }
        ensures err { OnErr result (self.new.has_failed ≡ true) }
    {
        let answer = self.file.sync_all();
        if answer.is_ok() {
            self.told = self.told.and(&HostCall::Sync);
        }
        self.hear(answer)
    }

    /// Remembers whether an answer is a failure, and hands it on.
    fn hear(&mut self, answer: io::Result<()>) -> io::Result<()>
        ensures answer { result ≡ answer }
        ensures told { self.new.told ≡ self.old.told }
        ensures ok { OnOk answer (self.new.has_failed ≡ self.old.has_failed) }
        ensures err { OnErr answer (self.new.has_failed ≡ true) }
    {
        if answer.is_err() {
            self.has_failed = true;
        }
        answer
    }
}
