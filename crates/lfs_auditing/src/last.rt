//! Who did something last to which file.

ghost use Rattle.std.specs.Prelude.{◌≡◌, ◌++◌, None, Some, IfOk, OnOk, option_map, replicate, set};
ghost use Rattle.lfs_auditing.specs.Lasts.{last_of, last_text};

use lfs_model::journal::Entry;
use lfs_types::path::Path;
use lfs_words::append::{push_number, push_word};
use lfs_words::spelling::spell_path;
use std::alloc::{AllocError, Global};

/// Who did something last to a file: by which name, in which session, and by which entry, counted from 1.
#[derive(Drop)]
pub struct Last {
    pub(crate) path: Path,
    pub(crate) uid: u32,
    pub(crate) session: u8,
    pub(crate) entry: u32,
}

/// For each inode number, who did something last to its file.
#[derive(Drop)]
pub struct LastOnes {
    pub(crate) ones: Vec<Option<Last>>,
}

impl LastOnes {
    /// Nobody, for so many numbers.
    pub fn none(alloc: Global, numbers: u32) -> Result<LastOnes, AllocError>
        ensures { IfOk result (λ all. all.ones.items ≡ replicate numbers None) }
    {
        let mut ones = Vec::with_capacity(alloc, numbers as usize)?;
        for _ in 0..numbers {
            ones.push(None)?;
        }
        Ok(LastOnes { ones })
    }

    /// Puts down who did it last to the file of a number.
    pub fn put(&mut self, number: u32, last: Last)
        ensures { self.new.ones.items ≡ set self.old.ones.items number (Some last) }
    {
        self.set(number, Some(last));
    }

    /// Puts down that nobody did it to the file of a number.
    pub fn clear(&mut self, number: u32)
        ensures { self.new.ones.items ≡ set self.old.ones.items number None }
    {
        self.set(number, None);
    }

    /// Puts down who it is, or that it is nobody, where there is such a number.
    fn set(&mut self, number: u32, last: Option<Last>)
        ensures { self.new.ones.items ≡ set self.old.ones.items number last }
    {
        let place = number as usize;
        if place < self.ones.len() {
            self.ones[place] = last;
        }
    }

    /// Who did it last to the file of a number.
    pub fn of(&self, number: u32) -> Option<&Last>
        ensures { option_map (λ last. last.now) result ≡ last_of self.now number }
    {
        match self.ones.as_slice().get(number as usize) {
            Some(Some(last)) => Some(last),
            _ => None,
        }
    }
}

impl Last {
    /// The user of an entry, counted from 1, in its session, by this path.
    pub fn by(alloc: Global, path: &Path, entry: &Entry, count: u32) -> Result<Last, AllocError>
        ensures { IfOk result (λ last. last ≡ record {
          path = path.now;
          uid = entry.now.cred.uid;
          session = entry.now.session;
          entry = count;
        }) }
    {
        let path = path.try_clone(alloc)?;
        Ok(Last {
            path,
            uid: entry.cred.uid(),
            session: entry.session,
            entry: count,
        })
    }

    /// Appends the line: the path, the user, the session and the entry.
    pub fn push(&self, out: &mut Vec<u8>) -> Result<(), AllocError>
        ensures { OnOk result (out.new.items ≡ out.old.items ++ last_text self.now) }
    {
        spell_path(out, &self.path)?;
        push_word(out, "user")?;
        push_number(out, u64::from(self.uid))?;
        push_word(out, "session")?;
        push_number(out, u64::from(self.session))?;
        push_word(out, "entry")?;
        push_number(out, u64::from(self.entry))?;
        Ok(out.push(b'\n')?)
    }
}
