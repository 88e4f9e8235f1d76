//! How the calls of each user were answered.

ghost use Rattle.std.specs.Prelude.{◌≡◌, ◌-◌, ◌^◌, ◌<◌, List, [], ◌∷◌, ◌++◌, length, OnOk};
ghost use Rattle.std.specs.List.{flat_map};
ghost use Rattle.lfs_auditing.specs.Users.{AreCounted, counts_in, user_text};

use lfs_model::counts::Counts;
use lfs_model::journal::Entry;
use lfs_print::report::append_counts;
use lfs_words::append::push_number;
use std::alloc::{AllocError, Global};
use std::collections::BTreeMap;

/// The counts over each user's entries.
#[derive(Drop)]
pub struct Users {
    pub(crate) counts: BTreeMap<u32, Counts>,
}

impl Users {
    /// Those over no entries.
    pub fn none(alloc: Global) -> Users
        ensures { AreCounted result.counts [] }
    {
        Users {
            counts: BTreeMap::new(alloc),
        }
    }

    /// Counts one more entry, its user's.
    pub fn add(&mut self, entry: &Entry) -> Result<(), AllocError>
        requires few { (entries : List Entry) × AreCounted self.old.counts entries
            × (length entries < 2 ^ 32 - 1) }
        ensures { OnOk result ((entries : List Entry) → AreCounted self.old.counts entries
            → AreCounted self.new.counts (entries ++ entry.now ∷ [])) }
    {
        let uid = entry.cred.uid();
        let mut counts = self.of(uid);
        counts.add(&entry.event);
        self.counts.insert(uid, counts)?;
        Ok(())
    }

    /// The counts over a user's entries.
    pub fn of(&self, uid: u32) -> Counts
        ensures { result ≡ counts_in self.now.counts uid }
    {
        match self.counts.get(&uid) {
            Some(counts) => *counts,
            None => Counts::none(),
        }
    }

    /// Appends, for each user who has an entry, in their order, a line that names him, and the report of his entries.
    pub fn push(&self, out: &mut Vec<u8>) -> Result<(), AllocError>
        ensures { OnOk result (out.new.items
            ≡ out.old.items ++ flat_map user_text self.now.counts.entries) }
    {
        for (uid, counts) in self.counts.iter() {
            push_user(out, *uid, counts)?;
        }
        Ok(())
    }
}

/// Appends the line that names a user, and the report of counts.
fn push_user(out: &mut Vec<u8>, uid: u32, counts: &Counts) -> Result<(), AllocError>
    ensures { OnOk result (out.new.items ≡ out.old.items ++ user_text (uid, counts.now)) }
{
    out.extend_from_slice(b"user")?;
    push_number(out, u64::from(uid))?;
    out.push(b'\n')?;
    append_counts(out, counts)
}
