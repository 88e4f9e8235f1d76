//! Pairs of a directory and a name, each in the one slot that its hash gives.

ghost use Rattle.std.specs.Prelude.{◌≡◌, ℕ, Some, None, ◌<◌, List, vec_len, IfOk};
ghost use Rattle.lfs_known.specs.Places.{name_hash as hash_for, place_of as place_for};

use crate::pair::{KEPT_BYTES, Pair};
use lfs_types::limits::MOST_INODES;
use lfs_types::name::Name;
use std::alloc::{AllocError, Global};

/// How many pairs are kept at most: one for each inode number of the largest volume, as each has one name.
const SLOTS: usize = MOST_INODES as usize;

/// By what the hash is multiplied before a byte is added.
const MULTIPLIER: usize = 403;

/// By what the number of a directory is multiplied before it is added to the hash of a name.
const DIR_MULTIPLIER: usize = 2533;

/// What is known of the names of directories. It takes no memory once it is made.
#[derive(Drop)]
pub struct NameCache {
    slots: Vec<Option<Pair>>,
    ghost sized: { vec_len slots ≡ 4096 },
}

impl NameCache {
    ghost use Rattle.lfs_known.specs.NamesSaid.{says, SaysNoMore};
    ghost use Rattle.lfs_known.specs.NameSlots.{kept_of};

    /// A cache that says nothing of any name. All its room is taken here.
    pub fn new(alloc: Global) -> Result<NameCache, AllocError>
        ensures { IfOk result (λ cache. (dir : ℕ) → (name : List ℕ) → says cache dir name ≡ None) }
    {
        let slots = Vec::from_elem(alloc, None, SLOTS)?;
        Ok(NameCache { slots })
    }

    /// What was last entered for a name of a directory, if it is known still: the number that the directory lists under it,
    /// or that it lists none.
    pub fn look(&self, dir: u32, name: &Name) -> Option<Option<u32>>
        ensures { result ≡ says self.now dir name.now }
    {
        let name = name.as_bytes();
        if name.len() > KEPT_BYTES {
            return None;
        }
        Pair::found_in(&self.slots[place_of(dir, name)], dir, name)
    }

    /// Enters what a directory lists under a name, where the name has at most `KEPT_BYTES` bytes. Another pair may be
    /// forgotten for it.
    pub fn enter(&mut self, dir: u32, name: &Name, found: Option<u32>)
        ensures entered { says self.new dir name.now ≡ kept_of name.now (Some found) }
        ensures others { SaysNoMore self.old self.new dir name.now }
    {
        let name = name.as_bytes();
        if name.len() <= KEPT_BYTES {
            self.slots[place_of(dir, name)] = Some(Pair::new(dir, name, found));
        }
    }
}

/// The hash of a name.
#[inline(always)]
#[tactic(auto, unfolding(crate::specs::Places::name_hash))]
fn name_hash(name: &[u8]) -> usize
    ensures value { result ≡ hash_for name.now }
    ensures within { result < SLOTS }
{
    let mut hash = 0;
    for byte in name {
        hash = (hash * MULTIPLIER + usize::from(*byte)) % SLOTS;
    }
    hash
}

/// The slot of a name in a directory. The directory comes in last, so that the processor may hash the names of a path before
/// it knows in which directories they are.
#[inline(always)]
#[tactic(auto, unfolding(crate::specs::Places::place_of))]
fn place_of(dir: u32, name: &[u8]) -> usize
    ensures value { result ≡ place_for dir name.now }
    ensures within { result < SLOTS }
{
    (name_hash(name) + dir as usize * DIR_MULTIPLIER) % SLOTS
}
