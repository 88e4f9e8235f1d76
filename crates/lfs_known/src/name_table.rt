//! A table of where the names of large directories stand, as FreeBSD's dirhash.

ghost use Rattle.std.specs.Prelude.{◌≡◌, ◌≤◌, ◌<◌, ◌*◌, ℕ, List, take, drop, None, Some, IfOk, IsSome, is_some, nat_le, vec_len};
ghost use Rattle.lfs_types.specs.declared.block.TheConstants.{BLOCK_SIZE};
ghost use Rattle.lfs_types.specs.Stored.{bytes_of};
ghost use Rattle.lfs_types.specs.Tree.{Content};
ghost use Rattle.lfs_dirs.specs.Directory.{number_in};
ghost use Rattle.lfs_dirs.specs.Reading.{entries_of};
ghost use Rattle.lfs_known.specs.declared.name_table.TheConstants.{MOST_PUTS};

use crate::slots::Slots;
use crate::spot::{SPOTS, Spot, hash};
use lfs_dirs::entries;
use lfs_types::block::Block;
use lfs_types::name::Name;
use std::alloc::{AllocError, Global};

/// How many blocks and names of directories that it knows are followed until the table is full of names that are gone.
const MOST_PUTS: u32 = 8_192;

/// In which blocks the names of some directories stand, by their hashes. It takes no memory once it is made.
#[derive(Drop)]
pub struct NameTable {
    pub(crate) spots: Vec<Spot>,
    pub(crate) whole: Slots<u64>,
    pub(crate) puts: u32,
    ghost sized: { vec_len spots ≡ 65536 },
}

impl NameTable {
    ghost use Rattle.lfs_known.specs.Says.{kept_of, says};
    ghost use Rattle.lfs_known.specs.Spots.{ArePlaced, IsPlaced, MayStand};

    /// A table that knows no directory. All its room is taken here.
    pub fn new(alloc: Global) -> Result<NameTable, AllocError>
        ensures { IfOk result (λ table. (dir : ℕ) → says table.whole dir ≡ None) }
    {
        let spots = Vec::from_elem(alloc, Spot::Nowhere, SPOTS)?;
        let whole = Slots::new(alloc)?;
        Ok(NameTable {
            spots,
            whole,
            puts: 0,
        })
    }

    /// Whether it knows where each name of a directory may stand.
    pub fn knows(&self, dir: u32) -> bool
        ensures { result ≡ is_some (says self.now.whole dir) }
    {
        self.whole.look(dir).is_some()
    }

    /// Whether so many blocks and names were followed, 8,192 or more, that it should be made anew.
    pub fn is_full(&self) -> bool
        ensures { result ≡ nat_le MOST_PUTS self.now.puts }
    {
        self.puts >= MOST_PUTS
    }

    /// The first block from `from` on in which a directory may list a name; `from` itself where the directory isn't known.
    pub fn next_block(&self, dir: u32, name: &Name, from: u64) -> u64
        ensures from { from ≤ result }
        ensures absent { (c : Content) → ArePlaced self.now c → (k : ℕ) → from ≤ k → k < result
            → number_in name.now (entries_of (take BLOCK_SIZE
            (drop (BLOCK_SIZE * k) (bytes_of c dir)))) ≡ None }
    {
        if !self.knows(dir) {
            return from;
        }
        let slot = hash(dir, name.as_bytes());
        let spot = self.spots[slot];
        spot.first_from(from)
    }

    /// Enters the names of a block of a directory.
    pub fn enter_block(&mut self, dir: u32, k: u64, block: &Block)
        ensures names { (name : List ℕ) → IsSome (number_in name (entries_of block.now))
            → MayStand self.new.spots.items dir name k }
        ensures keeps { (d : ℕ) (name : List ℕ) (j : ℕ) → MayStand self.old.spots.items d name j
            → MayStand self.new.spots.items d name j }
        ensures whole { self.new.whole ≡ self.old.whole }
    {
        for (_, name) in entries(block) {
            self.enter(dir, name, k);
        }
    }

    /// A name may stand in a block of a directory besides, if the directory is known.
    pub(crate) fn enter_name(&mut self, dir: u32, name: &Name, k: u64)
        ensures entered { IsSome (says self.old.whole dir)
            → MayStand self.new.spots.items dir name.now k }
        ensures keeps { (d : ℕ) (n : List ℕ) (j : ℕ) → MayStand self.old.spots.items d n j
            → MayStand self.new.spots.items d n j }
        ensures whole { self.new.whole ≡ self.old.whole }
    {
        if self.knows(dir) {
            self.puts = self.puts.saturating_add(1);
            self.enter(dir, name.as_bytes(), k);
        }
    }

    /// A name may stand in a block of a directory besides.
    fn enter(&mut self, dir: u32, name: &[u8], k: u64)
        ensures entered { MayStand self.new.spots.items dir name.now k }
        ensures keeps { (d : ℕ) (n : List ℕ) (j : ℕ) → MayStand self.old.spots.items d n j
            → MayStand self.new.spots.items d n j }
        ensures whole { self.new.whole ≡ self.old.whole }
    {
        let slot = hash(dir, name);
        let spot = self.spots[slot];
        self.spots[slot] = spot.with(k);
    }

    /// A directory of so many blocks is known, as all its names were entered.
    pub fn know(&mut self, dir: u32, blocks: u64)
        ensures known { says self.new.whole dir ≡ kept_of dir (Some blocks) }
        ensures placed { (c : Content) → IsPlaced self.old.spots.items dir (bytes_of c dir) blocks
            → ArePlaced self.old c → ArePlaced self.new c }
    {
        self.whole.enter(dir, blocks);
    }
}
