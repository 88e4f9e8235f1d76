//! Keys that move: live bytes, the places of records, and numbers that are given out and taken
//! back.

ghost use Rattle.std.specs.Prelude.{◌≡◌, ◌≢◌, ◌+◌, ◌-◌, ◌*◌, ◌/◌, ◌<◌, ◌≤◌, ℕ, length, slice_index, true, false};
ghost use Rattle.lfs_types.specs.declared.limits.TheConstants.{SEGMENT_BLOCKS};
ghost use Rattle.lfs_ifile.specs.declared.segment.TheConstants.{SEGMENT_BYTES};
ghost use Rattle.lfs_ifile.specs.declared.segment.SegState.TheVariants.{Clean, Dirty};
ghost use Rattle.lfs_ifile.specs.Inode.{given_row, placed_row, raised_version, released_row};
ghost use Rattle.lfs_ifile.specs.Tables.{IsIfile, row_of, with_row, with_state};
ghost use Rattle.lfs_bmap.specs.declared.blocks.TheConstants.{BLOCK_CODES};
ghost use Rattle.lfs_bmap.specs.Blocks.{IsFileBlock, code_of};
ghost use Rattle.lfs_bmap.specs.Counting.{place_of, placed, units, weight_of};
ghost use Rattle.lfs_bmap.specs.Log.{Assigns, Cleans, Renews};
ghost use Rattle.lfs_log.specs.Parts.{IsParts, MayMoveLive, SameButLive, live_of, log_state, record_place, state_of};

use crate::log::Log;
use lfs_bmap::blocks::FileBlock;
use lfs_ifile::{Ifile, SegState};
use lfs_types::block::BLOCK_SIZE;
use lfs_types::limits::SEGMENT_BLOCKS;

/// The number of bytes of the log that a block of a file takes: a record takes a quarter of a
/// block.
fn size_of(block: FileBlock) -> u32
    ensures { result ≡ 128 * units (code_of block) }
{
    match block {
        FileBlock::Record => BLOCK_SIZE as u32 / 4,
        FileBlock::Single => BLOCK_SIZE as u32,
        FileBlock::Double => BLOCK_SIZE as u32,
        FileBlock::Child(_) => BLOCK_SIZE as u32,
        FileBlock::Data(_) => BLOCK_SIZE as u32,
    }
}

/// Adds the live bytes of a block at an address to those of its segment; an address of 0 has none.
fn gain(ifile: &mut Ifile, block: FileBlock, to: u32)
    requires formed { IsIfile ifile.old }
    requires inside { to < SEGMENT_BLOCKS * length ifile.old.live }
    requires fits { to ≢ 0
        → live_of ifile.old (to / SEGMENT_BLOCKS) + 128 * units (code_of block) ≤ SEGMENT_BYTES }
    ensures live { (s : ℕ) → live_of ifile.new s
        ≡ live_of ifile.old s + weight_of (place_of to) s (code_of block) }
    ensures others { SameButLive ifile.old ifile.new }
{
    if to != 0 {
        ifile.add_live(to / SEGMENT_BLOCKS, size_of(block));
    }
}

/// Takes the live bytes of a block at an address from those of its segment; an address of 0 has
/// none.
fn lose(ifile: &mut Ifile, block: FileBlock, from: u32)
    requires formed { IsIfile ifile.old }
    requires inside { from < SEGMENT_BLOCKS * length ifile.old.live }
    requires had { from ≢ 0
        → 128 * units (code_of block) ≤ live_of ifile.old (from / SEGMENT_BLOCKS) }
    ensures live { (s : ℕ) → live_of ifile.new s + weight_of (place_of from) s (code_of block)
        ≡ live_of ifile.old s }
    ensures others { SameButLive ifile.old ifile.new }
{
    if from != 0 {
        ifile.drop_live(from / SEGMENT_BLOCKS, size_of(block));
    }
}

/// The address of the inode block that has the record of a used number; 0 is none.
fn record_address(ifile: &Ifile, number: u32) -> u32
    requires inside { number < length ifile.now.rows }
    requires used { (row_of ifile.now number).used ≡ true }
    ensures { result ≡ (row_of ifile.now number).address }
{
    match ifile.place(number) {
        Some(place) => place.addr,
        None => 0,
    }
}

impl Log {
    /// Moves the live bytes of a block that had one address and has another now; 0 is none. The
    /// segment of the new one gains them, and that of the old one loses them.
    pub fn move_live(&mut self, block: FileBlock, from: u32, to: u32)
        requires { MayMoveLive self.old (code_of block) from to }
        ensures live { (s : ℕ)
            → live_of self.new.tables s + weight_of (place_of from) s (code_of block)
            ≡ live_of self.old.tables s + weight_of (place_of to) s (code_of block) }
        // Where the old address was the place of that block of a number, the new one is now.
        ensures step { (at : ℕ → ℕ → ℕ) (number : ℕ) → at number (code_of block) ≡ place_of from
            → Assigns (log_state self.old at)
            (log_state self.new (placed at number (code_of block) (place_of to)))
            number (code_of block) (place_of to) }
        ensures memory { self.new.memory ≡ self.old.memory }
        ensures others { SameButLive self.old.tables self.new.tables }
        ensures clean { self.new.clean ≡ self.old.clean }
        ensures was_kept { IsParts self.old }
        ensures kept { IsParts self.new }
    {
        gain(&mut self.ifile, block, to);
        lose(&mut self.ifile, block, from);
    }

    /// Sets where the record of a used number stands, the address of its inode block and the slot in
    /// it, and moves its live bytes. Address 0 is none.
    pub fn place_record(&mut self, number: u32, address: u32, slot: u16)
        requires in_range { number < length self.old.tables.rows }
        requires used { (row_of self.old.tables number).used ≡ true }
        requires slot { slot < 4 }
        requires moves { MayMoveLive self.old 0 (row_of self.old.tables number).address address }
        ensures row { row_of self.new.tables number
            ≡ placed_row address slot (row_of self.old.tables number) }
        ensures rows { (other : ℕ) → other ≢ number
            → row_of self.new.tables other ≡ row_of self.old.tables other }
        ensures inodes { length self.new.tables.rows ≡ length self.old.tables.rows }
        ensures live { (s : ℕ)
            → live_of self.new.tables s + weight_of (record_place self.old.tables number) s 0
            ≡ live_of self.old.tables s + weight_of (record_place self.new.tables number) s 0 }
        ensures step { (at : ℕ → ℕ → ℕ) → at number 0 ≡ record_place self.old.tables number
            → Assigns (log_state self.old at)
            (log_state self.new (placed at number 0 (record_place self.new.tables number)))
            number 0 (record_place self.new.tables number) }
        ensures memory { self.new.memory ≡ self.old.memory }
        ensures states { self.new.tables.states ≡ self.old.tables.states }
        ensures clean { self.new.clean ≡ self.old.clean }
        ensures kept { IsParts self.new }
    {
        let from = record_address(&self.ifile, number);
        gain(&mut self.ifile, FileBlock::Record, address);
        lose(&mut self.ifile, FileBlock::Record, from);
        self.ifile.set_place(number, address, slot);
    }

    /// Gives out an unused number: it is now used, its record has no place yet, and its version,
    /// which is returned, is raised.
    pub fn give_out(&mut self, number: u32) -> u32
        requires in_range { number < length self.old.tables.rows }
        requires unused { (row_of self.old.tables number).used ≡ false }
        ensures version { result ≡ raised_version (row_of self.old.tables number).version }
        ensures given { self.new.tables ≡ with_row self.old.tables number (given_row result) }
        ensures memory { self.new.memory ≡ self.old.memory }
        ensures clean { self.new.clean ≡ self.old.clean }
        ensures step { (at : ℕ → ℕ → ℕ) → ((code : ℕ) → code < BLOCK_CODES → at number code ≡ 0)
            → Renews (log_state self.old at) (log_state self.new at) number }
        ensures kept { IsParts self.new }
    {
        self.ifile.give_out(number)
    }

    /// Takes a used number back: it is unused, and keeps its version.
    pub fn release(&mut self, number: u32)
        requires in_range { number < length self.old.tables.rows }
        requires used { (row_of self.old.tables number).used ≡ true }
        ensures released { self.new.tables
            ≡ with_row self.old.tables number (released_row (row_of self.old.tables number)) }
        ensures memory { self.new.memory ≡ self.old.memory }
        ensures clean { self.new.clean ≡ self.old.clean }
        ensures step { (at : ℕ → ℕ → ℕ) → ((code : ℕ) → code < BLOCK_CODES → at number code ≡ 0)
            → Renews (log_state self.old at) (log_state self.new at) number }
        ensures kept { IsParts self.new }
    {
        self.ifile.release(number);
    }

    /// Makes a dirty segment clean that has no live bytes.
    pub fn reclaim(&mut self, segment: u32)
        requires inside { segment < self.old.memory.segments }
        requires dirty { state_of self.old.tables segment ≡ Dirty }
        requires empty { live_of self.old.tables segment ≡ 0 }
        ensures tables { self.new.tables ≡ with_state self.old.tables segment Clean }
        ensures memory { self.new.memory ≡ self.old.memory }
        ensures clean { self.new.clean ≡ self.old.clean + 1 }
        ensures step { (at : ℕ → ℕ → ℕ)
            → Cleans (log_state self.old at) (log_state self.new at) segment }
        ensures kept { IsParts self.new }
    {
        self.ifile.set_state(segment, SegState::Clean);
        self.clean += 1;
    }
}
