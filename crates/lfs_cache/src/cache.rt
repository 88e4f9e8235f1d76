//! Blocks by key, in frames.
ghost use Rattle.std.specs.Prelude.{◌≡◌, ◌⊎◌, ℕ, ◌+◌, ◌<◌, ◌≤◌, [], ◌∷◌, ◌++◌, length, Some, None, IsSome, false, IfOk, option_copied, slice_index_or, vec_len, vec_capacity, map};
ghost use Rattle.std.specs.Borrow.{sem};
ghost use Rattle.std.specs.Option.{is_some};
ghost use Rattle.lfs_recency.specs.FrameLists.{fronted, oldest_of, listed, frame_count, IsWhole};
ghost use Rattle.lfs_recency.specs.declared.queue.Queue.TheVariants.{Locked, Lru, Age, Empty};
ghost use Rattle.lfs_recency.specs.Lending.{with_block};
ghost use Rattle.lfs_types.specs.Ranges.{least_frames, most_frames};
ghost use Rattle.lfs_types.specs.declared.block.TheConstants.{BLOCK_SIZE};
ghost use Rattle.lfs_cache.specs.declared.key.Key.{Key};
ghost use Rattle.lfs_cache.specs.Frames.{next_of, names_after, names_without, HasRoom, HoldsNoOther};
ghost use Rattle.lfs_cache.specs.Contents.{block_in, block_of, used, filled, written, settled, forgotten, overwritten, IsLocked, keys_of, nothing_in, AreApart};
ghost use Rattle.lfs_cache.specs.Changes.{KeepsBlocks, KeepsOthers, GainsOnly, Overwrites, IsContents};

use crate::index::Index;
use crate::key::Key;
use crate::names::{drop_name, name_first};
use lfs_recency::{Frames, Queue};
use lfs_types::block::Block;
use std::alloc::{AllocError, Global};
use std::marker::Model;

/// The number of keys that may be LOCKED (this project's profile).
pub const LOCKED_LIMIT: usize = 24;

/// A cache of blocks (after 4.4BSD's buffer cache). Dirty blocks lie in LOCKED frames, clean ones in LRU.
#[derive(Drop)]
pub struct Cache {
    frames: Frames,
    index: Index,
    // The keys of the LOCKED frames, newest first.
    locked: Vec<Key>,
}

impl Model for Cache {
    ghost use Rattle.std.specs.Prelude.{vec_capacity};
    ghost use Rattle.lfs_cache.specs.Contents.{Contents};

    ghost Value = { Contents };

    ghost use Rattle.lfs_cache.specs.Held.{held_by, IsCache};

    ghost view = { λ c. held_by c.frames c.index };

    ghost invariant = { λ c. IsCache c.frames c.index c.locked.items (vec_capacity c.locked) };
}

/// Moves the frame of a key to the front of a queue, and keeps the list of LOCKED keys in step. That list is
/// searched only where the frame was LOCKED.
fn move_first(frames: &mut Frames, locked: &mut Vec<Key>, frame: u32, key: Key, queue: Queue)
    requires in_range { frame < frame_count frames.old }
    requires listed { HoldsNoOther frame key frames.old locked.old.items }
    requires room { HasRoom queue (length (names_without key locked.old.items))
        (vec_capacity locked.old) }
    ensures frames { frames.new ≡ fronted frame queue frames.old }
    ensures whole { IsWhole frames.new }
    ensures names { locked.new.items ≡ names_after queue key locked.old.items }
    ensures room { vec_capacity locked.new ≡ vec_capacity locked.old }
{
    match frames.queue(frame) {
        Queue::Locked => drop_name(locked, key),
        Queue::Lru | Queue::Age | Queue::Empty => {}
    }
    frames.to_front(frame, queue);
    match queue {
        Queue::Locked => name_first(locked, key),
        Queue::Lru | Queue::Age | Queue::Empty => {}
    }
}

/// The frame that is taken next.
fn next_frame(frames: &Frames) -> u32
    requires { IsSome (next_of frames.now) }
    ensures { next_of frames.now ≡ Some result }
{
    match frames.oldest(Queue::Empty) {
        Some(frame) => frame,
        None => match frames.oldest(Queue::Age) {
            Some(frame) => frame,
            None => match frames.oldest(Queue::Lru) {
                Some(frame) => frame,
                // Never: a frame can be taken, as is required.
                None => unreachable!(),
            },
        },
    }
}

/// Writes bytes over those of a frame, from a place on.
fn overwrite(frames: &mut Frames, frame: u32, start: usize, bytes: &[u8])
    requires in_range { frame < frame_count frames.old }
    requires sized { length (slice_index_or frames.old.blocks frame []) ≡ BLOCK_SIZE }
    requires inside { start + length bytes.now ≤ BLOCK_SIZE }
    ensures { frames.new ≡ with_block frames.old frame
        (overwritten start bytes.now (slice_index_or frames.old.blocks frame [])) }
{
    frames.bytes_mut(frame)[start..start + bytes.len()].copy_from_slice(bytes);
}

/// Copies a block into a frame.
fn copy_in(frames: &mut Frames, frame: u32, block: &Block)
    requires { frame < frame_count frames.old }
    ensures { frames.new ≡ with_block frames.old frame block.now }
{
    *frames.bytes_mut(frame) = *block;
}

impl Cache {
    ghost use Rattle.lfs_cache.specs.Ends.{ends_as};

    /// A cache of so many frames, which holds no block. All room is taken here.
    pub fn new(alloc: Global, frames: u32) -> Result<Cache, AllocError>
        requires at_least { least_frames ≤ frames }
        requires at_most { frames ≤ most_frames }
        ensures contents { IfOk result (λ s. s ≡ nothing_in frames) }
        ensures formed { IfOk result IsContents }
    {
        let number = frames;
        let frames = Frames::new(alloc, number)?;
        let index = Index::new(alloc, number)?;
        let locked = Vec::with_capacity(alloc, LOCKED_LIMIT)?;
        Ok(Cache {
            frames,
            index,
            locked,
        })
    }

    /// The block of a key, whose frame comes to the front of its queue. `None` where the key is not held.
    pub fn get(&mut self, key: Key) -> Option<&Block>
        ensures* used { sem 𝓛 (ends_as self.entry (used key self.old)) }
        ensures value { option_copied result ≡ block_of key self.old }
        ensures missing { is_some result ≡ false → block_of key (used key self.old) ≡ None }
        ensures kept { KeepsBlocks self.old (used key self.old) }
        ensures formed { IsContents (used key self.old) }
    {
        let frame = self.index.find(key)?;
        let queue = self.frames.queue(frame);
        move_first(&mut self.frames, &mut self.locked, frame, key, queue);
        Some(self.frames.bytes(frame))
    }

    /// The block of a key, whose frame stays where it is in its queue. `None` where the key is not held.
    pub fn peek(&self, key: Key) -> Option<&Block>
        ensures value { option_copied result ≡ block_of key self.now }
        ensures formed { IsContents self.now }
    {
        let number = self.index.find(key)?;
        Some(self.frames.bytes(number))
    }

    /// The block of a key that is dirty, whose frame stays where it is. `None` where the key is clean or not held.
    pub fn dirty(&self, key: Key) -> Option<&Block>
        ensures value { option_copied result ≡ block_in key self.now.locked }
        ensures formed { IsContents self.now }
    {
        let frame = self.index.find(key)?;
        match self.frames.queue(frame) {
            Queue::Locked => Some(self.frames.bytes(frame)),
            Queue::Lru | Queue::Age | Queue::Empty => None,
        }
    }

    /// Takes a frame for a clean block whose key is not held.
    pub fn fill(&mut self, key: Key, block: &Block)
        requires { block_of key self.old ≡ None }
        ensures contents { self.new ≡ filled key block.now self.old }
        ensures there { block_of key self.new ≡ Some block.now }
        ensures none_unlocked { self.new.locked ≡ self.old.locked }
        ensures others { GainsOnly key self.old self.new }
        ensures formed { IsContents self.new }
    {
        let taken = next_frame(&self.frames);
        copy_in(&mut self.frames, taken, block);
        self.index.put(taken, key);
        move_first(&mut self.frames, &mut self.locked, taken, key, Queue::Lru);
    }

    /// Holds a block that is dirty until it is settled: in the frame of its key, or else in a frame that is taken for it.
    pub fn write(&mut self, key: Key, block: &Block)
        requires { IsLocked key self.old ⊎ (length self.old.locked < LOCKED_LIMIT) }
        ensures contents { self.new ≡ written key block.now self.old }
        ensures dirty { block_in key self.new.locked ≡ Some block.now }
        ensures others { GainsOnly key self.old self.new }
        ensures one_more { length self.new.locked ≤ length self.old.locked + 1 }
        ensures none_more { IsLocked key self.old
            → length self.new.locked ≡ length self.old.locked }
        ensures formed { IsContents self.new }
    {
        if let Some(frame) = self.index.find(key) {
            copy_in(&mut self.frames, frame, block);
            move_first(
                &mut self.frames,
                &mut self.locked,
                frame,
                key,
                Queue::Locked,
            );
            return;
        }
        let frame = next_frame(&self.frames);
        copy_in(&mut self.frames, frame, block);
        self.index.put(frame, key);
        move_first(
            &mut self.frames,
            &mut self.locked,
            frame,
            key,
            Queue::Locked,
        );
    }

    /// Writes bytes over those of a dirty block, from a place on. Its frame stays where it is.
    pub fn overwrite(&mut self, key: Key, start: usize, bytes: &[u8])
        requires locked { IsLocked key self.old }
        requires inside { start + length bytes.now ≤ BLOCK_SIZE }
        ensures overwrites { Overwrites key start bytes.now self.old self.new }
        ensures formed { IsContents self.new }
    {
        if let Some(frame) = self.index.find(key) {
            overwrite(&mut self.frames, frame, start, bytes);
        }
    }

    /// The LOCKED keys, the newest first, each once.
    pub fn locked(&self) -> &[Key]
        ensures keys { result.now ≡ keys_of self.now.locked }
        ensures once { AreApart result.now }
        ensures one_queue { AreApart (keys_of (self.now.locked ++ self.now.lru)) }
    {
        &self.locked
    }

    /// How many keys are LOCKED.
    pub fn locked_count(&self) -> usize
        ensures count { result ≡ length self.now.locked }
        ensures limit { result ≤ LOCKED_LIMIT }
    {
        self.locked.len()
    }

    /// A dirty block is clean from now on.
    pub fn settle(&mut self, key: Key)
        requires { IsLocked key self.old }
        ensures contents { self.new ≡ settled key self.old }
        ensures kept { block_of key self.new ≡ block_of key self.old }
        ensures clean { block_in key self.new.locked ≡ None }
        ensures one_less { length self.new.locked + 1 ≡ length self.old.locked }
        ensures others { KeepsOthers key self.old self.new }
        ensures formed { IsContents self.new }
    {
        if let Some(frame) = self.index.find(key) {
            move_first(&mut self.frames, &mut self.locked, frame, key, Queue::Lru);
        }
    }

    /// A key is held no longer. Nothing changes where it was not.
    pub fn forget(&mut self, key: Key)
        ensures contents { self.new ≡ forgotten key self.old }
        ensures gone { block_of key self.new ≡ None }
        ensures unlocked { block_in key self.new.locked ≡ None }
        ensures one_less { IsLocked key self.old
            → length self.new.locked + 1 ≡ length self.old.locked }
        ensures none_less { block_in key self.old.locked ≡ None
            → self.new.locked ≡ self.old.locked }
        ensures others { KeepsOthers key self.old self.new }
        ensures formed { IsContents self.new }
    {
        if let Some(frame) = self.index.find(key) {
            self.index.clear(frame);
            move_first(&mut self.frames, &mut self.locked, frame, key, Queue::Age);
        }
    }
}
