//! The blocks of a volume in memory. Those behind the last that was written are zeros, for which no memory was touched.

ghost use Rattle.std.specs.Prelude.{◌≡◌, ◌+◌, ◌-◌, ◌<◌, ◌≤◌, ◌++◌, IfOk, [], length, replicate, slice_index_or, vec_capacity, vec_len};
ghost use Rattle.lfs_types.specs.Blocks.{zero_block};
ghost use Rattle.lfs_segments.specs.Memory.{written};

use lfs_types::block::{Block, ZERO_BLOCK};
use std::alloc::{AllocError, Global};
use std::marker::Model;

/// So many blocks, by their places. There is room for all; the last may be zeros that aren't there yet.
#[derive(Drop)]
pub(crate) struct Blocks {
    begun: Vec<Block>,
    count: usize,
}

impl Model for Blocks {
    ghost use Rattle.std.specs.Prelude.{ℕ, List, ◌≤◌, vec_capacity, vec_len};
    ghost use Rattle.lfs_segments.specs.Blocks.{filled_up};

    ghost Value = { List (List ℕ) };

    ghost view = { λ b. filled_up b.begun.items b.count };

    ghost invariant = { λ b. (vec_len b.begun ≤ b.count) × (b.count ≤ vec_capacity b.begun) };
}

impl Blocks {
    /// So many zeros.
    pub(crate) fn zeros(alloc: Global, count: usize) -> Result<Blocks, AllocError>
        ensures { IfOk result (λ blocks. blocks ≡ replicate count zero_block) }
    {
        let begun = Vec::with_capacity(alloc, count)?;
        Ok(Blocks { begun, count })
    }

    /// These blocks.
    pub(crate) fn of(blocks: Vec<Block>) -> Blocks
        ensures { result ≡ blocks.items }
    {
        let count = blocks.len();
        Blocks {
            begun: blocks,
            count,
        }
    }

    /// How many there are.
    pub(crate) fn len(&self) -> usize
        ensures { result ≡ length self.now }
    {
        self.count
    }

    /// The block at a place.
    pub(crate) fn get(&self, place: usize) -> &Block
        requires { place < length self.now }
        ensures { result.now ≡ slice_index_or self.now place [] }
    {
        if place < self.begun.len() {
            &self.begun[place]
        } else {
            &ZERO_BLOCK
        }
    }

    /// Writes blocks over others, from a place on.
    pub(crate) fn put(&mut self, place: usize, others: &[Block])
        requires { place + length others.now ≤ length self.old }
        ensures { self.new ≡ written self.old place others.now }
    {
        reach(&mut self.begun, place + others.len());
        put(&mut self.begun, place, others);
    }

    /// Fills blocks with zeros, from a place to another.
    pub(crate) fn clear(&mut self, start: usize, end: usize)
        requires ordered { start ≤ end }
        requires inside { end ≤ length self.old }
        ensures { self.new ≡ written self.old start (replicate (end - start) zero_block) }
    {
        reach(&mut self.begun, end);
        clear(&mut self.begun, start, end);
    }
}

/// Adds zeros up to a place, where there is room for them.
fn reach(blocks: &mut Vec<Block>, end: usize)
    requires { end ≤ vec_capacity blocks.old }
    ensures reached { blocks.new.items ≡ blocks.old.items
        ++ replicate (end - length blocks.old.items) zero_block }
    ensures room { vec_capacity blocks.old ≤ vec_capacity blocks.new }
{
    if blocks.len() < end {
        let Ok(()) = blocks.resize(end, ZERO_BLOCK) else {
            // Never: the room is there, as is required.
            unreachable!()
        };
    }
}

/// Writes blocks over others, from a place on.
fn put(blocks: &mut Vec<Block>, place: usize, others: &[Block])
    requires { place + length others.now ≤ vec_len blocks.old }
    ensures written { blocks.new.items ≡ written blocks.old.items place others.now }
    ensures room { vec_capacity blocks.new ≡ vec_capacity blocks.old }
{
    blocks[place..place + others.len()].copy_from_slice(others);
}

/// Fills blocks with zeros, from a place to another.
fn clear(blocks: &mut Vec<Block>, start: usize, end: usize)
    requires ordered { start ≤ end }
    requires inside { end ≤ vec_len blocks.old }
    ensures written { blocks.new.items
        ≡ written blocks.old.items start (replicate (end - start) zero_block) }
    ensures room { vec_capacity blocks.new ≡ vec_capacity blocks.old }
{
    for place in start..end {
        blocks[place] = ZERO_BLOCK;
    }
}
