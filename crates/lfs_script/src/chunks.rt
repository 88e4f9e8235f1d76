//! Lists in chunks.

ghost use Rattle.std.specs.Prelude.{◌≡◌, ◌++◌, ◌∷◌, ◌<◌, [], true, length, IfOk, OnErr, OnOk};
ghost use Rattle.std.specs.Vec.Iter.{into_iter_items};
ghost use Rattle.lfs_script.specs.Layout.{AreFilled, IsAhead, items_in};

use std::alloc::{AllocError, Global};
use std::marker::Model;
use std::vec;

/// How many items a chunk has room for.
const CHUNK: usize = 256;

/// A list in chunks of 256 items, which no growth copies.
#[derive(Drop, Debug)]
pub(crate) struct Chunks<T> {
    alloc: Global,
    /// Each has an item.
    chunks: Vec<Vec<T>>,
}

impl<T> Model for Chunks<T> {
    ghost use Rattle.std.specs.Prelude.{List};
    ghost use Rattle.lfs_script.specs.Layout.{AreFilled, items_in};

    ghost Value = { List T };

    ghost view = { λ c. items_in c.chunks.items };

    ghost invariant = { λ c. AreFilled c.chunks.items };
}

impl<T: Drop> Chunks<T> {
    /// No items.
    pub(crate) fn new(alloc: Global) -> Chunks<T>
        ensures { result ≡ [] }
    {
        Chunks {
            alloc,
            chunks: Vec::new(alloc),
        }
    }

    /// Adds an item at the end.
    pub(crate) fn push(&mut self, item: T) -> Result<(), AllocError>
        ensures pushed { OnOk result (self.new ≡ self.old ++ item ∷ []) }
        ensures failed { OnErr result (self.new ≡ self.old) }
    {
        if has_room(self.chunks.as_slice()) {
            let last = self.chunks.len() - 1;
            self.chunks[last].push(item)?;
        } else {
            let chunk = first_of(self.alloc, item)?;
            self.chunks.push(chunk)?;
        }
        Ok(())
    }

    /// The chunks, from the first on.
    pub(crate) fn chunks(&self) -> &[Vec<T>]
        ensures { items_in result.now ≡ self.now }
    {
        self.chunks.as_slice()
    }

    /// The items, from the first on.
    pub(crate) fn into_items(self) -> Items<T>
        ensures { result ≡ self }
    {
        let Chunks { alloc, chunks } = self;
        let mut chunks = chunks.into_iter();
        let chunk = next_chunk(alloc, &mut chunks);
        Items {
            alloc,
            chunk,
            chunks,
        }
    }
}

/// Whether the last chunk has room.
fn has_room<T>(chunks: &[Vec<T>]) -> bool
    ensures { result ≡ true → 0 < length chunks.now }
{
    match chunks.last() {
        Some(chunk) => chunk.len() < CHUNK,
        None => false,
    }
}

/// A chunk with one item.
fn first_of<T: Drop>(alloc: Global, item: T) -> Result<Vec<T>, AllocError>
    ensures { IfOk result (λ chunk. chunk.items ≡ item ∷ []) }
{
    let mut chunk = Vec::with_capacity(alloc, CHUNK)?;
    chunk.push(item)?;
    Ok(chunk)
}

/// The items of the next chunk, or none behind the last.
fn next_chunk<T: Drop>(alloc: Global, chunks: &mut vec::IntoIter<Vec<T>>) -> vec::IntoIter<T>
    ensures items { items_in (into_iter_items chunks.old)
        ≡ into_iter_items result ++ items_in (into_iter_items chunks.new) }
    ensures ahead { AreFilled (into_iter_items chunks.old)
        → AreFilled (into_iter_items chunks.new)
        × IsAhead (into_iter_items result) (into_iter_items chunks.new) }
{
    match chunks.next() {
        Some(chunk) => chunk.into_iter(),
        None => Vec::new(alloc).into_iter(),
    }
}

/// The items of a list in chunks. The memory of a chunk is free once its last item is out.
#[derive(Drop)]
pub(crate) struct Items<T> {
    alloc: Global,
    /// The items of the first chunk that are left.
    chunk: vec::IntoIter<T>,
    /// The chunks behind it.
    chunks: vec::IntoIter<Vec<T>>,
}

impl<T> Model for Items<T> {
    ghost use Rattle.std.specs.Prelude.{List, ◌++◌};
    ghost use Rattle.std.specs.Vec.Iter.{into_iter_items};
    ghost use Rattle.lfs_script.specs.Layout.{AreFilled, IsAhead, items_in};

    ghost Value = { List T };

    ghost view = { λ i. into_iter_items i.chunk ++ items_in (into_iter_items i.chunks) };

    ghost invariant = { λ i. AreFilled (into_iter_items i.chunks)
        × IsAhead (into_iter_items i.chunk) (into_iter_items i.chunks) };
}

impl<T: Drop> Iterator for Items<T> {
    type Item = T;

    ghost use Rattle.std.specs.Iterator.{YieldsFirst, item_count};

    ghost next_gives = { YieldsFirst (λ rest. rest) };

    ghost remaining = { item_count (λ rest. rest) };

    fn next(&mut self) -> Option<T> {
        let item = self.chunk.next()?;
        if self.chunk.len() == 0 {
            self.chunk = next_chunk(self.alloc, &mut self.chunks);
        }
        Some(item)
    }
}
