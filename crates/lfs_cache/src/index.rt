//! The frame of each key, found by hashing.
ghost use Rattle.std.specs.Prelude.{◌≡◌, ◌≢◌, ℕ, ◌+◌, ◌-◌, ◌*◌, ◌<◌, ◌≤◌, length, Some, None, IfOk, MatchOption, slice_set, vec_len};
ghost use Rattle.lfs_types.specs.Ranges.{most_frames};
ghost use Rattle.lfs_cache.specs.Keys.{start_of};
ghost use Rattle.lfs_cache.specs.Index.{key_at, frame_at, IsFree, count_taken, IsIndex as IsIndexOf};

use crate::key::{Key, same};
use std::alloc::{AllocError, Global};
use std::marker::Model;

/// The key at each frame, which contracts see, and the frame of each key.
#[derive(Drop)]
pub(crate) struct Index {
    keys: Vec<Option<Key>>,
    // A key's frame is named from the key's start on, before any free place. A frame that has another key by now is passed over.
    places: Vec<Option<u32>>,
    taken: usize,
}

impl Model for Index {
    ghost use Rattle.std.specs.Prelude.{List, Option};
    ghost use Rattle.lfs_cache.specs.declared.key.Key.{Key};

    ghost Value = { List (Option Key) };

    ghost use Rattle.lfs_cache.specs.Index.{IsIndex};

    ghost view = { λ i. i.keys.items };

    ghost invariant = { λ i. IsIndex i.keys.items i.places.items i.taken };
}

// Where the search for a key starts: sixteen bits of it, as a fraction of the span, so that nothing is divided by a number
// that isn't known before. Keys of blocks side by side start far apart, so that the search for a key that isn't held soon
// meets a free place.
fn start(key: Key, span: usize) -> usize
    requires { 0 < span }
    ensures start { result ≡ start_of key span }
    ensures below { result < span }
{
    let spread = key.ino as u64 * 668265263
        + key.version as u64 * 374761393
        + key.lbn.0 as u64 * 2654435761;
    let fraction = spread / 65536 % 65536;
    (fraction as u128 * span as u128 / 65536) as usize
}

// The first free place from `start` on.
fn free_place(places: &[Option<u32>], start: usize) -> usize
    requires { start + count_taken places.now < length places.now }
    ensures after { start ≤ result }
    ensures free { IsFree places.now start (result - start) }
{
    for place in start..places.len() {
        if places[place].is_none() {
            return place;
        }
    }
    // Never: a free place is left, as is required.
    unreachable!()
}

// Frees every place.
fn free_all(places: &mut Vec<Option<u32>>)
    ensures none { (p : ℕ) → frame_at places.new.items p ≡ None }
    ensures len { length places.new.items ≡ length places.old.items }
{
    for place in 0..places.len() {
        places[place] = None;
    }
}

// Names the frames of all keys anew, and says how many there are.
fn rebuild(places: &mut Vec<Option<u32>>, keys: &[Option<Key>]) -> usize
    requires some { 0 < length keys.now }
    requires bounded { length keys.now ≤ most_frames }
    requires sized { length places.old.items ≡ 6 * length keys.now }
    ensures { IsIndexOf keys.now places.new.items result }
{
    free_all(places);
    let mut taken = 0;
    for frame in 0..keys.len() {
        if let Some(key) = keys[frame] {
            let place = free_place(places, start(key, 4 * keys.len()));
            places[place] = Some(frame as u32);
            taken += 1;
        }
    }
    taken
}

impl Index {
    /// No key at any of so many frames. All room is taken here.
    pub(crate) fn new(alloc: Global, frames: u32) -> Result<Index, AllocError>
        requires some { 0 < frames }
        requires bounded { frames ≤ most_frames }
        ensures len { IfOk result (λ keys. length keys ≡ frames) }
        ensures none { IfOk result (λ keys. (f : ℕ) → key_at keys f ≡ None) }
    {
        let frames = frames as usize;
        let keys = Vec::from_elem(alloc, None, frames)?;
        let places = Vec::from_elem(alloc, None, 6 * frames)?;
        Ok(Index {
            keys,
            places,
            taken: 0,
        })
    }

    /// Puts a key at a frame, in place of the one that is there.
    pub(crate) fn put(&mut self, frame: u32, key: Key)
        requires { frame < length self.old }
        ensures { self.new ≡ slice_set self.old frame (Some key) }
    {
        self.keys[frame as usize] = Some(key);
        if self.taken == 2 * self.keys.len() {
            self.taken = rebuild(&mut self.places, &self.keys);
        } else {
            let place = free_place(&self.places, start(key, 4 * self.keys.len()));
            self.places[place] = Some(frame);
            self.taken += 1;
        }
    }

    /// Takes the key away from a frame.
    pub(crate) fn clear(&mut self, frame: u32)
        requires { frame < length self.old }
        ensures { self.new ≡ slice_set self.old frame None }
    {
        self.keys[frame as usize] = None;
    }

    /// The frame of a key.
    pub(crate) fn find(&self, key: Key) -> Option<u32>
        ensures { MatchOption result ((f : ℕ) → key_at self.now f ≢ Some key)
            (λ f. (f < length self.now) × (key_at self.now f ≡ Some key)) }
    {
        let start = start(key, 4 * self.keys.len());
        for place in start..self.places.len() {
            match self.places[place] {
                None => return None,
                Some(frame) => {
                    if let Some(held) = self.keys[frame as usize]
                        && same(held, key)
                    {
                        return Some(frame);
                    }
                }
            }
        }
        None
    }
}
