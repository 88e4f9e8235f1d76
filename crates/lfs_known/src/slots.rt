//! The values that are kept, each in the slot of its inode number.

ghost use Rattle.std.specs.Prelude.{◌≡◌, ℕ, Some, None, vec_len, IfOk};

use lfs_types::limits::MOST_INODES;
use std::alloc::{AllocError, Global};

/// How many numbers have a slot: each inode number of the largest volume.
const SLOTS: usize = MOST_INODES as usize;

/// A value, or none, for each inode number of the largest volume. It takes no memory once it is made.
#[derive(Drop)]
pub struct Slots<T: Copy> {
    slots: Vec<Option<T>>,
    ghost sized: { vec_len slots ≡ 4096 },
}

impl<T: Copy> Slots<T> {
    ghost use Rattle.lfs_known.specs.Says.{says, kept_of, SaysTheSame};

    /// A table that says nothing of any number. All its room is taken here.
    pub fn new(alloc: Global) -> Result<Slots<T>, AllocError>
        ensures { IfOk result (λ table. (number : ℕ) → says table number ≡ None) }
    {
        let slots = Vec::from_elem(alloc, None, SLOTS)?;
        Ok(Slots { slots })
    }

    /// The value that was last entered for a number, if it was not forgotten since.
    pub fn look(&self, number: u32) -> Option<T>
        ensures { result ≡ says self.now number }
    {
        if number < MOST_INODES {
            self.slots[number as usize]
        } else {
            None
        }
    }

    /// Enters the value of a number; of one that no volume has it keeps none.
    pub fn enter(&mut self, number: u32, value: T)
        ensures entered { says self.new number ≡ kept_of number (Some value) }
        ensures others { SaysTheSame self.old self.new number }
    {
        self.put(number, Some(value));
    }

    /// Forgets the value of a number.
    pub fn forget(&mut self, number: u32)
        ensures forgotten { says self.new number ≡ None }
        ensures others { SaysTheSame self.old self.new number }
    {
        self.put(number, None);
    }

    /// Puts what is kept of a number into its slot, if it has one.
    fn put(&mut self, number: u32, value: Option<T>)
        ensures put { says self.new number ≡ kept_of number value }
        ensures others { SaysTheSame self.old self.new number }
    {
        let slot = number as usize;
        if slot < SLOTS {
            self.slots[slot] = value;
        }
    }
}
