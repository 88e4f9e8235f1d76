//! The numbers that a walk from the root reaches.

ghost use Rattle.std.specs.Prelude.{◌≡◌, ◌+◌, ◌<◌, ◌≤◌, ◌++◌, ◌∷◌, [], length, true, false, IfOk, IfSome, OnOk, slice_get};
ghost use Rattle.std.proofs.Props.{props};
ghost use Rattle.lfs_trees.specs.Marks.{AreMarked, is_among};

use std::alloc::{AllocError, Global};

/// The numbers that were reached, in the order in which they were. What the first of them list was read.
#[derive(Drop)]
pub(crate) struct Walk {
    order: Vec<u32>,
    /// For each number whether it was reached.
    marks: Vec<bool>,
    /// How many were read.
    done: usize,
    ghost marked: { AreMarked order.items marks.items } by { Prim.hlevel props },
    ghost reached: { done ≤ length order.items },
}

impl Walk {
    /// A walk among so many numbers, which reached none.
    pub(crate) fn new(alloc: Global, numbers: u32) -> Result<Walk, AllocError>
        ensures none { IfOk result (λ walk. walk.order.items ≡ []) }
        ensures numbers { IfOk result (λ walk. length walk.marks.items ≡ numbers) }
        ensures done { IfOk result (λ walk. walk.done ≡ 0) }
    {
        Ok(Walk {
            order: Vec::with_capacity(alloc, numbers as usize)?,
            marks: vec![in alloc; false; numbers as usize]?,
            done: 0,
        })
    }

    /// Whether a number was reached.
    pub(crate) fn has(&self, number: u32) -> bool
        requires { number < length self.now.marks.items }
        ensures { result ≡ is_among self.now.order.items number }
    {
        self.marks[number as usize]
    }

    /// Reaches a number.
    pub(crate) fn push(&mut self, number: u32) -> Result<(), AllocError>
        requires among { number < length self.old.marks.items }
        requires new_number { is_among self.old.order.items number ≡ false }
        ensures order { OnOk result (self.new.order.items ≡ self.old.order.items ++ number ∷ []) }
        ensures numbers { length self.new.marks.items ≡ length self.old.marks.items }
        ensures done { self.new.done ≡ self.old.done }
    {
        self.order.push(number)?;
        self.marks[number as usize] = true;
        Ok(())
    }

    /// The first of the numbers that wasn't read, if there is one. There are no more than there are numbers.
    pub(crate) fn next(&self) -> Option<u32>
        ensures next { result ≡ slice_get self.now.order.items self.now.done }
        ensures few { IfSome result (λ _. self.now.done < length self.now.marks.items) }
    {
        self.order.get(self.done).copied()
    }

    /// What the next number lists was read.
    pub(crate) fn finish(&mut self)
        requires { self.old.done < length self.old.order.items }
        ensures done { self.new.done ≡ self.old.done + 1 }
        ensures order { self.new.order.items ≡ self.old.order.items }
        ensures numbers { length self.new.marks.items ≡ length self.old.marks.items }
    {
        self.done += 1;
    }
}
