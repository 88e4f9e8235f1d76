//! Counts of answers.

ghost use Rattle.std.specs.Prelude.{◌≡◌, ◌-◌, ◌<◌, ◌^◌, OnOk};
ghost use Rattle.lfs_bench.specs.Counting.{counted, total};

use anyhow::{Result, bail};
use lfs_types::answer::Answer;
use std::fmt;
use std::num::nearest_u64_to_f64;

/// How many calls were answered in each way.
#[derive(Clone, Copy, Default)]
pub(crate) struct Counts {
    /// Calls that were done.
    pub(crate) served: u64,
    /// Calls that a rule denied.
    pub(crate) denied: u64,
    /// Calls for which a resource was wanting.
    pub(crate) refused: u64,
}

impl Counts {
    /// Counts an answer.
    pub(crate) fn add(&mut self, answer: &Answer)
        requires { total self.old < 2 ^ 64 - 1 }
        ensures { self.new ≡ counted answer.now self.old }
    {
        match answer {
            Answer::Served(_) => self.served += 1,
            Answer::Denied(_) => self.denied += 1,
            Answer::Refused(_) => self.refused += 1,
        }
    }

    /// An error unless all calls that were counted were done.
    pub(crate) fn all_served(&self) -> Result<()>
        ensures { OnOk result ((self.now.denied ≡ 0) × (self.now.refused ≡ 0)) }
    {
        if self.denied != 0 || self.refused != 0 {
            bail!("the tree isn't made");
        }
        Ok(())
    }

    /// How many calls were answered, as a float.
    pub(crate) fn total(&self) -> f64 {
        nearest_u64_to_f64(self.served)
            + nearest_u64_to_f64(self.denied)
            + nearest_u64_to_f64(self.refused)
    }
}

impl fmt::Display for Counts {
    fn fmt<W: fmt::Write>(&self, f: &mut fmt::Formatter<W>) -> fmt::Result {
        let Counts {
            served,
            denied,
            refused,
        } = *self;
        write!(f, "served {served}, denied {denied}, refused {refused}")
    }
}
