//! What a run gave.

ghost use Rattle.std.specs.Prelude.{◌≡◌, ◌⊎◌, IfOk};

use crate::counts::Counts;
use anyhow::Result;
use std::num::nearest_u64_to_f64;
use std::rt::Clock;
use std::time::Instant;

/// What a run gave.
#[derive(Clone, Copy)]
pub(crate) struct Measure {
    /// What was answered.
    pub(crate) counts: Counts,
    /// How many seconds it took.
    pub(crate) seconds: f64,
}

impl Measure {
    /// What was answered since this moment.
    pub(crate) fn since<R: Clock>(rt: &R, start: Instant, counts: Counts) -> Result<Measure>
        ensures { IfOk result (λ measure. measure.counts ≡ counts) }
    {
        let seconds = start.elapsed(rt)?.as_secs_f64();
        Ok(Measure { counts, seconds })
    }

    /// How many calls were served in a second.
    pub(crate) fn served_a_second(&self) -> f64 {
        nearest_u64_to_f64(self.counts.served) / self.seconds
    }

    /// Of this and another the one with more calls served in a second.
    pub(crate) fn faster(self, other: Measure) -> Measure
        ensures { (result ≡ self) ⊎ (result ≡ other) }
    {
        if other.served_a_second() > self.served_a_second() {
            other
        } else {
            self
        }
    }
}
