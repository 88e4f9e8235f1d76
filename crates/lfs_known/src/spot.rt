//! Hashes of names, and the blocks in which names of one hash may stand.

ghost use Rattle.std.specs.Prelude.{◌≡◌, ◌≤◌, ◌<◌, ℕ};
ghost use Rattle.lfs_known.specs.Spots.{hash_of};

/// How many hashes there are.
pub(crate) const SPOTS: usize = 65_536;

/// By what the hash is multiplied before a byte is added.
const MULTIPLIER: usize = 403;

/// In which blocks of directories the names of one hash may stand.
#[derive(Clone, Copy)]
pub(crate) enum Spot {
    /// In none.
    Nowhere,
    /// In one.
    One(u16),
    /// In two.
    Two(u16, u16),
    /// In any.
    Anywhere,
}

impl Spot {
    ghost use Rattle.lfs_known.specs.Spots.{Allows};

    /// These blocks and one more. Of three nothing is kept.
    pub(crate) fn with(self, block: u64) -> Spot
        ensures more { Allows result block }
        ensures keeps { (k : ℕ) → Allows self k → Allows result k }
    {
        if block > u64::from(u16::MAX) {
            return Spot::Anywhere;
        }
        let block = block as u16;
        match self {
            Spot::Nowhere => Spot::One(block),
            Spot::One(a) => {
                if a == block {
                    self
                } else {
                    Spot::Two(a, block)
                }
            }
            Spot::Two(a, b) => {
                if a == block || b == block {
                    self
                } else {
                    Spot::Anywhere
                }
            }
            Spot::Anywhere => self,
        }
    }

    /// The first of these blocks from one on; where there is none, the largest number.
    pub(crate) fn first_from(self, from: u64) -> u64
        ensures from { from ≤ result }
        ensures none { (k : ℕ) → from ≤ k → k < result → Allows self k → ⊥ }
    {
        match self {
            Spot::Nowhere => u64::MAX,
            Spot::One(a) => at_or_past(u64::from(a), from),
            Spot::Two(a, b) => {
                at_or_past(u64::from(a), from).min(at_or_past(u64::from(b), from))
            }
            Spot::Anywhere => from,
        }
    }
}

/// A block, if it isn't before another; else the largest number.
fn at_or_past(block: u64, from: u64) -> u64
    ensures from { from ≤ result }
    ensures none { from ≤ block → result ≤ block }
{
    if block < from { u64::MAX } else { block }
}

/// The hash of a name in a directory.
#[tactic(auto, unfolding(crate::specs::Spots::hash_of))]
pub(crate) fn hash(dir: u32, name: &[u8]) -> usize
    ensures value { result ≡ hash_of dir name.now }
    ensures within { result < SPOTS }
{
    let mut sum = dir as usize % SPOTS;
    for byte in name {
        sum = (sum * MULTIPLIER + usize::from(*byte)) % SPOTS;
    }
    sum
}
