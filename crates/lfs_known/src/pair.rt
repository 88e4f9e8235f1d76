//! A name of a directory with its number.

ghost use Rattle.std.specs.Prelude.{◌≡◌, ◌≤◌, length, take};

/// How many bytes a name has at most that is kept; a longer one is not.
pub const KEPT_BYTES: usize = 24;

/// A name of a directory, and what the directory lists under it: a number, or nothing.
#[derive(Clone, Copy)]
pub(crate) struct Pair {
    dir: u32,
    found: Option<u32>,
    len: u8,
    bytes: [u8; KEPT_BYTES],
    ghost within: { len ≤ 24 },
}

impl Pair {
    ghost use Rattle.lfs_known.specs.NameSlots.{is_pair_of, slot_says};

    /// A pair of a name that is short enough to be kept, and what is listed under it.
    pub(crate) fn new(dir: u32, name: &[u8], found: Option<u32>) -> Pair
        requires { length name.now ≤ KEPT_BYTES }
        ensures dir { result.dir ≡ dir }
        ensures name { take result.len result.bytes ≡ name.now }
        ensures found { result.found ≡ found }
    {
        let mut bytes = [0; KEPT_BYTES];
        bytes[..name.len()].copy_from_slice(name);
        Pair {
            dir,
            found,
            len: name.len() as u8,
            bytes,
        }
    }

    /// Whether this is the pair of a directory and a name.
    fn is_of(&self, dir: u32, name: &[u8]) -> bool
        ensures { result ≡ is_pair_of self.now dir name.now }
    {
        self.dir == dir && self.name() == name
    }

    /// The name.
    fn name(&self) -> &[u8]
        ensures { result.now ≡ take self.now.len self.now.bytes }
    {
        &self.bytes[..self.len as usize]
    }

    /// What a slot has for a name of a directory.
    pub(crate) fn found_in(slot: &Option<Pair>, dir: u32, name: &[u8]) -> Option<Option<u32>>
        ensures { result ≡ slot_says slot.now dir name.now }
    {
        match slot {
            Some(pair) if pair.is_of(dir, name) => Some(pair.found),
            _ => None,
        }
    }
}
