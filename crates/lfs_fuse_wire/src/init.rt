//! The message with which the talk begins, and what a kernel and a server offer one another in it.

ghost use Rattle.std.specs.Prelude.{⊤, ◌≡◌, [], ◌∷◌, codes};
ghost use Rattle.lfs_fuse_wire.specs.Init.{init_in};

use crate::numbers::{has, word_at};
use bitflags::{Flag, Flags, bitflag_items};

/// What the kernel can do, and what the server takes up of it, by fuse.h's names without their FUSE_.
#[derive(Clone, Copy, PartialEq, Eq, Debug)]
pub struct InitFlags(pub u64);

bitflag_items! {
    impl InitFlags: u64 {
        const ASYNC_READ = 0x1;
        const ATOMIC_O_TRUNC = 0x8;
        const BIG_WRITES = 0x20;
        const DONT_MASK = 0x40;
        const HAS_IOCTL_DIR = 0x800;
        const AUTO_INVAL_DATA = 0x1000;
        const DO_READDIRPLUS = 0x2000;
        const READDIRPLUS_AUTO = 0x4000;
        const PARALLEL_DIROPS = 0x4_0000;
        const HANDLE_KILLPRIV = 0x8_0000;
        const MAX_PAGES = 0x40_0000;
        const HANDLE_KILLPRIV_V2 = 0x1000_0000;
        const INIT_EXT = 0x4000_0000;
        const DIRECT_IO_ALLOW_MMAP = 0x10_0000_0000;
    }
}

impl Flags for InitFlags {
    type Bits = u64;

    ghost exact = { ⊤ };

    ghost table = { (codes "ASYNC_READ", 0x1) ∷ (codes "ATOMIC_O_TRUNC", 0x8)
        ∷ (codes "BIG_WRITES", 0x20) ∷ (codes "DONT_MASK", 0x40)
        ∷ (codes "HAS_IOCTL_DIR", 0x800) ∷ (codes "AUTO_INVAL_DATA", 0x1000)
        ∷ (codes "DO_READDIRPLUS", 0x2000) ∷ (codes "READDIRPLUS_AUTO", 0x4000)
        ∷ (codes "PARALLEL_DIROPS", 0x4_0000) ∷ (codes "HANDLE_KILLPRIV", 0x8_0000)
        ∷ (codes "MAX_PAGES", 0x40_0000) ∷ (codes "HANDLE_KILLPRIV_V2", 0x1000_0000)
        ∷ (codes "INIT_EXT", 0x4000_0000) ∷ (codes "DIRECT_IO_ALLOW_MMAP", 0x10_0000_0000) ∷ [] };

    ghost set_of = { λ f. f.0 };

    fn flags<'a>() -> &'a [Flag<InitFlags>] {
        InitFlags::FLAGS
    }

    fn bits(&self) -> u64 {
        self.0
    }

    fn from_bits_retain(bits: u64) -> InitFlags {
        InitFlags(bits)
    }
}

/// The bit by which the kernel says that a second word of flags stands behind the first.
const INIT_EXT: u32 = 0x4000_0000;

/// The kernel's version of the protocol, and what it offers.
#[derive(Clone, Copy, PartialEq, Eq, Debug)]
pub struct Init {
    /// The version's first number.
    pub major: u32,
    /// The version's second number.
    pub minor: u32,
    /// The most bytes that the kernel reads ahead.
    pub max_readahead: u32,
    /// What the kernel can do.
    pub flags: InitFlags,
}

impl Init {
    /// The 16 bytes that each version has, and the second word of flags where the first says that it is there.
    pub(crate) fn decode(body: &[u8]) -> Option<Init>
        ensures { result ≡ init_in body.now }
    {
        if body.len() < 16 {
            return None;
        }
        let low = word_at(body, 12);
        let high = if body.len() >= 20 && has(low, INIT_EXT) {
            word_at(body, 16)
        } else {
            0
        };
        Some(Init {
            major: word_at(body, 0),
            minor: word_at(body, 4),
            max_readahead: word_at(body, 8),
            flags: InitFlags(u64::from(low) + 0x1_0000_0000 * u64::from(high)),
        })
    }
}
