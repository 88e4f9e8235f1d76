//! The flags of a file.

ghost use Rattle.std.specs.Prelude.{⊤, ◌≡◌, ◌==◌, [], ◌∷◌, codes, not};
ghost use Rattle.std.specs.Option.{SomeIff};
ghost use Rattle.std.specs.Int.RustNames.{bit_and};
ghost use Rattle.lfs_types.specs.FlagNumbers.{IsKnown, is_part_of};

use bitflags::{Flag, Flags, bitflag_items};
use std::marker::Model;

/// The bits of file flags, by 4.4BSD's names (chflags(2)). User flags lie in 0x0000ffff, system flags above.
#[derive(Clone, Copy, PartialEq, Eq, Debug)]
pub struct FlagBits(pub u32);

bitflag_items! {
    impl FlagBits: u32 {
        const UF_NODUMP = 0x1;
        const UF_IMMUTABLE = 0x2;
        const UF_APPEND = 0x4;
        const SF_ARCHIVED = 0x1_0000;
        const SF_IMMUTABLE = 0x2_0000;
        const SF_APPEND = 0x4_0000;
    }
}

impl Flags for FlagBits {
    type Bits = u32;

    ghost exact = { ⊤ };

    ghost table = { (codes "UF_NODUMP", 0x1) ∷ (codes "UF_IMMUTABLE", 0x2)
        ∷ (codes "UF_APPEND", 0x4) ∷ (codes "SF_ARCHIVED", 0x1_0000)
        ∷ (codes "SF_IMMUTABLE", 0x2_0000) ∷ (codes "SF_APPEND", 0x4_0000) ∷ [] };

    ghost set_of = { λ f. f.0 };

    fn flags<'a>() -> &'a [Flag<FlagBits>] {
        FlagBits::FLAGS
    }

    fn bits(&self) -> u32 {
        self.0
    }

    fn from_bits_retain(bits: u32) -> FlagBits {
        FlagBits(bits)
    }
}

/// Every known flag.
const KNOWN: u32 = 0x7_0007;

/// The flags of a file: a set of 4.4BSD's flags that are in `FlagBits`; no other bit can be set.
#[derive(Clone, Copy, PartialEq, Eq, Debug)]
pub struct FileFlags {
    set: FlagBits,
}

impl Model for FileFlags {
    ghost use Rattle.std.specs.Prelude.{ℕ};
    ghost use Rattle.lfs_types.specs.FlagNumbers.{IsKnown};

    ghost Value = { ℕ };

    ghost view = { λ f. f.set.0 };

    ghost invariant = { λ f. IsKnown f.set.0 };

    ghost inverse = { λ n. record { set = record { 0 = n } } };
}

impl FileFlags {
    /// The flags of these bits, where each of them is known.
    pub fn new(bits: u32) -> Option<FileFlags>
        ensures { SomeIff result (IsKnown bits) bits }
    {
        if bits & KNOWN == bits {
            Some(FileFlags {
                set: FlagBits(bits),
            })
        } else {
            None
        }
    }

    /// No flag.
    pub fn none() -> FileFlags
        ensures { result ≡ 0 }
    {
        FileFlags { set: FlagBits(0) }
    }

    /// The bits as a number.
    pub fn bits(self) -> u32
        ensures value { result ≡ self }
        ensures known { IsKnown self }
    {
        self.set.0
    }

    /// Whether all bits of `bits` are set.
    pub fn contains(self, bits: FlagBits) -> bool
        ensures { result ≡ (bit_and self bits.0 == bits.0) }
    {
        self.set.contains(bits)
    }

    /// Whether these are some of other flags, and not all of them.
    pub fn is_part_of(self, whole: FileFlags) -> bool
        ensures { result ≡ is_part_of self whole }
    {
        whole.contains(self.set) && self != whole
    }

    /// Whether a bit of `bits` is set.
    pub fn intersects(self, bits: FlagBits) -> bool
        ensures { result ≡ not (bit_and self bits.0 == 0) }
    {
        self.set.intersects(bits)
    }
}
