//! The mode of a file.

ghost use Rattle.std.specs.Prelude.{⊤, ◌≡◌, ◌<◌, ◌==◌, [], ◌∷◌, codes};
ghost use Rattle.std.specs.Option.{SomeIff};
ghost use Rattle.std.specs.Int.RustNames.{bit_and};
ghost use Rattle.bitflags.specs.Sets.{without};

use bitflags::{Flag, Flags, bitflag_items};
use std::marker::Model;

/// The bits of a mode, by 4.4BSD's names (chmod(2)).
#[derive(Clone, Copy, PartialEq, Eq, Debug)]
pub struct ModeBits(pub u16);

bitflag_items! {
    impl ModeBits: u16 {
        const S_ISUID = 0o4000;
        const S_ISGID = 0o2000;
        const S_ISVTX = 0o1000;
        const S_IRUSR = 0o400;
        const S_IWUSR = 0o200;
        const S_IXUSR = 0o100;
        const S_IRGRP = 0o40;
        const S_IWGRP = 0o20;
        const S_IXGRP = 0o10;
        const S_IROTH = 0o4;
        const S_IWOTH = 0o2;
        const S_IXOTH = 0o1;
    }
}

impl Flags for ModeBits {
    type Bits = u16;

    ghost exact = { ⊤ };

    ghost table = { (codes "S_ISUID", 2048) ∷ (codes "S_ISGID", 1024) ∷ (codes "S_ISVTX", 512)
        ∷ (codes "S_IRUSR", 256) ∷ (codes "S_IWUSR", 128) ∷ (codes "S_IXUSR", 64)
        ∷ (codes "S_IRGRP", 32) ∷ (codes "S_IWGRP", 16) ∷ (codes "S_IXGRP", 8)
        ∷ (codes "S_IROTH", 4) ∷ (codes "S_IWOTH", 2) ∷ (codes "S_IXOTH", 1) ∷ [] };

    ghost set_of = { λ m. m.0 };

    fn flags<'a>() -> &'a [Flag<ModeBits>] {
        ModeBits::FLAGS
    }

    fn bits(&self) -> u16 {
        self.0
    }

    fn from_bits_retain(bits: u16) -> ModeBits {
        ModeBits(bits)
    }
}

/// The mode of a file: permission, set-id and sticky bits, at most 07777.
#[derive(Clone, Copy, PartialEq, Eq, Debug)]
pub struct Mode {
    set: ModeBits,
}

impl Model for Mode {
    ghost use Rattle.std.specs.Prelude.{ℕ, ◌<◌};

    ghost Value = { ℕ };

    ghost view = { λ m. m.set.0 };

    ghost invariant = { λ m. m.set.0 < 4096 };

    ghost inverse = { λ n. record { set = record { 0 = n } } };
}

impl Mode {
    /// The mode of these bits, where no bit above 07777 is set.
    pub fn new(bits: u16) -> Option<Mode>
        ensures { SomeIff result (bits < 4096) bits }
    {
        if bits < 0o10000 {
            Some(Mode {
                set: ModeBits(bits),
            })
        } else {
            None
        }
    }

    /// The bits as a number, at most 07777.
    pub fn bits(self) -> u16
        ensures value { result ≡ self }
        ensures bounded { result < 4096 }
    {
        self.set.0
    }

    /// Whether all bits of `bits` are set.
    pub fn contains(self, bits: ModeBits) -> bool
        ensures { result ≡ (bit_and self bits.0 == bits.0) }
    {
        self.set.contains(bits)
    }

    /// The mode without these bits.
    pub fn without(self, bits: ModeBits) -> Mode
        ensures value { result ≡ without 16 self bits.0 }
        ensures bounded { self < 4096 }
    {
        let mut set = self.set;
        set.remove(bits);
        Mode { set }
    }
}
