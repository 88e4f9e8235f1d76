//! The securelevel.

ghost use Rattle.std.specs.Prelude.{◌≡◌};
ghost use Rattle.lfs_types.specs.Levels.{level_of};

/// A securelevel of 4.4BSD (init(8)), from the least secure up.
#[derive(Clone, Copy, PartialEq, Eq, PartialOrd, Ord, Debug)]
pub enum Level {
    /// -1: permanently insecure. It behaves as level 0.
    PermanentlyInsecure,
    /// 0: insecure.
    Insecure,
    /// 1: secure.
    Secure,
    /// 2: highly secure. It behaves as level 1.
    HighlySecure,
}

impl Level {
    /// The level of this number, from -1 to 2.
    pub fn new(number: i8) -> Option<Level>
        ensures { result ≡ level_of number }
    {
        match number {
            -1 => Some(Level::PermanentlyInsecure),
            0 => Some(Level::Insecure),
            1 => Some(Level::Secure),
            2 => Some(Level::HighlySecure),
            _ => None,
        }
    }
}
