//! What a store tells of its base.

ghost use Rattle.std.specs.Prelude.{◌≡◌, true, false, not};

/// What a store tells of its base, for whoever counts what a crash would leave. Its type keeps that it is true: see
/// `IsKept`.
#[derive(Clone, Copy, PartialEq, Eq, Debug)]
pub struct Mark {
    /// The base is sure to contain all that the store contains.
    pub is_whole: bool,
    /// It is another where changes had what waited before them be written first.
    pub turn: bool,
}

impl Mark {
    /// That of a store that is its own base, at the first turn.
    pub(crate) fn first() -> Mark
        ensures { result ≡ record { is_whole = true; turn = false } }
    {
        Mark {
            is_whole: true,
            turn: false,
        }
    }

    /// The same at the other turn, behind what was written before changes.
    pub(crate) fn turned(self) -> Mark
        ensures { result ≡ record { is_whole = true; turn = not self.turn } }
    {
        Mark {
            is_whole: true,
            turn: !self.turn,
        }
    }

    /// The same behind what was written, the store being its own base.
    pub(crate) fn whole(self) -> Mark
        ensures { result ≡ record { is_whole = true; turn = self.turn } }
    {
        Mark {
            is_whole: true,
            turn: self.turn,
        }
    }
}
