//! Who stands beside a talk.

/// A program that tells why a sink takes no more.
#[derive(Clone, Copy, PartialEq, Eq, Debug)]
pub enum Teller {
    /// `lfs_shell`.
    Shell,
    /// One of no name.
    Nameless,
}

impl Teller {
    /// Its name.
    pub(crate) fn name(self) -> &'static str {
        match self {
            Teller::Shell => "lfs_shell",
            Teller::Nameless => "",
        }
    }
}

/// Who stands beside a talk: the sink that gets the entries of its journal, and one who watches.
#[derive(Drop)]
pub struct Witnesses<J: Drop, V: Drop> {
    /// The sink.
    pub sink: J,
    /// Whether it takes entries.
    pub is_open: bool,
    /// The program that tells why the sink takes no more.
    pub program: Teller,
    /// One who watches.
    pub watch: V,
}
