//! What a look at a path shows.

/// What is looked at.
#[derive(Clone, Copy, PartialEq, Eq, Debug)]
pub enum Look {
    /// The names of a directory, each with what a Stat of it shows.
    Listing,
    /// The bytes of a file.
    Content,
    /// The tree below a directory, each name with what a Stat of it shows.
    Tree,
}
