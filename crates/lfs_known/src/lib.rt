//! What a tree knows of its store, so that it need not read it again: names of directories (4.4BSD's namei cache),
//! attributes (its in-core inodes), and where directories have room (`i_diroff` of these).
#![tactic(auto)]

mod attributes;
mod hint_changes;
mod hints;
mod name_changes;
mod name_entries;
mod name_sizes;
mod name_table;
mod names;
mod pair;
mod slots;
mod spot;

pub use attributes::{AttrCache, follow_attributes};
pub use hint_changes::follow_hints;
pub use hints::{DirHints, Hint};
pub use name_changes::follow_names;
pub use name_entries::follow_name;
pub use name_table::NameTable;
pub use names::NameCache;
pub use pair::KEPT_BYTES;
pub use slots::Slots;
