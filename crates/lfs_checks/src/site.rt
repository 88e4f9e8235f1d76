//! Where a rule is asked.

ghost use Rattle.std.specs.Prelude.{◌≡◌};

use lfs_types::rule::{Denial, Rule};

/// A component of a path of a call.
#[derive(Clone, Copy, PartialEq, Eq, Debug)]
pub struct Site {
    /// The path's index: 0 for a call's first, 1 for its second.
    pub path: u8,
    /// The component, from 0 at the root.
    pub at: u32,
}

impl Site {
    /// The denial of a rule that isn't met here.
    pub fn denial(self, rule: Rule) -> Denial
        ensures { result ≡ record { rule = rule; path = self.path; at = self.at } }
    {
        Denial {
            rule,
            path: self.path,
            at: self.at,
        }
    }
}
