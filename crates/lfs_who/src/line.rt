//! What is told of some callers.

ghost use Rattle.std.specs.Prelude.{◌≡◌, true};

use lfs_types::rule::Denial;
use std::marker::Model;

/// Callers who are in each of some groups and in none of others, and how the rules decide their call.
#[derive(Drop, Debug)]
pub struct Line {
    inside: Vec<u32>,
    outside: Vec<u32>,
    denial: Option<Denial>,
}

impl Model for Line {
    ghost use Rattle.lfs_who.specs.Lines.{Told};

    ghost Value = { Told };

    ghost view = { λ l.
        record { inside = l.inside.items; outside = l.outside.items; denial = l.denial } };
}

impl Line {
    /// The line of those who are in these groups and not in those.
    pub(crate) fn new(inside: Vec<u32>, outside: Vec<u32>, denial: Option<Denial>) -> Line
        ensures { result
            ≡ record { inside = inside.items; outside = outside.items; denial = denial } }
    {
        Line {
            inside,
            outside,
            denial,
        }
    }

    /// The groups in which the callers are.
    pub fn inside(&self) -> &[u32]
        ensures { result.now ≡ self.now.inside }
    {
        &self.inside
    }

    /// The groups in which they aren't.
    pub fn outside(&self) -> &[u32]
        ensures { result.now ≡ self.now.outside }
    {
        &self.outside
    }

    /// The denial of their call, or None where the rules allow it.
    pub fn denial(&self) -> Option<Denial>
        ensures { result ≡ self.now.denial }
    {
        self.denial
    }

    /// Whether another line tells the same.
    pub(crate) fn is_same(&self, other: &Line) -> bool
        ensures { result ≡ true → self.now ≡ other.now }
    {
        self.inside.as_slice() == other.inside.as_slice()
            && self.outside.as_slice() == other.outside.as_slice()
            && self.denial == other.denial
    }
}
