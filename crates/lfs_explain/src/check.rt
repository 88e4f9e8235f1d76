//! A check.

ghost use Rattle.std.specs.Prelude.{◌≡◌};
ghost use Rattle.lfs_model.specs.Rules.{asks};

use lfs_checks::site::Site;
use lfs_types::rule::{Denial, Rule};
use std::marker::Model;

/// A rule that is asked of what stands at a component of a path, and whether it is met.
#[derive(Clone, Copy, PartialEq, Eq, Debug)]
pub struct Check {
    met: bool,
    denial: Denial,
}

impl Model for Check {
    ghost use Rattle.lfs_model.specs.Rules.{Check as Test};

    ghost Value = { Test };

    ghost view = { λ c. record { met = c.met; denial = c.denial } };

    ghost inverse = { λ v. record { met = v.met; denial = v.denial } };
}

impl Check {
    /// A rule asked at a component of a path.
    pub fn new(met: bool, rule: Rule, site: Site) -> Check
        ensures { result ≡ asks met rule site.path site.at }
    {
        let denial = site.denial(rule);
        Check { met, denial }
    }

    /// Whether the rule is met.
    pub fn is_met(&self) -> bool
        ensures { result ≡ self.now.met }
    {
        self.met
    }

    /// The denial that it comes to where it isn't met: the rule, the path's index and the component.
    pub fn denial(&self) -> Denial
        ensures { result ≡ self.now.denial }
    {
        self.denial
    }
}
