//! One rule asked.

ghost use Rattle.std.specs.Prelude.{◌≡◌, [], ◌∷◌};
ghost use Rattle.lfs_model.specs.Rules.{asks, judged};

use crate::site::Site;
use lfs_types::rule::{Denial, Rule};

/// Asks a rule at a component of a path: Ok where it is met, else its denial.
pub fn ask(met: bool, rule: Rule, site: Site) -> Result<(), Denial>
    ensures { result ≡ judged (asks met rule site.path site.at ∷ []) }
{
    if met { Ok(()) } else { Err(site.denial(rule)) }
}
