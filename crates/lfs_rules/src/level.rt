//! Who may set the securelevel.

ghost use Rattle.std.specs.Prelude.{◌≡◌};
ghost use Rattle.lfs_rules.specs.Securelevel.{level_denial};

use lfs_types::cred::Cred;
use lfs_types::level::Level;
use lfs_types::rule::Rule;

/// The first denial, if there is one, of setting the securelevel: `IsSuperuser` for a caller who is not user
/// 0, and `MaySetLevel` where it would be lowered by another than init (4.4BSD's init(8)).
pub fn level_change(cred: &Cred, old: Level, new: Level) -> Option<Rule>
    ensures { result ≡ level_denial cred.now old new }
{
    if !cred.is_superuser() {
        Some(Rule::IsSuperuser)
    } else if new < old && !cred.is_init() {
        Some(Rule::MaySetLevel)
    } else {
        None
    }
}
