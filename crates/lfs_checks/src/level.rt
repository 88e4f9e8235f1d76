//! What is asked where the securelevel is set.

ghost use Rattle.std.specs.Prelude.{◌≡◌};
ghost use Rattle.lfs_model.specs.Rules.{judged, level_tests};

use lfs_rules::level::level_change;
use lfs_types::cred::Cred;
use lfs_types::level::Level;
use lfs_types::rule::Denial;

/// Whether a caller may set the securelevel, or the first rule that fails; it names no path, and stands at component 0.
pub fn may_set_level(cred: &Cred, old: Level, new: Level) -> Result<(), Denial>
    ensures { result ≡ judged (level_tests cred.now old new) }
{
    match level_change(cred, old, new) {
        None => Ok(()),
        Some(rule) => Err(Denial {
            rule,
            path: 0,
            at: 0,
        }),
    }
}
