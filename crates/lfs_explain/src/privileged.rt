//! The checks of setting flags and the securelevel.

ghost use Rattle.std.specs.Prelude.{◌≡◌, ◌∷◌, []};
ghost use Rattle.lfs_types.specs.declared.rule.Rule.TheVariants.{IsOwner, IsSuperuser, KeepsSystemLocks, MaySetFlags, MaySetLevel};
ghost use Rattle.lfs_model.specs.Rules.{asks, chflags_tests, level_tests};
ghost use Rattle.lfs_explain.specs.Asked.{asked};

use crate::check::Check;
use lfs_checks::site::Site;
use lfs_rules::flags::flag_change;
use lfs_rules::level::level_change;
use lfs_types::attrs::Attrs;
use lfs_types::cred::Cred;
use lfs_types::file_flags::FileFlags;
use lfs_types::level::Level;
use lfs_types::rule::Rule;

/// Those of giving a file these flags at this securelevel. What stands behind the first that isn't met says nothing.
pub(crate) fn chflags(
    file: &Attrs,
    cred: &Cred,
    level: Level,
    flags: FileFlags,
    at: u32,
) -> [Check; 3]
    ensures { asked result ≡ asked (chflags_tests cred.now level flags file.now at) }
{
    let Some(unmet) = flag_change(file, cred, level, flags) else {
        return flag_checks(true, true, true, at);
    };
    match unmet {
        Rule::IsOwner => flag_checks(false, true, true, at),
        Rule::MaySetFlags => flag_checks(true, false, true, at),
        _ => flag_checks(true, true, false, at),
    }
}

/// Whether a caller is the owner or the superuser, may change the flags, and keeps the system's locks.
fn flag_checks(owner: bool, flags: bool, locks: bool, at: u32) -> [Check; 3]
    ensures { result ≡ asks owner IsOwner 0 at ∷ asks flags MaySetFlags 0 at
        ∷ asks locks KeepsSystemLocks 0 at ∷ [] }
{
    let site = Site { path: 0, at };
    [
        Check::new(owner, Rule::IsOwner, site),
        Check::new(flags, Rule::MaySetFlags, site),
        Check::new(locks, Rule::KeepsSystemLocks, site),
    ]
}

/// Those of setting the securelevel. What stands behind the first that isn't met says nothing.
pub(crate) fn set_level(cred: &Cred, old: Level, new: Level) -> [Check; 2]
    ensures { asked result ≡ asked (level_tests cred.now old new) }
{
    match level_change(cred, old, new) {
        None => level_checks(true, true),
        Some(Rule::IsSuperuser) => level_checks(false, true),
        Some(_) => level_checks(true, false),
    }
}

/// Whether a caller is the superuser, and may set the level so.
fn level_checks(superuser: bool, may_set: bool) -> [Check; 2]
    ensures { result ≡ asks superuser IsSuperuser 0 0 ∷ asks may_set MaySetLevel 0 0 ∷ [] }
{
    let site = Site { path: 0, at: 0 };
    [
        Check::new(superuser, Rule::IsSuperuser, site),
        Check::new(may_set, Rule::MaySetLevel, site),
    ]
}
