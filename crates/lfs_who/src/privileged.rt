//! The questions of setting flags and the securelevel.

ghost use Rattle.std.specs.Prelude.{◌≡◌, false};
ghost use Rattle.lfs_types.specs.Caller.{Caller};
ghost use Rattle.lfs_rules.specs.Locks.{keeps_system_locks};
ghost use Rattle.lfs_rules.specs.Securelevel.{may_set_level};
ghost use Rattle.lfs_model.specs.Rules.{chflags_tests, level_tests};
ghost use Rattle.lfs_who.specs.Conditions.{all_posed, alone};

use crate::condition::{Condition, Question, alone};
use crate::posing::{ask, fixed};
use lfs_checks::site::Site;
use lfs_rules::flags::flag_change;
use lfs_rules::level::level_change;
use lfs_types::attrs::Attrs;
use lfs_types::file_flags::FileFlags;
use lfs_types::level::Level;
use lfs_types::rule::Rule;

/// Those of giving a file these flags at this securelevel.
pub(crate) fn chflags(file: &Attrs, level: Level, flags: FileFlags, at: u32) -> [Question; 3]
    ensures { (c : Caller) → all_posed c result ≡ chflags_tests c level flags file.now at }
{
    let site = Site { path: 0, at };
    let may_set = Condition::MaySetFlags(*file, flags);
    [
        ask(Condition::IsOwner(*file), Rule::IsOwner, site),
        ask(may_set, Rule::MaySetFlags, site),
        fixed(
            keeps_locks(file, level, flags),
            Rule::KeepsSystemLocks,
            site,
        ),
    ]
}

/// Whether these flags keep the system's locks, which is all that is asked of the superuser.
fn keeps_locks(file: &Attrs, level: Level, flags: FileFlags) -> bool
    ensures { result ≡ keeps_system_locks level file.now.flags flags }
{
    flag_change(file, &alone(0, 0), level, flags).is_none()
}

/// Those of setting the securelevel, of callers who aren't init.
pub(crate) fn set_level(old: Level, new: Level) -> [Question; 2]
    ensures { (c : Caller) → c.init ≡ false → all_posed c result ≡ level_tests c old new }
{
    let site = Site { path: 0, at: 0 };
    [
        ask(Condition::IsSuperuser, Rule::IsSuperuser, site),
        fixed(may_set_level(old, new), Rule::MaySetLevel, site),
    ]
}

/// Whether the superuser may set the level so, where he isn't init.
fn may_set_level(old: Level, new: Level) -> bool
    ensures { result ≡ may_set_level (alone 0 0) old new }
{
    level_change(&alone(0, 0), old, new).is_none()
}
