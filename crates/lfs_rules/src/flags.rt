//! What the flags of a file forbid, and who may change them.

ghost use Rattle.std.specs.Prelude.{◌≡◌};
ghost use Rattle.lfs_rules.specs.Locks.{is_immutable, is_append_only, has_system_lock, clears_system_lock, changes_system_flags, flag_denial};

use crate::owner::is_owner;
use lfs_types::attrs::Attrs;
use lfs_types::cred::Cred;
use lfs_types::file_flags::{FileFlags, FlagBits};
use lfs_types::level::Level;
use lfs_types::rule::Rule;

/// The flags that only user 0 may change (4.4BSD's `SF_SETTABLE`).
const SF_SETTABLE: u32 = 0xffff_0000;

/// Whether the file may not be changed at all, by the user's or the system's flag (4.4BSD's chflags(2)).
pub fn immutable(attrs: &Attrs) -> bool
    ensures { result ≡ is_immutable attrs.now }
{
    attrs.flags.contains(FlagBits::UF_IMMUTABLE) || attrs.flags.contains(FlagBits::SF_IMMUTABLE)
}

/// Whether the file may only grow at its end, by the user's or the system's flag (4.4BSD's chflags(2)).
pub fn append_only(attrs: &Attrs) -> bool
    ensures { result ≡ is_append_only attrs.now }
{
    attrs.flags.contains(FlagBits::UF_APPEND) || attrs.flags.contains(FlagBits::SF_APPEND)
}

/// The first denial, if there is one, of giving a file these flags at this securelevel: `IsOwner`,
/// `MaySetFlags`, `KeepsSystemLocks` (4.4BSD's chflags(2) and init(8), as this project's profile reads them).
pub fn flag_change(attrs: &Attrs, cred: &Cred, level: Level, new: FileFlags) -> Option<Rule>
    ensures { result ≡ flag_denial cred.now attrs.now level new }
{
    if !is_owner(attrs, cred) {
        return Some(Rule::IsOwner);
    }
    let is_system = changes_system(attrs.flags, new) || has_lock(attrs.flags);
    if !cred.is_superuser() && is_system {
        return Some(Rule::MaySetFlags);
    }
    if level > Level::Insecure && clears_lock(attrs.flags, new) {
        return Some(Rule::KeepsSystemLocks);
    }
    None
}

/// Whether a system flag would change.
fn changes_system(old: FileFlags, new: FileFlags) -> bool
    ensures { result ≡ changes_system_flags old new }
{
    old.bits() & SF_SETTABLE != new.bits() & SF_SETTABLE
}

/// Whether the system's immutable or append-only flag is set.
#[tactic(auto, using(crate::proofs::BitTests::system_immutable_test, crate::proofs::BitTests::system_append_test))]
fn has_lock(flags: FileFlags) -> bool
    ensures { result ≡ has_system_lock flags }
{
    flags.contains(FlagBits::SF_IMMUTABLE) || flags.contains(FlagBits::SF_APPEND)
}

/// Whether the system's immutable or append-only flag would be cleared.
#[tactic(auto, using(crate::proofs::BitTests::system_immutable_test, crate::proofs::BitTests::system_append_test))]
fn clears_lock(old: FileFlags, new: FileFlags) -> bool
    ensures { result ≡ clears_system_lock old new }
{
    let clears = |bit| old.contains(bit) && !new.contains(bit);
    clears(FlagBits::SF_IMMUTABLE) || clears(FlagBits::SF_APPEND)
}
