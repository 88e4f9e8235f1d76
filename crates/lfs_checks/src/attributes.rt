//! What is asked of a file or a directory whose attributes are set; the mode that a change leaves, the size that is
//! shown.

ghost use Rattle.std.specs.Prelude.{◌≡◌, true, false};
ghost use Rattle.lfs_types.specs.Kinds.{is_directory_kind};
ghost use Rattle.lfs_model.specs.Effects.{mode_after};
ghost use Rattle.lfs_model.specs.Rules.{chflags_tests, chmod_tests, chown_tests, judged};

use crate::asking::ask;
use crate::site::Site;
use lfs_rules::access::clear_set_id;
use lfs_rules::flags::{append_only, flag_change, immutable};
use lfs_rules::owner::{is_owner, owner_change};
use lfs_types::attrs::Attrs;
use lfs_types::cred::Cred;
use lfs_types::file_flags::FileFlags;
use lfs_types::level::Level;
use lfs_types::mode::Mode;
use lfs_types::rule::{Denial, Rule};

/// Whether a caller may set the mode of a file, which stands at component `at` of a call's path, or the first rule that
/// fails: it is not immutable, it is not append-only, the caller is its owner or the superuser.
pub fn may_chmod(file: &Attrs, cred: &Cred, at: u32) -> Result<(), Denial>
    ensures { result ≡ judged (chmod_tests cred.now file.now at) }
{
    let site = Site { path: 0, at };
    ask(!immutable(file), Rule::IsMutable, site)?;
    ask(!append_only(file), Rule::IsNotAppendOnly, site)?;
    ask(is_owner(file, cred), Rule::IsOwner, site)
}

/// Whether a caller may give a file, which stands at component `at` of a call's path, this owner and this group, or the
/// first rule that fails: it is not immutable, it is not append-only, the caller may set them.
pub fn may_chown(attrs: &Attrs, cred: &Cred, uid: u32, gid: u32, at: u32) -> Result<(), Denial>
    ensures { result ≡ judged (chown_tests cred.now uid gid attrs.now at) }
{
    let site = Site { path: 0, at };
    ask(!immutable(attrs), Rule::IsMutable, site)?;
    ask(!append_only(attrs), Rule::IsNotAppendOnly, site)?;
    match owner_change(attrs, cred, uid, gid) {
        None => Ok(()),
        Some(rule) => Err(Denial { rule, path: 0, at }),
    }
}

/// Whether a caller may give a file, which stands at component `at` of a call's path, these flags at this securelevel,
/// or the first rule that fails.
pub fn may_chflags(
    attrs: &Attrs,
    cred: &Cred,
    level: Level,
    flags: FileFlags,
    at: u32,
) -> Result<(), Denial>
    ensures { result ≡ judged (chflags_tests cred.now level flags attrs.now at) }
{
    match flag_change(attrs, cred, level, flags) {
        None => Ok(()),
        Some(rule) => Err(Denial { rule, path: 0, at }),
    }
}

/// The mode of a file after a caller changed the file: without the set-id bits, unless the caller is the superuser.
pub fn mode_after(cred: &Cred, mode: Mode) -> Mode
    ensures { result ≡ mode_after cred.now mode }
{
    if cred.is_superuser() {
        mode
    } else {
        clear_set_id(mode)
    }
}

/// The bytes that are shown as the size of a file; a directory's are shown as 0.
pub fn shown_size(file: &Attrs) -> u64
    ensures directory { is_directory_kind file.now.kind ≡ true → result ≡ 0 }
    ensures file { is_directory_kind file.now.kind ≡ false → result ≡ file.now.size }
{
    if file.kind.is_directory() {
        0
    } else {
        file.size
    }
}
