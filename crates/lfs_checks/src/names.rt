//! What is asked of a directory whose names are looked for, listed, put or taken away, and of what hangs in it.

ghost use Rattle.std.specs.Prelude.{◌≡◌, ◌<◌, [], ◌∷◌};
ghost use Rattle.lfs_types.specs.declared.path.TheConstants.{PATH_MAX};
ghost use Rattle.lfs_model.specs.Rules.{entering_tests, judged, leaves_test, list_tests, removing_tests, searching_tests, unlink_tests};
ghost use Rattle.lfs_checks.specs.Parts.{kind_tests, losing_tests, lost_tests};

use crate::asking::ask;
use crate::site::Site;
use lfs_rules::access::{grants, sticky_bars};
use lfs_rules::flags::{append_only, immutable};
use lfs_types::attrs::{Attrs, Bit};
use lfs_types::cred::Cred;
use lfs_types::rule::{Denial, Rule};

/// Whether a caller may look for a name in what stands at a component of a path, or the first rule that fails: it is a
/// directory, it grants search.
pub fn may_search(dir: &Attrs, cred: &Cred, site: Site) -> Result<(), Denial>
    ensures { result ≡ judged (searching_tests cred.now site.path dir.now site.at) }
{
    ask(dir.kind.is_directory(), Rule::IsDirectory, site)?;
    ask(grants(dir, cred, Bit::Search), Rule::GrantsSearch, site)
}

/// Whether a caller may put a name that is free into a directory, which stands at a component of a path, or the first
/// rule that fails: it is not immutable, it grants write.
pub fn may_enter(dir: &Attrs, cred: &Cred, site: Site) -> Result<(), Denial>
    ensures { result ≡ judged (entering_tests cred.now site.path dir.now site.at) }
{
    ask(!immutable(dir), Rule::IsMutable, site)?;
    ask(grants(dir, cred, Bit::Write), Rule::GrantsWrite, site)
}

/// Whether a caller may list what stands at component `at` of a call's path, or the first rule that fails: it is a
/// directory, it grants read.
pub fn may_list(dir: &Attrs, cred: &Cred, at: u32) -> Result<(), Denial>
    ensures { result ≡ judged (list_tests cred.now dir.now at) }
{
    let site = Site { path: 0, at };
    ask(dir.kind.is_directory(), Rule::IsDirectory, site)?;
    ask(grants(dir, cred, Bit::Read), Rule::GrantsRead, site)
}

/// Whether a caller may take away the name of a file in a directory, which stands at a component of a path, or the first
/// rule that fails: those of the directory, then those of the file, at the next component.
pub fn may_remove(dir: &Attrs, file: &Attrs, cred: &Cred, site: Site) -> Result<(), Denial>
    requires { site.at < PATH_MAX }
    ensures { result ≡ judged (removing_tests cred.now site.path dir.now file.now site.at) }
{
    may_lose(dir, cred, site)?;
    may_be_lost(
        dir,
        file,
        cred,
        Site {
            at: site.at + 1,
            ..site
        },
    )
}

/// Whether a directory, which stands at a component of a path, may lose a name by a caller, or the first rule that fails.
fn may_lose(dir: &Attrs, cred: &Cred, site: Site) -> Result<(), Denial>
    ensures { result ≡ judged (losing_tests cred.now site.path dir.now site.at) }
{
    may_enter(dir, cred, site)?;
    ask(!append_only(dir), Rule::IsNotAppendOnly, site)
}

/// Whether a file in a directory, which stands at a component of a path, may lose its name by a caller, or the first rule
/// that fails.
fn may_be_lost(dir: &Attrs, file: &Attrs, cred: &Cred, site: Site) -> Result<(), Denial>
    ensures { result ≡ judged (lost_tests cred.now site.path dir.now file.now site.at) }
{
    ask(!sticky_bars(dir, file, cred), Rule::PassesSticky, site)?;
    ask(!immutable(file), Rule::IsMutable, site)?;
    ask(!append_only(file), Rule::IsNotAppendOnly, site)
}

/// Whether a file whose name may be taken away, at component `at` of a call's path, may be unlinked: it is no directory,
/// or else that rule.
pub fn may_unlink(file: &Attrs, at: u32) -> Result<(), Denial>
    ensures { result ≡ judged (unlink_tests file.now at) }
{
    let site = Site { path: 0, at };
    ask(!file.kind.is_directory(), Rule::IsNoDirectory, site)
}

/// Whether a caller may give a file or a directory, at component `at` of a call's first path, its place, where it may
/// stay in its directory: a directory that leaves its own grants write, or else that rule.
pub fn may_move(file: &Attrs, cred: &Cred, stays: bool, at: u32) -> Result<(), Denial>
    ensures { result ≡ judged (leaves_test cred.now stays file.now at ∷ []) }
{
    let leaves = !file.kind.is_directory() || stays || grants(file, cred, Bit::Write);
    ask(leaves, Rule::GrantsWrite, Site { path: 0, at })
}

/// Whether a moved file or directory may take the place of another, which stands at component `at` of a call's second
/// path, or the first rule that fails: a file takes that of a file, a directory that of a directory.
pub fn may_replace(moved: &Attrs, there: &Attrs, at: u32) -> Result<(), Denial>
    ensures { result ≡ judged (kind_tests moved.now there.now at) }
{
    let site = Site { path: 1, at };
    let (moved, there) = (moved.kind.is_directory(), there.kind.is_directory());
    ask(!there || moved, Rule::IsNoDirectory, site)?;
    ask(there || !moved, Rule::IsDirectory, site)
}
