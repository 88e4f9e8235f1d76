//! The checks of attributes, a caller and numbers alone, in the order of each call's rules.

ghost use Rattle.std.specs.Prelude.{◌≡◌, ◌<◌};
ghost use Rattle.lfs_types.specs.declared.path.TheConstants.{PATH_MAX};
ghost use Rattle.lfs_model.specs.Rules.{change_tests, chmod_tests, chown_tests, entering_tests, is_end, list_tests, making_tests, read_tests, removing_tests, replaced_tests, rmdir_tests, searching_tests, unlink_tests};
ghost use Rattle.lfs_explain.specs.Tables.{fits_test, length_test, step_tests};

use crate::check::Check;
use lfs_checks::bytes::start_in;
use lfs_checks::site::Site;
use lfs_rules::access::{grants, sticky_bars};
use lfs_rules::flags::{append_only, immutable};
use lfs_rules::owner::{is_owner, owner_change};
use lfs_types::attrs::{Attrs, Bit};
use lfs_types::cred::Cred;
use lfs_types::limits::FILE_BYTES;
use lfs_types::request::Place;
use lfs_types::rule::Rule;

/// Those of a step from a directory, which stands at component `at`, to a name that may be there.
pub(crate) fn step(dir: &Attrs, cred: &Cred, site: Site, there: bool) -> [Check; 3]
    requires { site.at < PATH_MAX }
    ensures { result ≡ step_tests cred.now site.path site.at dir.now there }
{
    let next = Site {
        at: site.at + 1,
        ..site
    };
    [
        Check::new(dir.kind.is_directory(), Rule::IsDirectory, site),
        Check::new(grants(dir, cred, Bit::Search), Rule::GrantsSearch, site),
        Check::new(there, Rule::NameThere, next),
    ]
}

/// Those of reading a file.
pub(crate) fn read(file: &Attrs, cred: &Cred, at: u32) -> [Check; 2]
    ensures { result ≡ read_tests cred.now file.now at }
{
    let site = Site { path: 0, at };
    [
        Check::new(!file.kind.is_directory(), Rule::IsNoDirectory, site),
        Check::new(grants(file, cred, Bit::Read), Rule::GrantsRead, site),
    ]
}

/// Those of listing a directory.
pub(crate) fn list(dir: &Attrs, cred: &Cred, at: u32) -> [Check; 2]
    ensures { result ≡ list_tests cred.now dir.now at }
{
    let site = Site { path: 0, at };
    [
        Check::new(dir.kind.is_directory(), Rule::IsDirectory, site),
        Check::new(grants(dir, cred, Bit::Read), Rule::GrantsRead, site),
    ]
}

/// Those of changing a file's bytes or its length, up to the length; some changes only add bytes at the end.
pub(crate) fn change(file: &Attrs, cred: &Cred, appends: bool, at: u32) -> [Check; 4]
    ensures { result ≡ change_tests cred.now appends file.now at }
{
    let site = Site { path: 0, at };
    [
        Check::new(!file.kind.is_directory(), Rule::IsNoDirectory, site),
        Check::new(!immutable(file), Rule::IsMutable, site),
        Check::new(grants(file, cred, Bit::Write), Rule::GrantsWrite, site),
        Check::new(appends || !append_only(file), Rule::IsNotAppendOnly, site),
    ]
}

/// That of so many bytes in a file from a place on.
pub(crate) fn fits(file: &Attrs, place: Place, count: usize, at: u32) -> [Check; 1]
    ensures { result ≡ fits_test place count file.now at }
{
    let site = Site { path: 0, at };
    let start = start_in(place, file.size);
    let fits = start <= FILE_BYTES && count as u64 <= FILE_BYTES - start;
    [Check::new(fits, Rule::FitsFile, site)]
}

/// That of a file of this length.
pub(crate) fn fits_length(len: u64, at: u32) -> [Check; 1]
    ensures { result ≡ length_test len at }
{
    let site = Site { path: 0, at };
    [Check::new(len <= FILE_BYTES, Rule::FitsFile, site)]
}

/// Whether bytes go to the end of a file.
pub(crate) fn is_end(place: Place) -> bool
    ensures { result ≡ is_end place }
{
    match place {
        Place::At(_) => false,
        Place::End => true,
    }
}

/// Those of setting a file's mode.
pub(crate) fn chmod(file: &Attrs, cred: &Cred, at: u32) -> [Check; 3]
    ensures { result ≡ chmod_tests cred.now file.now at }
{
    let site = Site { path: 0, at };
    [
        Check::new(!immutable(file), Rule::IsMutable, site),
        Check::new(!append_only(file), Rule::IsNotAppendOnly, site),
        Check::new(is_owner(file, cred), Rule::IsOwner, site),
    ]
}

/// Those of giving a file this owner and this group.
pub(crate) fn chown(file: &Attrs, cred: &Cred, uid: u32, gid: u32, at: u32) -> [Check; 3]
    ensures { result ≡ chown_tests cred.now uid gid file.now at }
{
    let site = Site { path: 0, at };
    let may_set = owner_change(file, cred, uid, gid).is_none();
    [
        Check::new(!immutable(file), Rule::IsMutable, site),
        Check::new(!append_only(file), Rule::IsNotAppendOnly, site),
        Check::new(may_set, Rule::MaySetOwner, site),
    ]
}

/// Those of a directory in which a name is looked for.
pub(crate) fn search(dir: &Attrs, cred: &Cred, site: Site) -> [Check; 2]
    ensures { result ≡ searching_tests cred.now site.path dir.now site.at }
{
    [
        Check::new(dir.kind.is_directory(), Rule::IsDirectory, site),
        Check::new(grants(dir, cred, Bit::Search), Rule::GrantsSearch, site),
    ]
}

/// Those of a directory that gets a name, which is free.
pub(crate) fn enter(dir: &Attrs, cred: &Cred, site: Site) -> [Check; 2]
    ensures { result ≡ entering_tests cred.now site.path dir.now site.at }
{
    [
        Check::new(!immutable(dir), Rule::IsMutable, site),
        Check::new(grants(dir, cred, Bit::Write), Rule::GrantsWrite, site),
    ]
}

/// Those of a directory that gets a new row, under a name that may be free.
pub(crate) fn make(dir: &Attrs, cred: &Cred, free: bool, at: u32) -> [Check; 5]
    requires { at < PATH_MAX }
    ensures { result ≡ making_tests cred.now free dir.now at }
{
    let site = Site { path: 0, at };
    [
        Check::new(dir.kind.is_directory(), Rule::IsDirectory, site),
        Check::new(grants(dir, cred, Bit::Search), Rule::GrantsSearch, site),
        Check::new(
            free,
            Rule::NameFree,
            Site {
                path: 0,
                at: at + 1,
            },
        ),
        Check::new(!immutable(dir), Rule::IsMutable, site),
        Check::new(grants(dir, cred, Bit::Write), Rule::GrantsWrite, site),
    ]
}

/// Those of a directory that loses a name, and of the file or directory that has it, at the next component.
pub(crate) fn remove(dir: &Attrs, file: &Attrs, cred: &Cred, site: Site) -> [Check; 6]
    requires { site.at < PATH_MAX }
    ensures { result ≡ removing_tests cred.now site.path dir.now file.now site.at }
{
    let next = Site {
        at: site.at + 1,
        ..site
    };
    [
        Check::new(!immutable(dir), Rule::IsMutable, site),
        Check::new(grants(dir, cred, Bit::Write), Rule::GrantsWrite, site),
        Check::new(!append_only(dir), Rule::IsNotAppendOnly, site),
        Check::new(!sticky_bars(dir, file, cred), Rule::PassesSticky, next),
        Check::new(!immutable(file), Rule::IsMutable, next),
        Check::new(!append_only(file), Rule::IsNotAppendOnly, next),
    ]
}

/// That of what an Unlink removes.
pub(crate) fn unlink(file: &Attrs, at: u32) -> [Check; 1]
    ensures { result ≡ unlink_tests file.now at }
{
    let site = Site { path: 0, at };
    [Check::new(!file.kind.is_directory(), Rule::IsNoDirectory, site)]
}

/// Those of what a Rmdir removes, which may be empty.
pub(crate) fn rmdir(dir: &Attrs, empty: bool, at: u32) -> [Check; 2]
    ensures { result ≡ rmdir_tests empty dir.now at }
{
    let site = Site { path: 0, at };
    [
        Check::new(dir.kind.is_directory(), Rule::IsDirectory, site),
        Check::new(empty, Rule::IsEmpty, site),
    ]
}

/// Those of a row, which may be empty, that is to give way to a moved one.
pub(crate) fn replace(moved: &Attrs, there: &Attrs, empty: bool, at: u32) -> [Check; 3]
    ensures { result ≡ replaced_tests empty moved.now there.now at }
{
    let site = Site { path: 1, at };
    let (of_moved, of_there) = (moved.kind.is_directory(), there.kind.is_directory());
    [
        Check::new(!of_there || of_moved, Rule::IsNoDirectory, site),
        Check::new(of_there || !of_moved, Rule::IsDirectory, site),
        Check::new(empty, Rule::IsEmpty, site),
    ]
}
