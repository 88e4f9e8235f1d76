//! The questions of attributes and numbers alone, in the order of each call's rules.

ghost use Rattle.std.specs.Prelude.{◌≡◌, ◌<◌, ◌∷◌, [], false};
ghost use Rattle.lfs_types.specs.Caller.{Caller};
ghost use Rattle.lfs_types.specs.declared.path.TheConstants.{PATH_MAX};
ghost use Rattle.lfs_model.specs.Rules.{asks, change_tests, chmod_tests, chown_tests, entering_tests, is_end, leaves_test, list_tests, making_tests, read_tests, removing_tests, replaced_tests, rmdir_tests, searching_tests, unlink_tests};
ghost use Rattle.lfs_explain.specs.Tables.{fits_test, length_test, step_tests};
ghost use Rattle.lfs_who.specs.Conditions.{all_posed, holds, posed};

use crate::condition::{Condition, Question};
use lfs_checks::bytes::start_in;
use lfs_checks::site::Site;
use lfs_rules::flags::{append_only, immutable};
use lfs_types::attrs::{Attrs, Bit};
use lfs_types::limits::FILE_BYTES;
use lfs_types::request::Place;
use lfs_types::rule::Rule;

/// A rule asked at a component of a path.
pub(crate) fn ask(condition: Condition, rule: Rule, site: Site) -> Question
    ensures { (c : Caller) → posed c result ≡ asks (holds c condition) rule site.path site.at }
{
    let denial = site.denial(rule);
    Question { condition, denial }
}

/// A rule that is met or not, whoever calls.
pub(crate) fn fixed(met: bool, rule: Rule, site: Site) -> Question
    ensures { (c : Caller) → posed c result ≡ asks met rule site.path site.at }
{
    ask(Condition::Fixed(met), rule, site)
}

/// Whether a file grants a right, by the rule that asks for it.
fn granted(file: &Attrs, bit: Bit, rule: Rule, site: Site) -> Question
    ensures { (c : Caller) → posed c result
        ≡ asks (holds c (Condition.Grants file.now bit)) rule site.path site.at }
{
    ask(Condition::Grants(*file, bit), rule, site)
}

/// A rule of a path's first component.
pub(crate) fn root(met: bool, rule: Rule, path: u8) -> [Question; 1]
    ensures { (c : Caller) → all_posed c result ≡ asks met rule path 0 ∷ [] }
{
    [fixed(met, rule, Site { path, at: 0 })]
}

/// Those of a step from a directory, which stands at component `at`, to a name that may be there.
pub(crate) fn step(dir: &Attrs, site: Site, there: bool) -> [Question; 3]
    requires { site.at < PATH_MAX }
    ensures { (c : Caller) → all_posed c result ≡ step_tests c site.path site.at dir.now there }
{
    let next = Site {
        at: site.at + 1,
        ..site
    };
    [
        fixed(dir.kind.is_directory(), Rule::IsDirectory, site),
        granted(dir, Bit::Search, Rule::GrantsSearch, site),
        fixed(there, Rule::NameThere, next),
    ]
}

/// Those of a directory in which a name is looked for.
pub(crate) fn search(dir: &Attrs, site: Site) -> [Question; 2]
    ensures { (c : Caller) → all_posed c result ≡ searching_tests c site.path dir.now site.at }
{
    [
        fixed(dir.kind.is_directory(), Rule::IsDirectory, site),
        granted(dir, Bit::Search, Rule::GrantsSearch, site),
    ]
}

/// Those of reading a file.
pub(crate) fn read(file: &Attrs, at: u32) -> [Question; 2]
    ensures { (c : Caller) → all_posed c result ≡ read_tests c file.now at }
{
    let site = Site { path: 0, at };
    [
        fixed(!file.kind.is_directory(), Rule::IsNoDirectory, site),
        granted(file, Bit::Read, Rule::GrantsRead, site),
    ]
}

/// Those of listing a directory.
pub(crate) fn list(dir: &Attrs, at: u32) -> [Question; 2]
    ensures { (c : Caller) → all_posed c result ≡ list_tests c dir.now at }
{
    let site = Site { path: 0, at };
    [
        fixed(dir.kind.is_directory(), Rule::IsDirectory, site),
        granted(dir, Bit::Read, Rule::GrantsRead, site),
    ]
}

/// Those of changing a file's bytes or its length, up to the length; some changes only add bytes at the end.
pub(crate) fn change(file: &Attrs, appends: bool, at: u32) -> [Question; 4]
    ensures { (c : Caller) → all_posed c result ≡ change_tests c appends file.now at }
{
    let site = Site { path: 0, at };
    [
        fixed(!file.kind.is_directory(), Rule::IsNoDirectory, site),
        fixed(!immutable(file), Rule::IsMutable, site),
        granted(file, Bit::Write, Rule::GrantsWrite, site),
        fixed(appends || !append_only(file), Rule::IsNotAppendOnly, site),
    ]
}

/// That of so many bytes in a file from a place on.
pub(crate) fn fits(file: &Attrs, place: Place, count: usize, at: u32) -> [Question; 1]
    ensures { (c : Caller) → all_posed c result ≡ fits_test place count file.now at }
{
    let start = start_in(place, file.size);
    let fits = start <= FILE_BYTES && count as u64 <= FILE_BYTES - start;
    [fixed(fits, Rule::FitsFile, Site { path: 0, at })]
}

/// That of a file of this length.
pub(crate) fn fits_length(len: u64, at: u32) -> [Question; 1]
    ensures { (c : Caller) → all_posed c result ≡ length_test len at }
{
    let fits = len <= FILE_BYTES;
    [fixed(fits, Rule::FitsFile, Site { path: 0, at })]
}

/// Whether bytes go to the end of a file.
pub(crate) fn is_end(place: Place) -> bool
    ensures { result ≡ is_end place }
{
    match place {
        Place::At(_) => false,
        Place::End => true,
    }
}

/// Those of setting a file's mode.
pub(crate) fn chmod(file: &Attrs, at: u32) -> [Question; 3]
    ensures { (c : Caller) → all_posed c result ≡ chmod_tests c file.now at }
{
    let site = Site { path: 0, at };
    [
        fixed(!immutable(file), Rule::IsMutable, site),
        fixed(!append_only(file), Rule::IsNotAppendOnly, site),
        ask(Condition::IsOwner(*file), Rule::IsOwner, site),
    ]
}

/// Those of giving a file this owner and this group.
pub(crate) fn chown(file: &Attrs, uid: u32, gid: u32, at: u32) -> [Question; 3]
    ensures { (c : Caller) → all_posed c result ≡ chown_tests c uid gid file.now at }
{
    let site = Site { path: 0, at };
    let may_set = Condition::MaySetOwner(*file, uid, gid);
    [
        fixed(!immutable(file), Rule::IsMutable, site),
        fixed(!append_only(file), Rule::IsNotAppendOnly, site),
        ask(may_set, Rule::MaySetOwner, site),
    ]
}

/// Those of a directory that gets a name, which is free.
pub(crate) fn enter(dir: &Attrs, site: Site) -> [Question; 2]
    ensures { (c : Caller) → all_posed c result ≡ entering_tests c site.path dir.now site.at }
{
    [
        fixed(!immutable(dir), Rule::IsMutable, site),
        granted(dir, Bit::Write, Rule::GrantsWrite, site),
    ]
}

/// Those of a directory that gets a new row, under a name that may be free.
pub(crate) fn make(dir: &Attrs, free: bool, at: u32) -> [Question; 5]
    requires { at < PATH_MAX }
    ensures { (c : Caller) → all_posed c result ≡ making_tests c free dir.now at }
{
    let site = Site { path: 0, at };
    let next = Site {
        path: 0,
        at: at + 1,
    };
    [
        fixed(dir.kind.is_directory(), Rule::IsDirectory, site),
        granted(dir, Bit::Search, Rule::GrantsSearch, site),
        fixed(free, Rule::NameFree, next),
        fixed(!immutable(dir), Rule::IsMutable, site),
        granted(dir, Bit::Write, Rule::GrantsWrite, site),
    ]
}

/// Those of a directory that loses a name, and of the file or directory that has it, at the next component.
pub(crate) fn remove(dir: &Attrs, file: &Attrs, site: Site) -> [Question; 6]
    requires { site.at < PATH_MAX }
    ensures { (c : Caller) → all_posed c result
        ≡ removing_tests c site.path dir.now file.now site.at }
{
    let next = Site {
        at: site.at + 1,
        ..site
    };
    let passes = Condition::PassesSticky(*dir, *file);
    [
        fixed(!immutable(dir), Rule::IsMutable, site),
        granted(dir, Bit::Write, Rule::GrantsWrite, site),
        fixed(!append_only(dir), Rule::IsNotAppendOnly, site),
        ask(passes, Rule::PassesSticky, next),
        fixed(!immutable(file), Rule::IsMutable, next),
        fixed(!append_only(file), Rule::IsNotAppendOnly, next),
    ]
}

/// That of what an Unlink removes.
pub(crate) fn unlink(file: &Attrs, at: u32) -> [Question; 1]
    ensures { (c : Caller) → all_posed c result ≡ unlink_tests file.now at }
{
    let site = Site { path: 0, at };
    [fixed(!file.kind.is_directory(), Rule::IsNoDirectory, site)]
}

/// Those of what a Rmdir removes, which may be empty.
pub(crate) fn rmdir(dir: &Attrs, empty: bool, at: u32) -> [Question; 2]
    ensures { (c : Caller) → all_posed c result ≡ rmdir_tests empty dir.now at }
{
    let site = Site { path: 0, at };
    [
        fixed(dir.kind.is_directory(), Rule::IsDirectory, site),
        fixed(empty, Rule::IsEmpty, site),
    ]
}

/// Those of a row, which may be empty, that is to give way to a moved one.
pub(crate) fn replace(moved: &Attrs, there: &Attrs, empty: bool, at: u32) -> [Question; 3]
    ensures { (c : Caller) → all_posed c result ≡ replaced_tests empty moved.now there.now at }
{
    let site = Site { path: 1, at };
    let (of_moved, of_there) = (moved.kind.is_directory(), there.kind.is_directory());
    [
        fixed(!of_there || of_moved, Rule::IsNoDirectory, site),
        fixed(of_there || !of_moved, Rule::IsDirectory, site),
        fixed(empty, Rule::IsEmpty, site),
    ]
}

/// That of what is moved, which may stay in its directory.
pub(crate) fn leaves(file: &Attrs, stays: bool, at: u32) -> [Question; 1]
    ensures { (c : Caller) → all_posed c result ≡ leaves_test c stays file.now at ∷ [] }
{
    let site = Site { path: 0, at };
    if !file.kind.is_directory() || stays {
        [fixed(true, Rule::GrantsWrite, site)]
    } else {
        [granted(file, Bit::Write, Rule::GrantsWrite, site)]
    }
}
