//! The rules that a call must pass, and the denial by the first that fails.

ghost use Rattle.std.specs.Prelude.{◌≡◌, Some, slice_get};
ghost use Rattle.lfs_types.specs.RuleCodes.{rule_code, rule_error, rules, error_name};

use std::fmt;

/// An error number of 4.4BSD (intro(2)) with which a rule refuses.
#[derive(Clone, Copy, PartialEq, Eq, Debug)]
pub enum Errno {
    /// Operation not permitted.
    EPERM,
    /// No such file or directory.
    ENOENT,
    /// Permission denied.
    EACCES,
    /// Device busy.
    EBUSY,
    /// File exists.
    EEXIST,
    /// Not a directory.
    ENOTDIR,
    /// Is a directory.
    EISDIR,
    /// Invalid argument.
    EINVAL,
    /// File too large.
    EFBIG,
    /// Directory not empty.
    ENOTEMPTY,
}

impl Errno {
    /// The name, as `EPERM`.
    pub fn name(self) -> &'static str
        ensures { result.now ≡ error_name self }
    {
        match self {
            Errno::EPERM => "EPERM",
            Errno::ENOENT => "ENOENT",
            Errno::EACCES => "EACCES",
            Errno::EBUSY => "EBUSY",
            Errno::EEXIST => "EEXIST",
            Errno::ENOTDIR => "ENOTDIR",
            Errno::EISDIR => "EISDIR",
            Errno::EINVAL => "EINVAL",
            Errno::EFBIG => "EFBIG",
            Errno::ENOTEMPTY => "ENOTEMPTY",
        }
    }
}

impl fmt::Display for Errno {
    ghost use Rattle.std.specs.Prelude.{Some};
    ghost use Rattle.lfs_types.specs.RuleCodes.{error_name};

    ghost output = { λ error. Some (error_name error) };

    fn fmt<W: fmt::Write>(&self, f: &mut fmt::Formatter<W>) -> fmt::Result {
        f.write_str(self.name())
    }
}

/// A rule of this project's profile. Its code is what scripts and reports print.
#[derive(Clone, Copy, PartialEq, Eq, Debug)]
pub enum Rule {
    /// N1: the object is a directory.
    IsDirectory,
    /// S1: the caller is granted search.
    GrantsSearch,
    /// N2: the name is there.
    NameThere,
    /// N3: the name is not there, and the path is not `/`.
    NameFree,
    /// K1: the object is no directory.
    IsNoDirectory,
    /// K2: the directory has no child.
    IsEmpty,
    /// K3: the path is not `/`.
    IsNotRoot,
    /// K4: the moved directory is not on the way to its new place.
    IsNotBeneathItself,
    /// F1: no immutable flag is set.
    IsMutable,
    /// F2: no append-only flag is set.
    IsNotAppendOnly,
    /// M1: the caller is granted read.
    GrantsRead,
    /// M2: the caller is granted write.
    GrantsWrite,
    /// Y1: the sticky bit does not keep the caller from the name.
    PassesSticky,
    /// O1: the caller is the owner or the superuser.
    IsOwner,
    /// O2: the caller may set this owner and group.
    MaySetOwner,
    /// U1: the caller is the superuser.
    IsSuperuser,
    /// L1: the caller may change these flags.
    MaySetFlags,
    /// L2: the level lets no set system lock be cleared.
    KeepsSystemLocks,
    /// L3: only init lowers the level.
    MaySetLevel,
    /// Z1: the file stays within its limit of length.
    FitsFile,
}

/// The rules, in the order in which they are reported.
pub const RULES: [Rule; 20] = [
    Rule::IsDirectory,
    Rule::GrantsSearch,
    Rule::NameThere,
    Rule::NameFree,
    Rule::IsNoDirectory,
    Rule::IsEmpty,
    Rule::IsNotRoot,
    Rule::IsNotBeneathItself,
    Rule::IsMutable,
    Rule::IsNotAppendOnly,
    Rule::GrantsRead,
    Rule::GrantsWrite,
    Rule::PassesSticky,
    Rule::IsOwner,
    Rule::MaySetOwner,
    Rule::IsSuperuser,
    Rule::MaySetFlags,
    Rule::KeepsSystemLocks,
    Rule::MaySetLevel,
    Rule::FitsFile,
];

impl Rule {
    /// The place of the rule in `RULES`.
    pub fn place(self) -> usize
        ensures { slice_get rules result ≡ Some self }
    {
        match self {
            Rule::IsDirectory => 0,
            Rule::GrantsSearch => 1,
            Rule::NameThere => 2,
            Rule::NameFree => 3,
            Rule::IsNoDirectory => 4,
            Rule::IsEmpty => 5,
            Rule::IsNotRoot => 6,
            Rule::IsNotBeneathItself => 7,
            Rule::IsMutable => 8,
            Rule::IsNotAppendOnly => 9,
            Rule::GrantsRead => 10,
            Rule::GrantsWrite => 11,
            Rule::PassesSticky => 12,
            Rule::IsOwner => 13,
            Rule::MaySetOwner => 14,
            Rule::IsSuperuser => 15,
            Rule::MaySetFlags => 16,
            Rule::KeepsSystemLocks => 17,
            Rule::MaySetLevel => 18,
            Rule::FitsFile => 19,
        }
    }

    /// The code, as `M2`.
    pub fn code(self) -> &'static str
        ensures { result.now ≡ rule_code self }
    {
        match self {
            Rule::IsDirectory => "N1",
            Rule::GrantsSearch => "S1",
            Rule::NameThere => "N2",
            Rule::NameFree => "N3",
            Rule::IsNoDirectory => "K1",
            Rule::IsEmpty => "K2",
            Rule::IsNotRoot => "K3",
            Rule::IsNotBeneathItself => "K4",
            Rule::IsMutable => "F1",
            Rule::IsNotAppendOnly => "F2",
            Rule::GrantsRead => "M1",
            Rule::GrantsWrite => "M2",
            Rule::PassesSticky => "Y1",
            Rule::IsOwner => "O1",
            Rule::MaySetOwner => "O2",
            Rule::IsSuperuser => "U1",
            Rule::MaySetFlags => "L1",
            Rule::KeepsSystemLocks => "L2",
            Rule::MaySetLevel => "L3",
            Rule::FitsFile => "Z1",
        }
    }

    /// The error number with which the rule refuses.
    pub fn error(self) -> Errno
        ensures { result ≡ rule_error self }
    {
        match self {
            Rule::IsDirectory => Errno::ENOTDIR,
            Rule::NameThere => Errno::ENOENT,
            Rule::NameFree => Errno::EEXIST,
            Rule::IsNoDirectory => Errno::EISDIR,
            Rule::IsEmpty => Errno::ENOTEMPTY,
            Rule::IsNotRoot => Errno::EBUSY,
            Rule::IsNotBeneathItself => Errno::EINVAL,
            Rule::GrantsSearch | Rule::GrantsRead | Rule::GrantsWrite => Errno::EACCES,
            Rule::FitsFile => Errno::EFBIG,
            Rule::IsMutable
            | Rule::IsNotAppendOnly
            | Rule::PassesSticky
            | Rule::IsOwner
            | Rule::MaySetOwner
            | Rule::IsSuperuser
            | Rule::MaySetFlags
            | Rule::KeepsSystemLocks
            | Rule::MaySetLevel => Errno::EPERM,
        }
    }
}

/// Why a call is denied: the first rule that fails, and where.
#[derive(Clone, Copy, PartialEq, Eq, Debug)]
pub struct Denial {
    /// The rule.
    pub rule: Rule,
    /// The path of the call that it judges: 0, or 1 for the second path of a Rename.
    pub path: u8,
    /// The component at which the judged object stands; component 0 is the root.
    pub at: u32,
}
