//! The error that a kernel is told of an answer.

ghost use Rattle.std.specs.Prelude.{◌≡◌};
ghost use Rattle.lfs_fuse_calls.specs.Errors.{error_of_resource, error_of_rule, refusal_of};

use lfs_fuse_reply::errno::Errno;
use lfs_types::answer::{Answer, Resource};
use lfs_types::rule;

/// The error of this name.
fn error_of_rule(error: rule::Errno) -> Errno
    ensures { result ≡ error_of_rule error }
{
    match error {
        rule::Errno::EPERM => Errno::EPERM,
        rule::Errno::ENOENT => Errno::ENOENT,
        rule::Errno::EACCES => Errno::EACCES,
        rule::Errno::EBUSY => Errno::EBUSY,
        rule::Errno::EEXIST => Errno::EEXIST,
        rule::Errno::ENOTDIR => Errno::ENOTDIR,
        rule::Errno::EISDIR => Errno::EISDIR,
        rule::Errno::EINVAL => Errno::EINVAL,
        rule::Errno::EFBIG => Errno::EFBIG,
        rule::Errno::ENOTEMPTY => Errno::ENOTEMPTY,
    }
}

/// The error of a resource that is wanting.
fn error_of_resource(resource: Resource) -> Errno
    ensures { result ≡ error_of_resource resource }
{
    match resource {
        Resource::NoMemory => Errno::ENOMEM,
        Resource::NoSpace | Resource::NoInodes | Resource::DirectoryFull => Errno::ENOSPC,
        Resource::JournalFull => Errno::EDQUOT,
    }
}

/// The error of an answer, and `None` where it is served.
pub fn refusal(answer: &Answer) -> Option<Errno>
    ensures { result ≡ refusal_of answer.now }
{
    match answer {
        Answer::Served(_) => None,
        Answer::Denied(denial) => Some(error_of_rule(denial.rule.error())),
        Answer::Refused(resource) => Some(error_of_resource(*resource)),
    }
}
