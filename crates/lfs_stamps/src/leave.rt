//! Who may set times, as utimensat(2) says it.

ghost use Rattle.std.specs.Prelude.{◌≡◌};
ghost use Rattle.lfs_stamps.specs.Leave.{dating_refusal, is_given, is_held, is_own, is_touch, refusal_if, sets_given, sets_time};

use lfs_fuse_reply::errno::Errno;
use lfs_fuse_wire::attributes::{NewTime, SetAttr};
use lfs_rules::access::grants;
use lfs_types::attrs::{Attrs, Bit};
use lfs_types::cred::Cred;
use lfs_types::file_flags::FlagBits;

/// The flags by which a file is immutable or only grows, the user's and the system's.
const HELD: FlagBits = FlagBits(0x6_0006);

/// Whether a time is given, and not only the present one.
fn is_given(time: Option<NewTime>) -> bool
    ensures { result ≡ is_given time }
{
    matches!(time, Some(NewTime::At(_)))
}

/// Whether a message sets a time.
fn sets_time(fields: &SetAttr) -> bool
    ensures { result ≡ sets_time fields.now }
{
    fields.accessed.is_some() || fields.modified.is_some() || fields.changed.is_some()
}

/// Whether a message sets a time that it gives.
fn sets_given(fields: &SetAttr) -> bool
    ensures { result ≡ sets_given fields.now }
{
    is_given(fields.accessed) || is_given(fields.modified) || fields.changed.is_some()
}

/// Whether a message sets both times to the present one, or one of them beside a length, and no other time.
fn is_touch(fields: &SetAttr) -> bool
    ensures { result ≡ is_touch fields.now }
{
    let sets_both = fields.accessed.is_some() && fields.modified.is_some();
    !sets_given(fields) && (fields.size.is_some() || sets_both)
}

/// Whether a caller is the owner of a file, or the superuser.
fn is_own(cred: &Cred, attrs: &Attrs) -> bool
    ensures { result ≡ is_own cred.now attrs.now }
{
    cred.is_superuser() || cred.uid() == attrs.uid
}

/// The error, or none.
fn refusal_if(holds: bool, errno: Errno) -> Option<Errno>
    ensures { result ≡ refusal_if holds errno }
{
    if holds { Some(errno) } else { None }
}

/// Why a caller may not set the times that a message sets, of a file of these attributes: the owner and the superuser
/// may set any; who may write the file, both to the present time; and nobody, of a file that is immutable or only grows.
pub fn dating_refusal(cred: &Cred, fields: &SetAttr, attrs: &Attrs) -> Option<Errno>
    ensures { result ≡ dating_refusal cred.now fields.now attrs.now }
{
    if !sets_time(fields) {
        return None;
    }
    if attrs.flags.intersects(HELD) {
        return Some(Errno::EPERM);
    }
    if is_own(cred, attrs) {
        return None;
    }
    if !is_touch(fields) {
        return Some(Errno::EPERM);
    }
    refusal_if(!grants(attrs, cred, Bit::Write), Errno::EACCES)
}
