//! A test of the rules that leaves open who the caller is.

ghost use Rattle.std.specs.Prelude.{◌≡◌, ◌==◌, false, if◌then◌else◌};
ghost use Rattle.lfs_types.specs.Caller.{Caller};
ghost use Rattle.lfs_rules.specs.Owners.{is_in_group, is_the_owner, is_the_superuser, may_set_owner};
ghost use Rattle.lfs_who.specs.Conditions.{IsUser, alone, holds, is_met};

use lfs_rules::access::{grants, sticky_bars};
use lfs_rules::flags::flag_change;
use lfs_rules::owner::{is_owner, owner_change};
use lfs_types::attrs::{Attrs, Bit};
use lfs_types::cred::Cred;
use lfs_types::file_flags::FileFlags;
use lfs_types::level::Level;
use lfs_types::rule::Denial;

/// What a test asks, whoever the caller is.
#[derive(Clone, Copy, PartialEq, Eq, Debug)]
pub enum Condition {
    /// It is met, or not, whoever calls.
    Fixed(bool),
    /// A file of these attributes grants the caller this right.
    Grants(Attrs, Bit),
    /// The sticky bit of a directory, the first, does not keep the caller from a file in it.
    PassesSticky(Attrs, Attrs),
    /// The caller is the superuser.
    IsSuperuser,
    /// The caller is the superuser, or the owner of a file of these attributes.
    IsOwner(Attrs),
    /// The caller may give a file of these attributes this owner and this group.
    MaySetOwner(Attrs, u32, u32),
    /// The caller may give a file of these attributes these flags, as far as only the superuser may change some.
    MaySetFlags(Attrs, FileFlags),
}

/// A test, and the denial that it comes to where it isn't met.
#[derive(Clone, Copy, PartialEq, Eq, Debug)]
pub struct Question {
    /// What is asked.
    pub condition: Condition,
    /// The denial.
    pub denial: Denial,
}

/// For which callers, all the same user or all without a part in it, a condition is met.
#[derive(Clone, Copy, PartialEq, Eq, Debug)]
pub enum Outcome {
    /// For all.
    Met,
    /// For none.
    Unmet,
    /// For those who are in this group.
    Inside(u32),
    /// For those who aren't.
    Outside(u32),
}

impl Condition {
    /// For which callers it is met who are this user; without a user, for which who are neither the superuser nor an
    /// owner of what it asks of.
    pub fn outcome(&self, user: Option<u32>) -> Outcome
        ensures { (c : Caller) → IsUser user c self.now → holds c self.now ≡ is_met c result }
    {
        match self {
            Condition::Fixed(met) => fixed(*met),
            Condition::Grants(attrs, bit) => {
                let uid = user.unwrap_or(stranger_to(attrs.uid, attrs.uid));
                granted(attrs, *bit, uid)
            }
            Condition::PassesSticky(dir, file) => {
                let uid = user.unwrap_or(stranger_to(dir.uid, file.uid));
                passed(dir, file, uid)
            }
            Condition::IsSuperuser => fixed(user.unwrap_or(1) == 0),
            Condition::IsOwner(attrs) => {
                let uid = user.unwrap_or(stranger_to(attrs.uid, attrs.uid));
                owned(attrs, uid)
            }
            Condition::MaySetOwner(attrs, owner, group) => {
                let uid = user.unwrap_or(stranger_to(attrs.uid, attrs.uid));
                given(attrs, *owner, *group, uid)
            }
            Condition::MaySetFlags(attrs, flags) => flagged(attrs, *flags, user.unwrap_or(1)),
        }
    }
}

/// What is met for all, or for none.
pub(crate) fn fixed(met: bool) -> Outcome
    ensures { (c : Caller) → is_met c result ≡ met }
{
    if met { Outcome::Met } else { Outcome::Unmet }
}

/// For whom the right is granted, of the callers who are as much the superuser and the owner as this user is.
fn granted(attrs: &Attrs, bit: Bit, uid: u32) -> Outcome
    ensures { (c : Caller) → is_the_superuser c ≡ (uid == 0)
        → is_the_owner c attrs.now ≡ (uid == attrs.now.uid)
        → holds c (Condition.Grants attrs.now bit) ≡ is_met c result }
{
    let inside = grants(attrs, &alone(uid, attrs.gid), bit);
    let outside = grants(attrs, &alone(uid, other_than(attrs.gid)), bit);
    by_group(attrs.gid, inside, outside)
}

/// Whether the sticky bit keeps them off, of the same callers.
fn passed(dir: &Attrs, file: &Attrs, uid: u32) -> Outcome
    ensures { (c : Caller) → is_the_superuser c ≡ (uid == 0)
        → is_the_owner c dir.now ≡ (uid == dir.now.uid)
        → is_the_owner c file.now ≡ (uid == file.now.uid)
        → holds c (Condition.PassesSticky dir.now file.now) ≡ is_met c result }
{
    fixed(!sticky_bars(dir, file, &alone(uid, 0)))
}

/// Whether they are the superuser or the owner.
fn owned(attrs: &Attrs, uid: u32) -> Outcome
    ensures { (c : Caller) → is_the_superuser c ≡ (uid == 0)
        → is_the_owner c attrs.now ≡ (uid == attrs.now.uid)
        → holds c (Condition.IsOwner attrs.now) ≡ is_met c result }
{
    fixed(is_owner(attrs, &alone(uid, 0)))
}

/// For whom of the same callers a file may get this owner and this group.
fn given(attrs: &Attrs, owner: u32, group: u32, uid: u32) -> Outcome
    ensures { (c : Caller) → is_the_superuser c ≡ (uid == 0)
        → is_the_owner c attrs.now ≡ (uid == attrs.now.uid)
        → holds c (Condition.MaySetOwner attrs.now owner group) ≡ is_met c result }
{
    let inside = may_give(attrs, &alone(uid, group), owner, group);
    let outside = may_give(attrs, &alone(uid, other_than(group)), owner, group);
    by_group(group, inside, outside)
}

/// Whether a caller may give a file this owner and this group.
fn may_give(attrs: &Attrs, cred: &Cred, owner: u32, group: u32) -> bool
    ensures { result ≡ may_set_owner cred.now attrs.now owner group }
{
    owner_change(attrs, cred, owner, group).is_none()
}

/// Whether a file may get these flags, of callers who are as much the superuser as this user is.
fn flagged(attrs: &Attrs, flags: FileFlags, uid: u32) -> Outcome
    ensures { (c : Caller) → is_the_superuser c ≡ (uid == 0)
        → holds c (Condition.MaySetFlags attrs.now flags) ≡ is_met c result }
{
    // At this level, and of its owner, nothing else is asked.
    let own = Attrs { uid, ..*attrs };
    let unmet = flag_change(&own, &alone(uid, 0), Level::Insecure, flags);
    fixed(unmet.is_none())
}

/// What is met or not for those in a group, and for those who aren't.
fn by_group(gid: u32, inside: bool, outside: bool) -> Outcome
    ensures { (c : Caller) → is_met c result ≡ if is_in_group c gid then inside else outside }
{
    match (inside, outside) {
        (true, true) => Outcome::Met,
        (false, false) => Outcome::Unmet,
        (true, false) => Outcome::Inside(gid),
        (false, true) => Outcome::Outside(gid),
    }
}

/// A user in one group.
pub(crate) fn alone(uid: u32, gid: u32) -> Cred
    ensures { result ≡ alone uid gid }
{
    let Ok(cred) = Cred::new(uid, &[gid], false) else {
        // Never: one group is no more than 16.
        unreachable!()
    };
    cred
}

/// Another group.
fn other_than(gid: u32) -> u32
    ensures { (gid == result) ≡ false }
{
    if gid == 0 { 1 } else { 0 }
}

/// A user who is not the superuser, nor one of two.
fn stranger_to(one: u32, other: u32) -> u32
    ensures superuser { (result == 0) ≡ false }
    ensures one { (result == one) ≡ false }
    ensures other { (result == other) ≡ false }
{
    if one != 1 && other != 1 {
        1
    } else if one != 2 && other != 2 {
        2
    } else {
        3
    }
}
