//! Credentials of callers.

ghost use Rattle.std.specs.Prelude.{◌≡◌, ◌==◌, ◌≤◌, true, length, MatchResult, Some, None};
ghost use Rattle.std.specs.List.{list_any};
ghost use Rattle.lfs_types.specs.Credentials.{cred_fault};

use std::marker::Model;
use thiserror::Error;

/// The most groups of a credential (4.4BSD's `NGROUPS_MAX`).
pub const NGROUPS_MAX: usize = 16;

/// Why a credential cannot be made: the first of these that holds (this project's profile).
#[derive(Clone, Copy, PartialEq, Eq, Debug, Error)]
pub enum BadCred {
    /// There is no group.
    #[error("a credential has a group")]
    NoGroup,
    /// There are more than 16 groups.
    #[error("a credential has at most 16 groups")]
    TooManyGroups,
    /// The mark of init is on a user who is not the superuser.
    #[error("init is the superuser")]
    InitNotRoot,
}

/// Who makes a call: a user, 1 to 16 groups, and whether it is init. User 0 is the superuser, and only user 0 can be init.
#[derive(Clone, Copy, PartialEq, Eq, Debug)]
pub struct Cred {
    uid: u32,
    groups: [u32; NGROUPS_MAX],
    count: u8,
    init: bool,
}

impl Model for Cred {
    ghost use Rattle.std.specs.Prelude.{◌≡◌, ◌-◌, ◌<◌, ◌≤◌, ◌++◌, length, take, drop, replicate, true};
    ghost use Rattle.lfs_types.specs.Caller.{Caller};

    ghost Value = { Caller };

    ghost view = { λ c. record { uid = c.uid; groups = take c.count c.groups; init = c.init } };

    ghost invariant = { λ c. (length c.groups ≡ 16) × (0 < c.count) × (c.count ≤ 16)
        × (drop c.count c.groups ≡ replicate (16 - c.count) 0) × (c.init ≡ true → c.uid ≡ 0) };

    ghost inverse = { λ v. record {
      uid = v.uid;
      count = length v.groups;
      groups = v.groups ++ replicate (16 - length v.groups) 0;
      init = v.init;
    } };

    ghost use Rattle.lfs_types.specs.Padded.{length_front, padded_front};
    ghost use Rattle.std.proofs.Common.{arith};

    ghost inverse_ok = { λ c h. λ i. record {
      uid = c.uid;
      count = length_front c.count c.groups (Prim.omega arith) i;
      groups = padded_front 16 c.count c.groups h.0 h.2 h.3 i;
      init = c.init;
    } };
}

impl Cred {
    /// The credential of this user with these groups, or the first fault in the order of `BadCred`.
    pub fn new(uid: u32, groups: &[u32], init: bool) -> Result<Cred, BadCred>
        ensures { MatchResult result
            (λ c. (cred_fault uid groups.now init ≡ None)
            × (c ≡ record { uid = uid; groups = groups.now; init = init }))
            (λ fault. cred_fault uid groups.now init ≡ Some fault) }
    {
        if groups.is_empty() {
            return Err(BadCred::NoGroup);
        }
        if groups.len() > NGROUPS_MAX {
            return Err(BadCred::TooManyGroups);
        }
        if init && uid != 0 {
            return Err(BadCred::InitNotRoot);
        }
        let mut padded = [0; NGROUPS_MAX];
        padded[..groups.len()].copy_from_slice(groups);
        Ok(Cred {
            uid,
            count: groups.len() as u8,
            groups: padded,
            init,
        })
    }

    /// The user.
    pub fn uid(&self) -> u32
        ensures { result ≡ self.now.uid }
    {
        self.uid
    }

    /// Whether it is the superuser.
    pub fn is_superuser(&self) -> bool
        ensures { result ≡ (self.now.uid == 0) }
    {
        self.uid == 0
    }

    /// Whether this group is one of its groups.
    #[inline(always)]
    pub fn is_member(&self, gid: u32) -> bool
        ensures { result ≡ list_any (λ g. g == gid) self.now.groups }
    {
        self.groups[..usize::from(self.count)].contains(&gid)
    }

    /// The groups, 1 to 16.
    pub fn groups(&self) -> &[u32]
        ensures value { result.now ≡ self.now.groups }
        ensures some { 1 ≤ length result.now }
        ensures few { length result.now ≤ 16 }
        ensures init { self.now.init ≡ true → self.now.uid ≡ 0 }
    {
        &self.groups[..usize::from(self.count)]
    }

    /// Whether it is init.
    pub fn is_init(&self) -> bool
        ensures { result ≡ self.now.init }
    {
        self.init
    }
}
