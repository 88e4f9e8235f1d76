//! Who may change the owner and the group of a file.

ghost use Rattle.std.specs.Prelude.{◌≡◌};
ghost use Rattle.lfs_rules.specs.Owners.{is_owner_or_superuser, owner_denial};

use lfs_types::attrs::Attrs;
use lfs_types::cred::Cred;
use lfs_types::rule::Rule;

/// Whether the caller is the owner or user 0, who alone may change a mode (4.4BSD's chmod(2)).
pub fn is_owner(attrs: &Attrs, cred: &Cred) -> bool
    ensures { result ≡ is_owner_or_superuser cred.now attrs.now }
{
    cred.is_superuser() || cred.uid() == attrs.uid
}

/// The denial, if there is one, of setting this owner and this group. User 0 may set any; the owner may keep
/// the owner, and set the present group or one of his own groups (4.4BSD's chown(2)).
pub fn owner_change(attrs: &Attrs, cred: &Cred, uid: u32, gid: u32) -> Option<Rule>
    ensures { result ≡ owner_denial cred.now attrs.now uid gid }
{
    let keeps_owner = cred.uid() == attrs.uid && uid == attrs.uid;
    let may_give = gid == attrs.gid || cred.is_member(gid);
    if cred.is_superuser() || keeps_owner && may_give {
        None
    } else {
        Some(Rule::MaySetOwner)
    }
}
