//! By which class of a mode a caller is judged.

ghost use Rattle.std.specs.Prelude.{◌≡◌};
ghost use Rattle.lfs_explain.specs.Classes.{class_of};

use lfs_types::attrs::Attrs;
use lfs_types::cred::Cred;

/// Who a caller is to a file: the first that fits (4.4BSD's chmod(2)).
#[derive(Clone, Copy, PartialEq, Eq, Debug)]
pub enum Class {
    /// The superuser, whom no bit keeps off.
    Superuser,
    /// The owner.
    Owner,
    /// A member of the file's group.
    Group,
    /// Anybody else.
    Others,
}

impl Class {
    /// Who a caller is to a file of these attributes.
    pub fn of(attrs: &Attrs, cred: &Cred) -> Class
        ensures { result ≡ class_of cred.now attrs.now }
    {
        if cred.is_superuser() {
            Class::Superuser
        } else if cred.uid() == attrs.uid {
            Class::Owner
        } else if cred.is_member(attrs.gid) {
            Class::Group
        } else {
            Class::Others
        }
    }
}
