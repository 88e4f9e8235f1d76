//! The names of a path: how many they are, those before the last, and the last.

ghost use Rattle.std.specs.Prelude.{◌≡◌, ◌<◌, ◌≤◌, length};
ghost use Rattle.lfs_types.specs.declared.path.TheConstants.{PATH_MAX};
ghost use Rattle.lfs_model.specs.Rules.{front, last};

use lfs_types::name::Name;
use lfs_types::path::Path;

/// The component at which a path ends.
pub fn depth(path: &Path) -> u32
    ensures { result ≡ length path.now }
{
    component(path.names())
}

/// The component at which the last of these names stands: their number.
pub fn component(names: &[Name]) -> u32
    requires { length names.now ≤ PATH_MAX }
    ensures { result ≡ length names.now }
{
    names.len() as u32
}

/// The names before the last of some.
pub fn parents_of(names: &[Name]) -> &[Name]
    requires { 0 < length names.now }
    ensures names { result.now ≡ front names.now }
{
    &names[..names.len() - 1]
}

/// The last of some names.
pub fn last_name(names: &[Name]) -> &Name
    requires { 0 < length names.now }
    ensures name { result.now ≡ last names.now }
{
    &names[names.len() - 1]
}
