//! What the mode of a file grants, and its set-id bits.

ghost use Rattle.std.specs.Prelude.{◌≡◌};
ghost use Rattle.lfs_rules.specs.Grants.{grants_of, owner_mask, group_mask, other_mask};
ghost use Rattle.lfs_rules.specs.SetId.{HasLostSetIds, set_id_cleared};
ghost use Rattle.lfs_rules.specs.Sticky.{is_barred};

use bitflags::Flags;
use lfs_types::attrs::{Attrs, Bit};
use lfs_types::cred::Cred;
use lfs_types::mode::{Mode, ModeBits};

/// Whether the mode grants the caller this: user 0 everything, the owner what the owner bits say, a member
/// of the group what the group bits say, and everybody else what the other bits say (4.4BSD's chmod(2)).
pub fn grants(attrs: &Attrs, cred: &Cred, bit: Bit) -> bool
    ensures { result ≡ grants_of cred.now attrs.now bit }
{
    if cred.is_superuser() {
        true
    } else if cred.uid() == attrs.uid {
        attrs.mode.contains(owner_bit(bit))
    } else if cred.is_member(attrs.gid) {
        attrs.mode.contains(group_bit(bit))
    } else {
        attrs.mode.contains(other_bit(bit))
    }
}

/// The mode without its set-user-id and set-group-id bits.
pub fn clear_set_id(mode: Mode) -> Mode
    ensures cleared { result ≡ set_id_cleared mode }
    ensures bits { HasLostSetIds mode result }
{
    mode.without(ModeBits::S_ISUID.union(ModeBits::S_ISGID))
}

/// Whether the sticky bit of a directory keeps the caller from removing or renaming a file in it: he is
/// neither user 0 nor the owner of the file or of the directory (4.4BSD's sticky(8)).
pub fn sticky_bars(dir: &Attrs, file: &Attrs, cred: &Cred) -> bool
    ensures { result ≡ is_barred cred.now dir.now file.now }
{
    let passes = cred.is_superuser() || cred.uid() == file.uid || cred.uid() == dir.uid;
    dir.mode.contains(ModeBits::S_ISVTX) && !passes
}

/// The owner's bit.
fn owner_bit(bit: Bit) -> ModeBits
    ensures { result.0 ≡ owner_mask bit }
{
    match bit {
        Bit::Read => ModeBits::S_IRUSR,
        Bit::Write => ModeBits::S_IWUSR,
        Bit::Search => ModeBits::S_IXUSR,
    }
}

/// The group's bit.
fn group_bit(bit: Bit) -> ModeBits
    ensures { result.0 ≡ group_mask bit }
{
    match bit {
        Bit::Read => ModeBits::S_IRGRP,
        Bit::Write => ModeBits::S_IWGRP,
        Bit::Search => ModeBits::S_IXGRP,
    }
}

/// The others' bit.
fn other_bit(bit: Bit) -> ModeBits
    ensures { result.0 ≡ other_mask bit }
{
    match bit {
        Bit::Read => ModeBits::S_IROTH,
        Bit::Write => ModeBits::S_IWOTH,
        Bit::Search => ModeBits::S_IXOTH,
    }
}
