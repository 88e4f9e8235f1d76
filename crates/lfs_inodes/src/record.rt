//! Inodes as records of 128 bytes.

ghost use Rattle.std.specs.Prelude.{◌≡◌, ◌≤◌, ◌↔◌, IsTrue, ℕ, List, length, replicate, Some, IfSome, IfNone, None};
ghost use Rattle.std.specs.Option.{option_map};
ghost use Rattle.lfs_inodes.specs.Bytes.{AreBytes, AreZero, SameBetween, number_at};
ghost use Rattle.lfs_inodes.specs.Facts.{IsVersion};
ghost use Rattle.lfs_inodes.specs.Reading.{AreFields, Fields, fields_of, fields_in};
ghost use Rattle.lfs_inodes.specs.Record.{HasIdentity, HasAttributes, HasAddresses, IsRecord};

use crate::bytes::{are_zero, put_u16, put_u32, put_u64, u16_at, u32_at};
use crate::fields::{
    are_direct, direct_at, flags_at, inode_number_at, is_double, is_single, kind_at, kind_code,
    mode_at, size_at, version_at,
};
use crate::inode::{DIRECT_COUNT, Inode};

/// The number of bytes of a record (this project's profile).
pub const RECORD_SIZE: usize = 128;

/// The record version that is written.
const RECORD_VERSION: u16 = 2;

/// The record version that is read besides. It has no double indirect address.
const FIRST_VERSION: u16 = 1;

impl Inode {
    /// The record of the inode (this project's profile).
    pub fn encode(&self) -> [u8; 128]
        ensures record { IsRecord result self.now }
        ensures version { number_at result 0 2 ≡ 2 }
        // An inode has no other record of this version.
        ensures only { (bytes : List ℕ) → AreBytes bytes → IsRecord bytes self.now
            → number_at bytes 0 2 ≡ 2 → bytes ≡ result }
        ensures reading { fields_in result ≡ Some (fields_of self.now) }
    {
        let mut bytes = [0; RECORD_SIZE];
        put_identity(&mut bytes, self);
        put_attributes(&mut bytes, self);
        put_addresses(&mut bytes, self);
        bytes
    }

    /// The inode of a record, and `None` for bytes that are no record, as those of an unused slot.
    pub fn decode(bytes: &[u8; 128]) -> Option<Inode>
        ensures found { IfSome result (λ v. IsRecord bytes.now v) }
        ensures none { IfNone result ((v : Inode) → IsRecord bytes.now v → ⊥) }
        // A record is that of one inode alone, so what was encoded is decoded to the same value.
        ensures only { (v : Inode) → IsRecord bytes.now v → result ≡ Some v }
        ensures unused { bytes.now ≡ replicate 128 0 → result ≡ None }
        ensures reading { option_map fields_of result ≡ fields_in bytes.now }
        ensures bounds { (f : Fields) → fields_in bytes.now ≡ Some f → AreFields f }
    {
        let mut inode = attributes_at(bytes)?;
        let direct = direct_at(bytes);
        let single = u32_at(bytes, 84);
        let double = u32_at(bytes, 88);
        let fits = are_direct(inode.size, &direct)
            && is_single(inode.size, single)
            && is_double(inode.size, double);
        if !fits || !has_version(bytes) || !are_zero(bytes, 92, RECORD_SIZE) {
            return None;
        }
        inode.direct = direct;
        inode.single = single;
        inode.double = double;
        Some(inode)
    }
}

/// Whether the record is of a version that is read: the first one has no double indirect address.
fn has_version(bytes: &[u8; 128]) -> bool
    ensures { IsTrue result ↔ IsVersion (number_at bytes.now 0 2) (number_at bytes.now 88 4) }
{
    let version = u16_at(bytes, 0);
    version == RECORD_VERSION || (version == FIRST_VERSION && u32_at(bytes, 88) == 0)
}

/// The inode that bytes 0 to 35 spell, without addresses.
fn attributes_at(bytes: &[u8; 128]) -> Option<Inode>
    ensures identity { IfSome result (λ v. HasIdentity bytes.now v) }
    ensures attributes { IfSome result (λ v. HasAttributes bytes.now v) }
    ensures none { IfNone result ((v : Inode) → HasIdentity bytes.now v → HasAttributes bytes.now v → ⊥) }
{
    if !are_zero(bytes, 22, 24) {
        return None;
    }
    let kind = kind_at(bytes)?;
    let number = inode_number_at(bytes)?;
    let version = version_at(bytes)?;
    let mode = mode_at(bytes)?;
    let flags = flags_at(bytes)?;
    let size = size_at(bytes, kind)?;
    Some(Inode {
        kind,
        number,
        version,
        owner: u32_at(bytes, 12),
        group: u32_at(bytes, 16),
        mode,
        flags,
        size,
        direct: [0; DIRECT_COUNT],
        single: 0,
        double: 0,
    })
}

/// Writes bytes 0 to 11.
fn put_identity(bytes: &mut [u8], inode: &Inode)
    requires { length bytes.old ≡ 128 }
    ensures same_length { length bytes.new ≡ 128 }
    ensures version { number_at bytes.new 0 2 ≡ 2 }
    ensures identity { HasIdentity bytes.new inode.now }
    ensures others { SameBetween bytes.new bytes.old 12 128 }
{
    put_u16(bytes, 0, RECORD_VERSION);
    put_u16(bytes, 2, kind_code(inode.kind));
    put_u32(bytes, 4, inode.number);
    put_u32(bytes, 8, inode.version);
}

/// Writes bytes 12 to 35 but the two that no field names.
fn put_attributes(bytes: &mut [u8], inode: &Inode)
    requires room { length bytes.old ≡ 128 }
    requires unwritten { AreZero bytes.old 22 24 }
    ensures same_length { length bytes.new ≡ 128 }
    ensures attributes { HasAttributes bytes.new inode.now }
    ensures before { SameBetween bytes.new bytes.old 0 12 }
    ensures after { SameBetween bytes.new bytes.old 36 128 }
{
    put_u32(bytes, 12, inode.owner);
    put_u32(bytes, 16, inode.group);
    put_u16(bytes, 20, inode.mode.bits());
    put_u32(bytes, 24, inode.flags.bits());
    put_u64(bytes, 28, inode.size);
}

/// Writes bytes 36 to 91.
fn put_addresses(bytes: &mut [u8], inode: &Inode)
    requires room { length bytes.old ≡ 128 }
    requires unwritten { AreZero bytes.old 92 128 }
    ensures same_length { length bytes.new ≡ 128 }
    ensures fits { AreBytes bytes.new }
    ensures addresses { HasAddresses bytes.new inode.now }
    ensures others { SameBetween bytes.new bytes.old 0 36 }
{
    for n in 0..DIRECT_COUNT {
        put_u32(bytes, 36 + 4 * n, inode.direct[n]);
    }
    put_u32(bytes, 84, inode.single);
    put_u32(bytes, 88, inode.double);
}
