//! Numbers at places of a record, the highest byte first.

ghost use Rattle.std.specs.Prelude.{◌≡◌, ◌+◌, ◌≤◌, ◌<◌, ◌↔◌, IsTrue, length};
ghost use Rattle.lfs_inodes.specs.Bytes.{number_at, AreZero, Puts};

use byteorder::{BigEndian, ByteOrder};

/// The 2 bytes at a place, as a number.
pub(crate) fn u16_at(bytes: &[u8], at: usize) -> u16
    requires { at + 2 ≤ length bytes.now }
    ensures { result ≡ number_at bytes.now at 2 }
{
    BigEndian::read_u16(&bytes[at..])
}

/// The 4 bytes at a place, as a number.
pub(crate) fn u32_at(bytes: &[u8], at: usize) -> u32
    requires { at + 4 ≤ length bytes.now }
    ensures { result ≡ number_at bytes.now at 4 }
{
    BigEndian::read_u32(&bytes[at..])
}

/// The 8 bytes at a place, as a number.
pub(crate) fn u64_at(bytes: &[u8], at: usize) -> u64
    requires { at + 8 ≤ length bytes.now }
    ensures { result ≡ number_at bytes.now at 8 }
{
    BigEndian::read_u64(&bytes[at..])
}

/// Whether the bytes from place `from` to before `end` are zero.
pub(crate) fn are_zero(bytes: &[u8], from: usize, end: usize) -> bool
    requires start { from ≤ end }
    requires room { end ≤ length bytes.now }
    ensures { IsTrue result ↔ AreZero bytes.now from end }
{
    for k in from..end {
        if bytes[k] != 0 {
            return false;
        }
    }
    true
}

/// Writes a number into the 2 bytes at a place.
pub(crate) fn put_u16(bytes: &mut [u8], at: usize, number: u16)
    requires { at + 2 ≤ length bytes.old }
    ensures { Puts bytes.old bytes.new at 2 number }
{
    BigEndian::write_u16(&mut bytes[at..], number);
}

/// Writes a number into the 4 bytes at a place.
pub(crate) fn put_u32(bytes: &mut [u8], at: usize, number: u32)
    requires { at + 4 ≤ length bytes.old }
    ensures { Puts bytes.old bytes.new at 4 number }
{
    BigEndian::write_u32(&mut bytes[at..], number);
}

/// Writes a number into the 8 bytes at a place.
pub(crate) fn put_u64(bytes: &mut [u8], at: usize, number: u64)
    requires { at + 8 ≤ length bytes.old }
    ensures { Puts bytes.old bytes.new at 8 number }
{
    BigEndian::write_u64(&mut bytes[at..], number);
}
