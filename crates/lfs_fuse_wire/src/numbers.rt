//! Numbers at places of a message, the lowest byte first, and bits of them.

ghost use Rattle.std.specs.Prelude.{◌≡◌, ◌+◌, ◌≤◌, length};
ghost use Rattle.lfs_fuse_wire.specs.Numbers.{has, number_at};

use byteorder::{ByteOrder, LittleEndian};

/// The 4 bytes at a place, as a number.
pub(crate) fn word_at(bytes: &[u8], at: usize) -> u32
    requires { at + 4 ≤ length bytes.now }
    ensures { result ≡ number_at bytes.now at 4 }
{
    LittleEndian::read_u32(&bytes[at..])
}

/// The 8 bytes at a place, as a number.
pub(crate) fn long_at(bytes: &[u8], at: usize) -> u64
    requires { at + 8 ≤ length bytes.now }
    ensures { result ≡ number_at bytes.now at 8 }
{
    LittleEndian::read_u64(&bytes[at..])
}

/// Whether all bits of a mask are set.
pub(crate) fn has(bits: u32, mask: u32) -> bool
    ensures { result ≡ has bits mask }
{
    bits & mask == mask
}
