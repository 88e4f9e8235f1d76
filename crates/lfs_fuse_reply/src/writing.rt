//! Numbers behind one another in a reply, the lowest byte first.

ghost use Rattle.std.specs.Prelude.{◌≡◌, ◌++◌, ◌≤◌, OnOk, replicate};
ghost use Rattle.std.specs.List.{flat_map};
ghost use Rattle.lfs_fuse_reply.specs.Numbers.{half, long, word};

use byteorder::{ByteOrder, LittleEndian};
use std::alloc::AllocError;

/// Adds a number in two bytes.
#[tactic(auto, unfolding(crate::specs::Numbers::half))]
pub(crate) fn push_half(out: &mut Vec<u8>, number: u16) -> Result<(), AllocError>
    ensures { OnOk result (out.new.items ≡ out.old.items ++ half number) }
{
    let mut bytes = [0; 2];
    LittleEndian::write_u16(&mut bytes, number);
    out.extend_from_slice(&bytes)
}

/// Adds a number in four bytes.
#[tactic(auto, unfolding(crate::specs::Numbers::word))]
pub(crate) fn push_word(out: &mut Vec<u8>, number: u32) -> Result<(), AllocError>
    ensures { OnOk result (out.new.items ≡ out.old.items ++ word number) }
{
    let mut bytes = [0; 4];
    LittleEndian::write_u32(&mut bytes, number);
    out.extend_from_slice(&bytes)
}

/// Adds a number in eight bytes.
#[tactic(auto, unfolding(crate::specs::Numbers::long))]
pub(crate) fn push_long(out: &mut Vec<u8>, number: u64) -> Result<(), AllocError>
    ensures { OnOk result (out.new.items ≡ out.old.items ++ long number) }
{
    let mut bytes = [0; 8];
    LittleEndian::write_u64(&mut bytes, number);
    out.extend_from_slice(&bytes)
}

/// Adds each number in four bytes.
pub(crate) fn push_words(out: &mut Vec<u8>, numbers: &[u32]) -> Result<(), AllocError>
    ensures { OnOk result (out.new.items ≡ out.old.items ++ flat_map word numbers.now) }
{
    for number in numbers {
        push_word(out, *number)?;
    }
    Ok(())
}

/// Adds each number in eight bytes.
pub(crate) fn push_longs(out: &mut Vec<u8>, numbers: &[u64]) -> Result<(), AllocError>
    ensures { OnOk result (out.new.items ≡ out.old.items ++ flat_map long numbers.now) }
{
    for number in numbers {
        push_long(out, *number)?;
    }
    Ok(())
}

/// Adds zero bytes, at most eight.
#[tactic(auto, using(crate::proofs::Padding::zeros))]
pub(crate) fn push_zeros(out: &mut Vec<u8>, count: usize) -> Result<(), AllocError>
    requires { count ≤ 8 }
    ensures { OnOk result (out.new.items ≡ out.old.items ++ replicate count 0) }
{
    let zeros = [0; 8];
    out.extend_from_slice(&zeros[..count])
}
