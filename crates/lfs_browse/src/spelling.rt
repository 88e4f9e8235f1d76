//! Bytes as text.

ghost use Rattle.std.specs.Prelude.{◌≡◌, ◌<◌, ◌++◌, OnOk};
ghost use Rattle.std.specs.Char.{digit_char};
ghost use Rattle.std.specs.List.{flat_map};
ghost use Rattle.lfs_browse.specs.Spelled.{char_text, is_other, is_unended, spelled};

use std::alloc::AllocError;

/// Appends bytes as text, in which a line feed and what is from a space to a tilde stands for itself, but for a
/// backslash; behind it is how the last line ends.
#[tactic(auto, unfolding(crate::specs::Spelled::spelled))]
pub(crate) fn push_spelled(out: &mut Vec<u8>, bytes: &[u8]) -> Result<(), AllocError>
    ensures { OnOk result (out.new.items ≡ out.old.items ++ spelled bytes.now) }
{
    push_chars(out, bytes)?;
    if is_unended(bytes) {
        out.extend_from_slice(b"\\\n")?;
    }
    Ok(())
}

/// Whether there are bytes behind the last line feed.
fn is_unended(bytes: &[u8]) -> bool
    ensures { result ≡ is_unended bytes.now }
{
    is_other(bytes.last().copied())
}

/// Whether there is a last byte that is no line feed.
fn is_other(last: Option<u8>) -> bool
    ensures { result ≡ is_other last }
{
    match last {
        Some(byte) => byte != b'\n',
        None => false,
    }
}

/// Appends each byte as text.
fn push_chars(out: &mut Vec<u8>, bytes: &[u8]) -> Result<(), AllocError>
    ensures { OnOk result (out.new.items ≡ out.old.items ++ flat_map char_text bytes.now) }
{
    for byte in bytes {
        push_char(out, *byte)?;
    }
    Ok(())
}

/// Appends a byte as text.
fn push_char(out: &mut Vec<u8>, byte: u8) -> Result<(), AllocError>
    ensures { OnOk result (out.new.items ≡ out.old.items ++ char_text byte) }
{
    match byte {
        b'\\' => out.extend_from_slice(b"\\\\"),
        b'\n' | 0x20..=0x7e => Ok(out.push(byte)?),
        _ => out.extend_from_slice(&[b'\\', b'x', digit(byte / 16), digit(byte % 16)]),
    }
}

/// The digit of a number below 16.
fn digit(value: u8) -> u8
    requires { value < 16 }
    ensures { result ≡ digit_char value }
{
    if value < 10 {
        b'0' + value
    } else {
        b'a' - 10 + value
    }
}
