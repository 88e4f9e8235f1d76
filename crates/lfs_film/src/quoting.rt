//! Texts as strings of JSON that may stand in an element of HTML.

ghost use Rattle.std.specs.Prelude.{◌≡◌, ◌<◌, ◌≤◌, ◌++◌, IfOk, OnOk};
ghost use Rattle.std.specs.Char.{digit_char};
ghost use Rattle.std.specs.List.{flat_map};
ghost use Rattle.lfs_film.specs.Quoting.{escaped, quoted, shortened};

use std::alloc::{AllocError, Global};

/// The most bytes of a line that a frame has.
const LINE_MAX: usize = 160;

/// The most bytes that a frame has of what was told of a line.
const TOLD_MAX: usize = 1_000;

/// How many bytes the sign has that a text was cut.
const CUT: usize = 3;

/// At most 160 bytes of a line. A longer one is cut, and ends with ` ..`.
///
/// # Errors
///
/// Memory ran out.
pub fn short_line(alloc: Global, line: &[u8]) -> Result<Vec<u8>, AllocError>
    ensures { IfOk result (λ kept. kept.items ≡ shortened 160 line.now) }
{
    shortened(alloc, line, LINE_MAX)
}

/// At most 1,000 bytes of what was told of a line. A longer text is cut, and ends with ` ..`.
///
/// # Errors
///
/// Memory ran out.
pub fn short_told(alloc: Global, told: &[u8]) -> Result<Vec<u8>, AllocError>
    ensures { IfOk result (λ kept. kept.items ≡ shortened 1000 told.now) }
{
    shortened(alloc, told, TOLD_MAX)
}

/// At most so many bytes of a text.
fn shortened(alloc: Global, text: &[u8], most: usize) -> Result<Vec<u8>, AllocError>
    requires { 3 ≤ most }
    ensures { IfOk result (λ kept. kept.items ≡ shortened most text.now) }
{
    let mut kept = Vec::new(alloc);
    if text.len() <= most {
        kept.extend_from_slice(text)?;
        return Ok(kept);
    }
    let start = &text[..most - CUT];
    kept.extend_from_slice(start)?;
    kept.extend_from_slice(b" ..")?;
    Ok(kept)
}

/// Appends a text as a string of JSON, in ASCII. Each byte is taken as the character of its number. There is no `<`,
/// `>` or `&` in it, so that no tag of HTML begins in it.
///
/// # Errors
///
/// Memory ran out.
pub fn push_quoted(out: &mut Vec<u8>, text: &[u8]) -> Result<(), AllocError>
    ensures { OnOk result (out.new.items ≡ out.old.items ++ quoted text.now) }
{
    out.push(b'"')?;
    push_escaped(out, text)?;
    Ok(out.push(b'"')?)
}

/// Appends each byte of a text.
fn push_escaped(out: &mut Vec<u8>, text: &[u8]) -> Result<(), AllocError>
    ensures { OnOk result (out.new.items ≡ out.old.items ++ flat_map escaped text.now) }
{
    for byte in text {
        push_byte(out, *byte)?;
    }
    Ok(())
}

/// Appends a byte: itself, or a backslash, `u00` and two digits.
fn push_byte(out: &mut Vec<u8>, byte: u8) -> Result<(), AllocError>
    ensures { OnOk result (out.new.items ≡ out.old.items ++ escaped byte) }
{
    match byte {
        b'"' | b'&' | b'<' | b'>' | b'\\' | 0..=0x1f | 0x7f..=0xff => {
            out.extend_from_slice(&[b'\\', b'u', b'0', b'0', digit(byte / 16), digit(byte % 16)])
        }
        _ => Ok(out.push(byte)?),
    }
}

/// The digit of a number below 16.
fn digit(value: u8) -> u8
    requires { value < 16 }
    ensures { result ≡ digit_char value }
{
    if value < 10 {
        b'0' + value
    } else {
        b'a' - 10 + value
    }
}
