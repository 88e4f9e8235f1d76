//! Words that are appended to a text, each behind a space.

ghost use Rattle.std.specs.Prelude.{◌≡◌, ◌*◌, ◌^◌, ◌<◌, ◌∷◌, ◌++◌, decimal, length, OnOk};
ghost use Rattle.std.specs.Char.{digit_char};
ghost use Rattle.lfs_types.specs.FlagNumbers.{IsKnown};
ghost use Rattle.lfs_words.specs.BytesText.{bytes_text, hex_text};
ghost use Rattle.lfs_words.specs.NameText.{byte_text, flags_text, mode_text, name_text};

use itoa::Buffer;
use lfs_types::file_flags::FileFlags;
use lfs_types::mode::Mode;
use lfs_types::name::Name;
use std::alloc::AllocError;

/// The digit of a number below 16.
fn digit(value: u8) -> u8
    requires { value < 16 }
    ensures { result ≡ digit_char value }
{
    if value < 10 {
        b'0' + value
    } else {
        b'a' - 10 + value
    }
}

/// Appends a number in decimal, without a space.
#[inline(always)]
pub fn push_decimal(out: &mut Vec<u8>, number: u64) -> Result<(), AllocError>
    ensures { OnOk result (out.new.items ≡ out.old.items ++ decimal number) }
{
    if number < 10 {
        out.push(b'0' + number as u8)?;
        return Ok(());
    }
    let mut buffer = Buffer::new();
    out.extend_from_slice(buffer.format(number).as_bytes())
}

/// Appends a word.
pub fn push_word(out: &mut Vec<u8>, word: &str) -> Result<(), AllocError>
    ensures { OnOk result (out.new.items ≡ out.old.items ++ 32 ∷ word.now) }
{
    out.push(b' ')?;
    out.extend_from_slice(word.as_bytes())
}

/// Appends a number in decimal.
pub fn push_number(out: &mut Vec<u8>, number: u64) -> Result<(), AllocError>
    ensures { OnOk result (out.new.items ≡ out.old.items ++ 32 ∷ decimal number) }
{
    out.push(b' ')?;
    push_decimal(out, number)
}

/// Appends two digits for each byte, without a space.
fn push_hex(out: &mut Vec<u8>, bytes: &[u8]) -> Result<(), AllocError>
    ensures { OnOk result (out.new.items ≡ out.old.items ++ hex_text bytes.now) }
{
    let from = out.len();
    let Some(to) = from.checked_add(2 * bytes.len()) else {
        return Err(AllocError);
    };
    out.resize(to, 0)?;
    write_hex(&mut out.as_mut_slice()[from..], bytes);
    Ok(())
}

/// Writes two digits for each byte, each at its own place, so that it is compiled to steps of many bytes.
fn write_hex(digits: &mut [u8], bytes: &[u8])
    requires { length digits.old ≡ 2 * length bytes.now }
    ensures { digits.new ≡ hex_text bytes.now }
{
    for place in 0..bytes.len() {
        let byte = bytes[place];
        digits[2 * place] = digit(byte / 16);
        digits[2 * place + 1] = digit(byte % 16);
    }
}

/// Appends bytes, two digits each, or `-` for none.
pub fn push_bytes(out: &mut Vec<u8>, bytes: &[u8]) -> Result<(), AllocError>
    ensures { OnOk result (out.new.items ≡ out.old.items ++ 32 ∷ bytes_text bytes.now) }
{
    if bytes.is_empty() {
        return push_word(out, "-");
    }
    out.push(b' ')?;
    push_hex(out, bytes)
}

/// Appends a mode as four octal digits.
#[tactic(auto, unfolding(crate::specs::NameText::mode_text))]
pub fn push_mode(out: &mut Vec<u8>, mode: Mode) -> Result<(), AllocError>
    ensures spelled { OnOk result (out.new.items ≡ out.old.items ++ 32 ∷ mode_text mode) }
    ensures bounded { mode < 4096 }
{
    let bits = mode.bits();
    out.push(b' ')?;
    out.extend_from_slice(&[
        digit((bits / 512) as u8),
        digit((bits / 64 % 8) as u8),
        digit((bits / 8 % 8) as u8),
        digit((bits % 8) as u8),
    ])
}

/// Appends flags as eight hexadecimal digits.
#[tactic(auto, unfolding(crate::specs::NameText::flags_text))]
pub fn push_flags(out: &mut Vec<u8>, flags: FileFlags) -> Result<(), AllocError>
    ensures spelled { OnOk result (out.new.items ≡ out.old.items ++ 32 ∷ flags_text flags) }
    ensures bounded { flags < 2 ^ 32 }
    ensures known { IsKnown flags }
{
    let bits = flags.bits();
    out.push(b' ')?;
    push_hex(out, &bits.to_be_bytes())
}

/// Appends a name, in which a byte outside 0x21 to 0x7E, and `%`, is `%` and two digits.
pub fn push_name(out: &mut Vec<u8>, name: &Name) -> Result<(), AllocError>
    ensures { OnOk result (out.new.items ≡ out.old.items ++ 32 ∷ name_text name.now) }
{
    out.push(b' ')?;
    push_name_text(out, name)
}

/// Appends a name so, without a space.
pub(crate) fn push_name_text(out: &mut Vec<u8>, name: &Name) -> Result<(), AllocError>
    ensures { OnOk result (out.new.items ≡ out.old.items ++ name_text name.now) }
{
    for byte in name.as_bytes() {
        push_name_byte(out, *byte)?;
    }
    Ok(())
}

/// Appends a byte of a name.
fn push_name_byte(out: &mut Vec<u8>, byte: u8) -> Result<(), AllocError>
    ensures { OnOk result (out.new.items ≡ out.old.items ++ byte_text byte) }
{
    match byte {
        b'%' | 0..=0x20 | 0x7f..=0xff => {
            out.push(b'%')?;
            push_hex(out, &[byte])
        }
        _ => Ok(out.push(byte)?),
    }
}
