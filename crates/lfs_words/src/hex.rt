//! Bytes and file flags in scripts.

ghost use Rattle.std.specs.Prelude.{◌≡◌, ◌<◌, ◌≤◌, ◌*◌, [], ◌∷◌, length, true, IfOk};
ghost use Rattle.lfs_words.specs.Faults.{ReadsAs};
ghost use Rattle.lfs_words.specs.BytesText.{is_dash, is_hex_digit, is_hex, hex_text, hex_bytes, bytes_of};
ghost use Rattle.lfs_words.specs.FlagText.{is_flags, flags_of};
ghost use Rattle.std.specs.Char.{digit_char};
ghost use Rattle.std.specs.List.{list_all};

use crate::fault::FaultKind;
use lfs_types::file_flags::FileFlags;
use lfs_types::limits::TRANSFER_BYTES;
use lfs_types::payload::Payload;
use std::alloc::{AllocError, Global};

/// The most digits of flags.
const FLAG_DIGITS: usize = 8;

/// The bytes that an even, positive number of digits of 0-9 a-f spells, at most 4,096, or none for `-`.
pub fn payload(alloc: Global, word: &str) -> Result<Payload, FaultKind>
    ensures { ReadsAs (bytes_of word.now) result }
{
    let digits = word.as_bytes();
    if is_dash(digits) {
        return Ok(payload_of(Vec::new(alloc)));
    }
    if digits.len() > 2 * TRANSFER_BYTES {
        return Err(FaultKind::Range);
    }
    if !is_hex(digits) {
        return Err(FaultKind::Hex);
    }
    let bytes = decoded(alloc, digits)?;
    Ok(payload_of(bytes))
}

/// The payload of bytes that are not too many.
fn payload_of(bytes: Vec<u8>) -> Payload
    requires { length bytes.items ≤ 4096 }
    ensures { result ≡ bytes.items }
{
    match Payload::new(bytes) {
        Ok(payload) => payload,
        // Never: they are few enough, as is required.
        Err(_) => unreachable!(),
    }
}

/// Whether the word is the mark of no bytes.
fn is_dash(word: &[u8]) -> bool
    ensures { result ≡ is_dash word.now }
{
    match word {
        [first] => *first == b'-',
        _ => false,
    }
}

/// Whether a byte is a digit of 0-9 a-f.
fn is_hex_digit(byte: u8) -> bool
    ensures { result ≡ is_hex_digit byte }
{
    (byte >= b'0' && byte <= b'9') || (byte >= b'a' && byte <= b'f')
}

/// Whether these are an even, positive number of digits.
fn is_hex(digits: &[u8]) -> bool
    ensures { result ≡ is_hex digits.now }
{
    !digits.is_empty() && digits.len() % 2 == 0 && has_hex_alone(digits)
}

/// Whether every byte is a digit. It looks at each, so that it is compiled to steps of many bytes.
fn has_hex_alone(bytes: &[u8]) -> bool
    ensures { result ≡ list_all is_hex_digit bytes.now }
{
    let mut alone = true;
    for byte in bytes {
        alone &= is_hex_digit(*byte);
    }
    alone
}

/// The byte that two digits spell. They are worked on in one word, so that a loop over it is compiled to steps of many
/// digits: a letter has the bit of 64, and its low four bits are nine less than its value.
#[inline(always)]
fn byte_of(high: u8, low: u8) -> u8
    requires high_digit { is_hex_digit high ≡ true }
    requires low_digit { is_hex_digit low ≡ true }
    ensures { hex_text (result ∷ []) ≡ high ∷ low ∷ [] }
{
    let digits = u16::from_le_bytes([high, low]);
    let letters = (digits >> 6) & 0x0101;
    let values = (digits & 0x0f0f).wrapping_add(letters.wrapping_mul(9));
    (((values << 4) | (values >> 8)) & 0xff) as u8
}

/// The bytes that these digits spell.
fn decoded(alloc: Global, digits: &[u8]) -> Result<Vec<u8>, AllocError>
    requires { is_hex digits.now ≡ true }
    ensures spelled { IfOk result (λ bytes. hex_text bytes.items ≡ digits.now) }
    ensures read { IfOk result (λ bytes. hex_bytes digits.now ≡ bytes.items) }
{
    let mut bytes = Vec::from_elem(alloc, 0, digits.len() / 2)?;
    decode(bytes.as_mut_slice(), digits);
    Ok(bytes)
}

/// Writes the bytes that these digits spell, each at its own place.
fn decode(bytes: &mut [u8], digits: &[u8])
    requires hex { is_hex digits.now ≡ true }
    requires room { 2 * length bytes.old ≡ length digits.now }
    ensures spelled { hex_text bytes.new ≡ digits.now }
    ensures read { hex_bytes digits.now ≡ bytes.new }
{
    for place in 0..bytes.len() {
        bytes[place] = byte_of(digits[2 * place], digits[2 * place + 1]);
    }
}

/// Whether a word is 1 to 8 digits of 0-9 a-f.
fn is_flags(word: &str) -> bool
    ensures { result ≡ is_flags word.now }
{
    !word.is_empty() && word.len() <= FLAG_DIGITS && has_hex_alone(word.as_bytes())
}

/// The flags, each of them known, that 1 to 8 digits of 0-9 a-f spell.
pub fn flags(word: &str) -> Result<FileFlags, FaultKind>
    ensures { result ≡ flags_of word.now }
{
    if !is_flags(word) {
        return Err(FaultKind::Number);
    }
    match u32::from_str_radix(word, 16) {
        Ok(bits) => FileFlags::new(bits).ok_or(FaultKind::Range),
        // Never: by `is_flags` they are digits.
        Err(_) => unreachable!(),
    }
}
