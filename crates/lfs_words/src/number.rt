//! Numbers in scripts.

ghost use Rattle.std.specs.Prelude.{◌≡◌, ◌-◌, ◌^◌, ◌<◌, ◌≤◌, pos};
ghost use Rattle.std.specs.Result.{result_map_both};
ghost use Rattle.std.specs.Char.{is_digit};
ghost use Rattle.std.specs.List.{list_all};
ghost use Rattle.lfs_words.specs.LevelText.{level_word};
ghost use Rattle.lfs_words.specs.Numbers.{is_numeral, number_of};

use crate::fault::FaultKind;
use lfs_types::level::Level;
use lfs_types::mode::Mode;

/// The most digits of a decimal.
const DECIMAL_DIGITS: usize = 20;
/// The most digits of a mode.
const MODE_DIGITS: usize = 6;
/// The highest number of a level.
const LEVEL_MAX: u64 = 2;
/// The highest session.
const SESSION_MAX: u64 = 8;

/// Whether every byte of a word is a digit of this radix.
fn has_digits_alone(word: &str, radix: u32) -> bool
    requires low { 2 ≤ radix }
    requires high { radix ≤ 10 }
    ensures { result ≡ list_all (λ c. is_digit c radix) word.now }
{
    word.bytes().all(|byte| char::from(byte).is_digit(radix))
}

/// Whether a word is 1 to `most` digits of this radix.
fn is_numeral(word: &str, radix: u32, most: usize) -> bool
    requires low { 2 ≤ radix }
    requires high { radix ≤ 10 }
    ensures { result ≡ is_numeral radix most word.now }
{
    !word.is_empty() && word.len() <= most && has_digits_alone(word, radix)
}

/// The number that 1 to `most` digits of this radix spell, where it is at most `limit`.
fn number(word: &str, radix: u32, most: usize, limit: u64) -> Result<u64, FaultKind>
    requires low { 2 ≤ radix }
    requires high { radix ≤ 10 }
    ensures { result ≡ number_of radix most limit word.now }
{
    if !is_numeral(word, radix, most) {
        return Err(FaultKind::Number);
    }
    match u64::from_str_radix(word, radix) {
        Ok(value) => {
            if value <= limit {
                Ok(value)
            } else {
                Err(FaultKind::Range)
            }
        }
        Err(_) => Err(FaultKind::Range),
    }
}

/// Whether a word is 1 to 20 decimal digits, whatever their value.
pub fn is_decimal(word: &str) -> bool
    ensures { result ≡ is_numeral 10 20 word.now }
{
    is_numeral(word, 10, DECIMAL_DIGITS)
}

/// The number below 2^64 that 1 to 20 decimal digits spell.
pub fn decimal(word: &str) -> Result<u64, FaultKind>
    ensures { result ≡ number_of 10 20 (2 ^ 64 - 1) word.now }
{
    number(word, 10, DECIMAL_DIGITS, u64::MAX)
}

/// The number below 2^32 that 1 to 20 decimal digits spell.
pub fn short_decimal(word: &str) -> Result<u32, FaultKind>
    ensures { result ≡ number_of 10 20 (2 ^ 32 - 1) word.now }
{
    let value = number(word, 10, DECIMAL_DIGITS, u64::from(u32::MAX))?;
    Ok(value as u32)
}

/// The mode, at most 07777, that 1 to 6 octal digits spell.
pub fn mode(word: &str) -> Result<Mode, FaultKind>
    ensures { result ≡ number_of 8 6 4095 word.now }
{
    let value = number(word, 8, MODE_DIGITS, 0o7777)?;
    Mode::new(value as u16).ok_or(FaultKind::Range)
}

/// The level, from -1 to 2, that an optional minus and 1 to 20 decimal digits spell.
pub fn level(word: &str) -> Result<Level, FaultKind>
    ensures { result ≡ level_word word.now }
{
    let number = match word.strip_prefix('-') {
        Some(digits) => -level_number(digits)?,
        None => level_number(word)?,
    };
    Level::new(number).ok_or(FaultKind::Range)
}

/// The number, at most 2, that 1 to 20 decimal digits spell.
fn level_number(digits: &str) -> Result<i8, FaultKind>
    ensures { result ≡ result_map_both pos (λ kind. kind) (number_of 10 20 2 digits.now) }
{
    let value = number(digits, 10, DECIMAL_DIGITS, LEVEL_MAX)?;
    Ok(value as i8)
}

/// The session, from 0 to 8, that 1 to 20 decimal digits spell.
pub fn session(word: &str) -> Result<u8, FaultKind>
    ensures { result ≡ number_of 10 20 8 word.now }
{
    let value = number(word, 10, DECIMAL_DIGITS, SESSION_MAX)?;
    Ok(value as u8)
}
