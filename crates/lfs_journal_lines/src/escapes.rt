//! Bytes of names, read back as answers have them.

ghost use Rattle.std.specs.Prelude.{◌≡◌, ◌≢◌, ◌<◌, [], length, Ok, Err, map, IfOk, MatchOption, MatchResult, ⊤};
ghost use Rattle.lfs_words.specs.Faults.{ReadsAs};
ghost use Rattle.lfs_words.specs.PathText.{path_of};
ghost use Rattle.lfs_words.specs.declared.fault.FaultKind.TheVariants.{Memory};
ghost use Rattle.lfs_journal_lines.specs.Escapes.{before, byte_told, bytes_told, digit_told, escaped_byte, escaped_path, name_told, names_told};

use lfs_types::name::{BadName, Name};
use lfs_types::path::{BadPath, Path};
use lfs_types::payload::Names;
use lfs_words::fault::FaultKind;
use std::alloc::Global;

/// The path that a text tells, which stands behind a percent sign.
pub(crate) fn escaped_path(alloc: Global, text: &[u8]) -> Result<Path, FaultKind>
    ensures { ReadsAs (escaped_path text.now) result }
{
    let bytes = bytes_told(alloc, text)?;
    path_of(alloc, bytes.as_slice())
}

/// The path that bytes spell, in UTF-8 or not.
fn path_of(alloc: Global, text: &[u8]) -> Result<Path, FaultKind>
    ensures { ReadsAs (path_of text.now) result }
{
    match Path::parse_bytes(alloc, text) {
        Ok(path) => Ok(path),
        Err(BadPath::Memory) => Err(FaultKind::Memory),
        Err(fault) => Err(FaultKind::Path(fault)),
    }
}

/// The names that words tell.
pub(crate) fn names_told(alloc: Global, words: &[&str]) -> Result<Names, FaultKind>
    ensures { ReadsAs (names_told (map (λ x. x.now) words.now)) result }
{
    let mut names = Vec::new(alloc);
    for word in words {
        let name = name_told(alloc, word)?;
        names.push(name)?;
    }
    Ok(Names::new(names)?)
}

/// The name that a word tells.
fn name_told(alloc: Global, word: &str) -> Result<Name, FaultKind>
    ensures { ReadsAs (name_told word.now) result }
{
    let bytes = bytes_told(alloc, word.as_bytes())?;
    match Name::parse(alloc, bytes.as_slice()) {
        Ok(name) => Ok(name),
        Err(BadName::Memory) => Err(FaultKind::Memory),
        Err(fault) => Err(FaultKind::Path(BadPath::Name(1, fault))),
    }
}

/// The bytes that a text tells, in which `%` and two digits of 0-9 a-f are a byte.
fn bytes_told(alloc: Global, text: &[u8]) -> Result<Vec<u8>, FaultKind>
    ensures { MatchResult result (λ bytes. bytes_told text.now ≡ Ok bytes.items)
        (λ kind. kind ≢ Memory → bytes_told text.now ≡ Err kind) }
{
    let mut bytes = Vec::new(alloc);
    let mut rest = text;
    while let Some((byte, behind)) = first_byte(rest)? {
        bytes.push(byte)?;
        rest = behind;
    }
    Ok(bytes)
}

/// The first byte that a text tells, and the text behind it.
fn first_byte(text: &[u8]) -> Result<Option<(u8, &[u8])>, FaultKind>
    ensures told { MatchResult result
        (λ found. MatchOption found (bytes_told text.now ≡ Ok [])
        (λ both. bytes_told text.now ≡ before both.0 (bytes_told both.1.now)))
        (λ kind. bytes_told text.now ≡ Err kind) }
    ensures shorter { IfOk result (λ found. MatchOption found ⊤
        (λ both. length both.1.now < length text.now)) }
{
    let [first, behind @ ..] = text else {
        return Ok(None);
    };
    if *first != b'%' {
        return Ok(Some((*first, behind)));
    }
    let found = escaped_byte(behind)?;
    Ok(Some(found))
}

/// The byte that the two digits at the head of a text tell, and the text behind them.
fn escaped_byte(text: &[u8]) -> Result<(u8, &[u8]), FaultKind>
    ensures told { MatchResult result
        (λ found. escaped_byte text.now ≡ Ok (found.0, found.1.now))
        (λ kind. escaped_byte text.now ≡ Err kind) }
    ensures shorter { IfOk result (λ found. length found.1.now < length text.now) }
{
    match text {
        [high, low, behind @ ..] => {
            let byte = byte_told(*high, *low)?;
            Ok((byte, behind))
        }
        _ => Err(FaultKind::Hex),
    }
}

/// The byte that two digits tell.
fn byte_told(high: u8, low: u8) -> Result<u8, FaultKind>
    ensures { result ≡ byte_told high low }
{
    let high = digit_told(high)?;
    let low = digit_told(low)?;
    Ok(16 * high + low)
}

/// The value of a digit of 0-9 a-f.
fn digit_told(digit: u8) -> Result<u8, FaultKind>
    ensures value { result ≡ digit_told digit }
    ensures bounded { IfOk result (λ value. value < 16) }
{
    match digit {
        b'0'..=b'9' => Ok(digit - b'0'),
        b'a'..=b'f' => Ok(digit - b'a' + 10),
        _ => Err(FaultKind::Hex),
    }
}
