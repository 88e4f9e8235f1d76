//! Lines: where one ends, whether its bytes are text, and whether it says something.

ghost use Rattle.std.specs.Prelude.{◌≡◌, ◌==◌, true, false, map, position, MatchOption, MatchResult};
ghost use Rattle.std.specs.List.{list_any};
ghost use Rattle.lfs_words.specs.Lines.{HasNoLineFeed, IsFirstLine, is_printable, is_skipped};
ghost use Rattle.lfs_words.specs.Wording.{is_bare};
ghost use Rattle.lfs_words.specs.declared.fault.FaultKind.TheVariants.{Bytes};

use crate::fault::FaultKind;
use memchr::memchr;
use std::str;

/// A text up to its first line feed, and what is behind it.
pub fn cut_line(text: &[u8]) -> Option<(&[u8], &[u8])>
    ensures { MatchOption result (HasNoLineFeed text.now)
        (λ cut. IsFirstLine text.now cut.0.now cut.1.now) }
{
    match line_feed_at(text) {
        Some(at) => Some((&text[..at], &text[at + 1..])),
        None => None,
    }
}

/// Where the first line feed stands.
fn line_feed_at(text: &[u8]) -> Option<usize>
    ensures { result ≡ position (λ b. b == 10) text.now }
{
    memchr(b'\n', text)
}

/// The text of a line, whose bytes are from 0x20 to 0x7E.
pub fn text_of(line: &[u8]) -> Result<&str, FaultKind>
    ensures { MatchResult result
        (λ text. (is_printable line.now ≡ true) × (text.now ≡ line.now))
        (λ kind. (is_printable line.now ≡ false) × (kind ≡ Bytes)) }
{
    if !is_printable(line) {
        return Err(FaultKind::Bytes);
    }
    // SAFETY: printable bytes are ASCII, and so UTF-8, which is proved here.
    Ok(unsafe { str::from_utf8_unchecked(line) })
}

/// Whether every byte is from 0x20 to 0x7E. It looks at each, so that it is compiled to steps of many bytes.
fn is_printable(line: &[u8]) -> bool
    ensures { result ≡ is_printable line.now }
{
    let mut printable = true;
    for byte in line {
        printable &= *byte >= 0x20 && *byte <= 0x7e;
    }
    printable
}

/// Whether a line says nothing.
pub fn is_skipped(line: &str) -> bool
    ensures { result ≡ is_skipped line.now }
{
    match line.as_bytes() {
        [] => true,
        [first, ..] => *first == b'#',
    }
}

/// Whether one of these words has no bytes.
pub fn has_bare_word(words: &[&str]) -> bool
    ensures { result ≡ list_any is_bare (map (λ x. x.now) words.now) }
{
    words.iter().any(|word| word.is_empty())
}
