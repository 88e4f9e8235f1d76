//! The number that may stand before the line of an entry.

ghost use Rattle.std.specs.Prelude.{◌≡◌, ℕ, MatchOption, None, Some};
ghost use Rattle.lfs_journal_lines.specs.EntryText.{entry_text};
ghost use Rattle.lfs_journal_lines.specs.Numbering.{behind, numbered, unnumbered};

use itoa::Buffer;
use lfs_model::journal::Entry;

/// A line without the number before it, where one stands there as `#N` and a space; nothing where it isn't this number,
/// spelled as it is told.
pub fn unnumbered(line: &[u8], number: u64) -> Option<&[u8]>
    ensures { MatchOption result (unnumbered number line.now ≡ None)
        (λ rest. unnumbered number line.now ≡ Some rest.now) }
{
    let [first, marked @ ..] = line else {
        return Some(line);
    };
    if *first != b'#' {
        return Some(line);
    }
    let mut buffer = Buffer::new();
    let rest = behind(marked, buffer.format(number).as_bytes())?;
    behind(rest, b" ")
}

/// What stands behind a mark, where a text begins with it.
fn behind<'a>(text: &'a [u8], mark: &[u8]) -> Option<&'a [u8]>
    ensures { MatchOption result (behind mark.now text.now ≡ None)
        (λ rest. behind mark.now text.now ≡ Some rest.now) }
{
    let mut wanted = mark;
    let mut rest = text;
    while let Some((first, more)) = wanted.split_first() {
        match rest.split_first() {
            Some((byte, left)) if byte == first => {
                wanted = more;
                rest = left;
            }
            _ => return None,
        }
    }
    Some(rest)
}

/// The law of the numbers: the line of an entry is found behind its own, and where none stands before it.
pub fn finds_line(entry: &Entry)
    ensures numbered { (number : ℕ) → unnumbered number (numbered number (entry_text entry.now))
        ≡ Some (entry_text entry.now) }
    ensures plain { (number : ℕ) → unnumbered number (entry_text entry.now) ≡ Some (entry_text entry.now) }
{
    // By its type it is below 256.
    let _session = entry.session;
}
