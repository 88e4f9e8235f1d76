//! What `.journal` tells.

ghost use Rattle.std.specs.Prelude.{◌≡◌, IfOk};
ghost use Rattle.lfs_live.specs.JournalText.{journal_text};

use lfs_journal_lines::telling::push_entries;
use lfs_model::journal::Entry;
use std::alloc::{AllocError, Global};

/// The lines of a journal's entries, or of so many of the last (`push_entry` of `lfs_journal_lines`).
pub fn tell_journal(
    alloc: Global,
    entries: &[Entry],
    count: Option<u64>,
) -> Result<Vec<u8>, AllocError>
    ensures { IfOk result (λ text. text.items ≡ journal_text count entries.now) }
{
    let mut text = Vec::new(alloc);
    match count {
        Some(count) => {
            let from = (entries.len() as u64).saturating_sub(count) as usize;
            push_entries(&mut text, &entries[from..])?;
        }
        None => push_entries(&mut text, entries)?,
    }
    Ok(text)
}
