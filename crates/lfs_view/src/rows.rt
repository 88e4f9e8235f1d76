//! The rows of a map, each by itself.

ghost use Rattle.std.specs.Prelude.{◌≡◌, ◌<◌, IfOk};
ghost use Rattle.lfs_parts.specs.Store.{IsStore};
ghost use Rattle.lfs_view.specs.MapText.{row_text, waiting_text};
ghost use Rattle.lfs_view.specs.Rows.{rows_of};

use crate::map::{push_row, push_waiting};
use lfs_logstore::LogStore;
use lfs_parts::parts::Parts;
use std::alloc::{AllocError, Global};
use std::marker::Model;

/// What is told of a segment: its line in a map, with its line feed, or whose its blocks are.
#[derive(Drop)]
pub struct Row {
    text: Vec<u8>,
}

impl Model for Row {
    ghost use Rattle.std.specs.Prelude.{List, ℕ};

    ghost Value = { List ℕ };

    ghost view = { λ r. r.text.items };
}

impl Row {
    /// One of this text.
    pub(crate) fn new(text: Vec<u8>) -> Row
        ensures { result ≡ text.items }
    {
        Row { text }
    }

    /// The text.
    pub fn as_bytes(&self) -> &[u8]
        ensures { result.now ≡ self.now }
    {
        self.text.as_slice()
    }
}

/// The line of each segment in the map of a log, in order.
///
/// # Errors
///
/// Memory ran out.
pub fn rows(alloc: Global, store: &LogStore) -> Result<Vec<Row>, AllocError>
    ensures { IfOk result (λ rows. rows.items ≡ rows_of store.now) }
{
    let parts = store.parts();
    let mut rows = Vec::new(alloc);
    for segment in 0..parts.log.segments() {
        rows.push(row_of(alloc, parts, segment)?)?;
    }
    Ok(rows)
}

/// The line of a segment.
fn row_of(alloc: Global, parts: &Parts, segment: u32) -> Result<Row, AllocError>
    requires store { IsStore parts.now }
    requires inside { segment < parts.now.log.memory.segments }
    ensures row { IfOk result (λ row. row ≡ row_text parts.now segment) }
{
    let mut text = Vec::new(alloc);
    push_row(alloc, &mut text, parts, segment)?;
    Ok(Row::new(text))
}

/// The line of a map that tells how many blocks and how many records wait to be written, with its line feed.
///
/// # Errors
///
/// Memory ran out.
pub fn waiting(alloc: Global, store: &LogStore) -> Result<Vec<u8>, AllocError>
    ensures { IfOk result (λ text. text.items ≡ waiting_text store.now) }
{
    let mut text = Vec::new(alloc);
    push_waiting(&mut text, store.parts())?;
    Ok(text)
}
