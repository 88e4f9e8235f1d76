//! Where the entries of a journal go: nowhere, or as lines to a writer.

ghost use Rattle.std.specs.Prelude.{◌≡◌, ◌+◌, ◌<◌, ◌^◌, ◌++◌, ℕ, List, [], length, Option, OnOk};
ghost use Rattle.std.specs.Io.KnownBytes.{Appends};
ghost use Rattle.lfs_sinks.specs.Numbered.{numbered_line, numbered_text};

use lfs_io::output::{WriteFault, flush, write_full, write_text};
use lfs_journal_lines::telling::push_entry;
use lfs_model::journal::Entry;
use lfs_words::append::push_decimal;
use std::alloc::{AllocError, Global};
use std::io::Write;
use thiserror::Error;

/// Why a sink takes no more entries.
#[derive(Clone, Copy, PartialEq, Eq, Debug, Error)]
pub enum SinkFault {
    /// A write failed.
    #[error("journal not written: write failed")]
    Write,
    /// A growth was refused.
    #[error("journal not written: no memory")]
    Memory,
    /// There is no further number for an entry.
    #[error("journal not written: no more numbers")]
    Numbers,
    /// It takes none.
    #[error("journal not written: no file")]
    Nowhere,
}

impl From<AllocError> for SinkFault {
    fn from(_error: AllocError) -> SinkFault {
        SinkFault::Memory
    }
}

impl From<WriteFault> for SinkFault {
    fn from(_fault: WriteFault) -> SinkFault {
        SinkFault::Write
    }
}

/// Where the entries of a journal go.
pub trait JournalSink {
    /// The bytes that it holds, where they are known.
    ghost contents: { Self → Option (List ℕ) };
    /// The number of its next line.
    ghost next: { Self → ℕ };

    /// Takes entries: their lines stand behind what it held, each with its number.
    ///
    /// # Errors
    ///
    /// How many of them it holds then is not said.
    fn take(&mut self, entries: &[Entry]) -> Result<(), SinkFault>
        ensures lines { OnOk result (Appends (contents self.old) (contents self.new)
            (numbered_text (next self.old) entries.now)) }
        ensures numbered { OnOk result (next self.new ≡ next self.old + length entries.now) };
}

/// Nowhere: no entry is taken.
#[derive(Clone, Copy, Debug, Drop)]
pub struct Nowhere;

impl JournalSink for Nowhere {
    ghost use Rattle.std.specs.Prelude.{None};

    ghost contents = { λ _. None };

    ghost next = { λ _. 1 };

    fn take(&mut self, _entries: &[Entry]) -> Result<(), SinkFault> {
        Err(SinkFault::Nowhere)
    }
}

/// A writer that gets the lines of the entries, numbered from 1 on.
#[derive(Drop)]
pub struct LineSink<W: Write + Drop> {
    writer: W,
    text: Vec<u8>,
    next: u64,
}

impl<W: Write + Drop> LineSink<W> {
    /// Over a writer, which gets the line of the first entry next.
    pub fn new(alloc: Global, writer: W) -> LineSink<W>
        ensures first { result.next ≡ 1 }
        ensures over { result.writer ≡ writer }
    {
        LineSink {
            writer,
            text: Vec::new(alloc),
            next: 1,
        }
    }
}

impl<W: Write + Drop> JournalSink for LineSink<W> {
    ghost contents = { λ sink. W.contents sink.writer };

    ghost next = { λ sink. sink.next };

    fn take(&mut self, entries: &[Entry]) -> Result<(), SinkFault> {
        let Some(next) = self.next.checked_add(entries.len() as u64) else {
            return Err(SinkFault::Numbers);
        };
        self.text.clear();
        write_entries(&mut self.writer, &mut self.text, self.next, entries)?;
        self.next = next;
        Ok(())
    }
}

/// Writes the lines of entries, numbered from this number on, and lets the writer hand them on.
fn write_entries<W: Write>(
    writer: &mut W,
    text: &mut Vec<u8>,
    number: u64,
    entries: &[Entry],
) -> Result<(), SinkFault>
    requires empty { text.old.items ≡ [] }
    requires numbers { number + length entries.now < 2 ^ 64 }
    ensures { OnOk result (Appends (W.contents writer.old) (W.contents writer.new)
        (numbered_text number entries.now)) }
{
    for place in 0..entries.len() {
        push_numbered(text, number + place as u64, &entries[place])?;
        write_full(writer, text)?;
    }
    write_text(writer, text.as_slice())?;
    flush(writer)?;
    Ok(())
}

/// Appends the line of an entry with its number before it.
#[tactic(auto, unfolding(crate::specs::Numbered::numbered_line))]
pub fn push_numbered(out: &mut Vec<u8>, number: u64, entry: &Entry) -> Result<(), AllocError>
    ensures { OnOk result (out.new.items ≡ out.old.items ++ numbered_line number entry.now) }
{
    out.push(b'#')?;
    push_decimal(out, number)?;
    out.push(b' ')?;
    push_entry(out, entry)
}
