//! What a run prints: collected, and written in large pieces.

ghost use Rattle.std.specs.Prelude.{◌≡◌, ◌++◌, [], OnOk};
ghost use Rattle.std.specs.Io.KnownBytes.{Appends, Keeps, append_known};

use std::io::Write;
use thiserror::Error;

/// Why a text was not written: the writer failed. How much of it went out is not said.
#[derive(Clone, Copy, PartialEq, Eq, Debug, Error)]
#[error("write failed")]
pub struct WriteFault;

/// How many bytes are collected, at least, before they are written.
const PIECE: usize = 65_536;

/// Writes a text once it is a piece, and empties it.
pub fn write_full<W: Write>(writer: &mut W, text: &mut Vec<u8>) -> Result<(), WriteFault>
    ensures { OnOk result (Keeps (append_known (W.contents writer.old) text.old.items)
        (append_known (W.contents writer.new) text.new.items)) }
{
    if text.len() >= PIECE {
        write_text(writer, text.as_slice())?;
        text.clear();
    }
    Ok(())
}

/// Writes a text whole.
pub fn write_text<W: Write>(writer: &mut W, text: &[u8]) -> Result<(), WriteFault>
    ensures { OnOk result (Appends (W.contents writer.old) (W.contents writer.new) text.now) }
{
    match writer.write_all(text) {
        Ok(()) => Ok(()),
        Err(_) => Err(WriteFault),
    }
}

/// Lets a writer hand on what it still holds.
pub fn flush<W: Write>(writer: &mut W) -> Result<(), WriteFault>
    ensures { OnOk result (Keeps (W.contents writer.old) (W.contents writer.new)) }
{
    match writer.flush() {
        Ok(()) => Ok(()),
        Err(_) => Err(WriteFault),
    }
}
