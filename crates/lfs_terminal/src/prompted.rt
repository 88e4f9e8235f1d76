//! A prompt before each line that is read.

ghost use Rattle.std.specs.Prelude.{◌≡◌};

use std::io::{Read, Result, Write};

/// A reader of a terminal, before each line of which a prompt is written. What can't be written is left out.
#[derive(Drop)]
pub struct Prompted<R: Read + Drop, W: Write + Drop> {
    reader: R,
    writer: W,
    prompt: &'static str,
    /// Whether a line begins with the next byte.
    is_line_start: bool,
}

impl<R: Read + Drop, W: Write + Drop> Prompted<R, W> {
    /// Over a reader, with this prompt on a writer.
    pub fn new(reader: R, writer: W, prompt: &'static str) -> Prompted<R, W> {
        Prompted {
            reader,
            writer,
            prompt,
            is_line_start: true,
        }
    }

    /// Writes the prompt where a line begins.
    fn begin_line(&mut self)
        ensures { self.new.reader ≡ self.old.reader }
    {
        if self.is_line_start {
            say(&mut self.writer, self.prompt);
        }
    }
}

impl<R: Read + Drop, W: Write + Drop> Read for Prompted<R, W> {
    ghost remaining = { λ prompted. R.remaining prompted.reader };

    fn read(&mut self, buf: &mut [u8]) -> Result<usize> {
        self.begin_line();
        match self.reader.read(buf) {
            Ok(count) => {
                self.is_line_start = ends_line(&buf[..count]);
                Ok(count)
            }
            Err(error) => Err(error),
        }
    }
}

/// Whether bytes end with a line feed.
fn ends_line(bytes: &[u8]) -> bool {
    match bytes {
        [] => false,
        [.., last] => *last == b'\n',
    }
}

/// Writes a text, and lets the writer hand it on.
fn say<W: Write>(writer: &mut W, text: &str) {
    let _ = writer.write_all(text.as_bytes());
    let _ = writer.flush();
}
