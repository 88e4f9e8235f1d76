//! Answers in colours: served green, denied red, refused and faults yellow.

ghost use Rattle.std.specs.Prelude.{◌≡◌, OnOk};
ghost use Rattle.std.specs.Io.KnownBytes.{Appends};
ghost use Rattle.lfs_terminal.specs.Painting.{colour_of, decision_colour, escape, is_served, painted, reset};

use std::io::{Result, Write};

/// A colour of a terminal.
#[derive(Clone, Copy)]
pub enum Colour {
    /// A served call.
    Green,
    /// A denied one.
    Red,
    /// A refused one, or a line with a fault.
    Yellow,
}

impl Colour {
    /// The sequence that begins it.
    fn escape(self) -> &'static [u8]
        ensures { result.now ≡ escape self }
    {
        match self {
            Colour::Green => b"\x1b[32m".as_slice(),
            Colour::Red => b"\x1b[31m".as_slice(),
            Colour::Yellow => b"\x1b[33m".as_slice(),
        }
    }
}

/// The sequence that ends a colour.
fn reset() -> &'static [u8]
    ensures { result.now ≡ reset }
{
    b"\x1b[0m".as_slice()
}

/// A writer to a terminal, which writes each text in the colour of the decision that it begins with, where that is wanted.
#[derive(Drop)]
pub struct Painted<W: Write + Drop> {
    writer: W,
    is_coloured: bool,
}

impl<W: Write + Drop> Painted<W> {
    /// Over a terminal, with colours or without.
    pub fn new(writer: W, is_coloured: bool) -> Painted<W>
        ensures over { result.writer ≡ writer }
        ensures coloured { result.is_coloured ≡ is_coloured }
    {
        Painted {
            writer,
            is_coloured,
        }
    }
}

impl<W: Write + Drop> Write for Painted<W> {
    ghost use Rattle.std.specs.Prelude.{None, if◌then◌else◌};

    // (what stands there of a text in a colour is more than the text)
    ghost contents = { λ p. if p.is_coloured then None else W.contents p.writer };

    fn write(&mut self, buf: &[u8]) -> Result<usize> {
        if !self.is_coloured {
            return self.writer.write(buf);
        }
        write_painted(&mut self.writer, buf)?;
        Ok(buf.len())
    }

    fn flush(&mut self) -> Result<()> {
        self.writer.flush()
    }
}

/// Writes a text in the colour of the decision that it begins with, or as it is where it begins with none.
pub fn write_painted<W: Write>(writer: &mut W, text: &[u8]) -> Result<()>
    ensures { OnOk result (Appends (W.contents writer.old) (W.contents writer.new)
        (painted (colour_of text.now) text.now)) }
{
    match colour_of(text) {
        Some(colour) => {
            writer.write_all(colour.escape())?;
            writer.write_all(text)?;
            writer.write_all(reset())
        }
        None => writer.write_all(text),
    }
}

/// The colour of an answer: that of its decision, which stands behind a session's digit and a space, or begins it.
fn colour_of(text: &[u8]) -> Option<Colour>
    ensures { result ≡ colour_of text.now }
{
    match text {
        [] => None,
        [_] => None,
        [_, second, rest @ ..] => {
            if *second == b' ' {
                decision_colour(rest)
            } else {
                decision_colour(text)
            }
        }
    }
}

/// The colour of a decision, where a text begins with one.
fn decision_colour(text: &[u8]) -> Option<Colour>
    ensures { result ≡ decision_colour text.now }
{
    if text.starts_with(b"denied ") {
        return Some(Colour::Red);
    }
    if text.starts_with(b"refused ") || text.starts_with(b"fault ") {
        return Some(Colour::Yellow);
    }
    if is_served(text) {
        return Some(Colour::Green);
    }
    None
}

/// Whether a text begins as the answer to a served call does.
fn is_served(text: &[u8]) -> bool
    ensures { result ≡ is_served text.now }
{
    text.starts_with(b"ok")
        || text.starts_with(b"stat ")
        || text.starts_with(b"bytes ")
        || text.starts_with(b"names ")
}
