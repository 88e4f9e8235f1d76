//! A film, and the lines that it is shown.

ghost use Rattle.std.specs.Prelude.{◌≡◌, ◌≤◌, [], length, IfOk, OnErr, OnOk};
ghost use Rattle.std.specs.Io.KnownBytes.{Appends};
ghost use Rattle.lfs_film.specs.Films.{empty_reel, frame_of, page_text, with_frame_text, with_line};
ghost use Rattle.lfs_film.specs.Frames.{changed_owners, changed_rows};
ghost use Rattle.lfs_view.specs.MapText.{waiting_text};
ghost use Rattle.lfs_view.specs.Owners.{owners_of};
ghost use Rattle.lfs_view.specs.Rows.{rows_of};

use crate::changed::changed_rows;
use crate::frame::{begin, end};
use crate::owners::push_owners;
use crate::page::write_parts;
use crate::quoting::{short_line, short_told};
use lfs_io::output::WriteFault;
use lfs_logstore::LogStore;
use lfs_view::owners::owners;
use lfs_view::rows::{Row, rows, waiting};
use std::alloc::{AllocError, Global};
use std::io::Write;
use std::marker::Model;

/// The most bytes of the text of a film's frames.
pub const FRAMES_MAX: usize = 19_000_000;

/// What a log shows at a time.
#[derive(Drop)]
struct Picture {
    /// The rows of its map.
    rows: Vec<Row>,
    /// Whose the blocks of each segment are.
    owners: Vec<Row>,
    /// What waits.
    waiting: Vec<u8>,
}

impl Picture {
    /// Nothing.
    fn empty(alloc: Global) -> Picture
        ensures rows { result.rows.items ≡ [] }
        ensures owners { result.owners.items ≡ [] }
        ensures waiting { result.waiting.items ≡ [] }
    {
        Picture {
            rows: Vec::new(alloc),
            owners: Vec::new(alloc),
            waiting: Vec::new(alloc),
        }
    }

    /// What a store's log shows.
    fn of(alloc: Global, store: &LogStore) -> Result<Picture, AllocError>
        ensures rows { IfOk result (λ picture. picture.rows.items ≡ rows_of store.now) }
        ensures owners { IfOk result (λ picture. picture.owners.items ≡ owners_of store.now) }
        ensures waiting { IfOk result (λ picture. picture.waiting.items
            ≡ waiting_text store.now) }
    {
        Ok(Picture {
            rows: rows(alloc, store)?,
            owners: owners(alloc, store)?,
            waiting: waiting(alloc, store)?,
        })
    }
}

/// A film of a log: a frame for each line that was shown, with what it changed.
#[derive(Drop)]
pub struct Film {
    /// What the log showed as the last line left it.
    last: Picture,
    lines: u64,
    frames: Vec<u8>,
    is_full: bool,
}

impl Model for Film {
    ghost use Rattle.std.specs.Prelude.{◌≤◌, length};
    ghost use Rattle.lfs_film.specs.Films.{Reel};

    ghost Value = { Reel };

    ghost view = { λ f. record {
      rows = f.last.rows.items;
      owners = f.last.owners.items;
      waiting = f.last.waiting.items;
      lines = f.lines;
      frames = f.frames.items;
      is_full = f.is_full;
    } };

    ghost invariant = { λ f. length f.frames.items ≤ 19000000 };
}

impl Film {
    /// A film that was shown nothing.
    pub fn new(alloc: Global) -> Film
        ensures { result ≡ empty_reel }
    {
        Film {
            last: Picture::empty(alloc),
            lines: 0,
            frames: Vec::new(alloc),
            is_full: false,
        }
    }

    /// Is shown a line without its line feed, the text that was told of it, and the log as the line left it. There is
    /// one more frame: how many lines were shown before, at most 160 bytes of the line and 1,000 of the text, what
    /// waits, the rows of the log's map that are others than before, which may be none, and whose the blocks are that
    /// were written. From the first frame on with which the text of the frames would have more than 19,000,000 bytes, no
    /// more are kept.
    ///
    /// # Errors
    ///
    /// Memory ran out, or 2^64 - 1 lines were shown. The film is as before.
    pub fn show(
        &mut self,
        alloc: Global,
        line: &[u8],
        told: &[u8],
        store: &LogStore,
    ) -> Result<(), AllocError>
        ensures shown { OnOk result
            (self.new ≡ with_line self.old line.now told.now (rows_of store.now)
            (owners_of store.now)
            (waiting_text store.now)) }
        ensures kept { OnErr result (self.new ≡ self.old) }
    {
        let Some(lines) = self.lines.checked_add(1) else {
            return Err(AllocError);
        };
        let picture = Picture::of(alloc, store)?;
        let frame = self.frame_of(alloc, line, told, &picture)?;
        self.add(frame.as_slice())?;
        self.last = picture;
        self.lines = lines;
        Ok(())
    }

    /// The frame of a line, which left the log as this picture shows it.
    fn frame_of(
        &self,
        alloc: Global,
        line: &[u8],
        told: &[u8],
        picture: &Picture,
    ) -> Result<Vec<u8>, AllocError>
        ensures { IfOk result (λ text. text.items
            ≡ frame_of self.now.lines line.now told.now picture.now.waiting.items
            (changed_rows self.now.rows picture.now.rows.items)
            (changed_owners self.now.owners picture.now.owners.items)) }
    {
        let rows = changed_rows(alloc, self.last.rows.as_slice(), picture.rows.as_slice())?;
        let line = short_line(alloc, line)?;
        let told = short_told(alloc, told)?;
        let head = [line.as_slice(), told.as_slice(), picture.waiting.as_slice()];
        let mut text = begin(alloc, self.lines, &head, rows.as_slice())?;
        let owners = picture.owners.as_slice();
        push_owners(alloc, &mut text, self.last.owners.as_slice(), owners)?;
        end(&mut text)?;
        Ok(text)
    }

    /// Adds a frame, where it finds room.
    fn add(&mut self, frame: &[u8]) -> Result<(), AllocError>
        ensures added { OnOk result (self.new ≡ with_frame_text self.old frame.now) }
        ensures kept { OnErr result (self.new ≡ self.old) }
    {
        if frame.len() > FRAMES_MAX - self.frames.len() {
            self.is_full = true;
        }
        if !self.is_full {
            self.frames.extend_from_slice(frame)?;
        }
        Ok(())
    }

    /// Writes the page of the film: HTML that stands alone, at most 20,000,000 bytes.
    ///
    /// # Errors
    ///
    /// The writer failed.
    pub fn write_page<W: Write>(&self, writer: &mut W) -> Result<(), WriteFault>
        ensures written { OnOk result (Appends (W.contents writer.old) (W.contents writer.new)
            (page_text self.now)) }
        ensures bounded { length (page_text self.now) ≤ 20000000 }
    {
        write_parts(writer, self.frames.as_slice(), self.is_full)
    }
}
