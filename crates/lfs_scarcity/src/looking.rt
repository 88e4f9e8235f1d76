//! A volume that is looked at between the calls made on it. What looks leave in the journal is counted apart, so
//! that it can be told how long the journal is without them.

use crate::asked::calls;
use lfs_model::journal::CleanerAnswer;
use lfs_types::answer::{Answer, Resource, Served};
use lfs_types::cleaned::CleanedStore;
use lfs_types::cleaner::CleanerCall;
use lfs_types::cred::Cred;
use lfs_types::store::FileStore;
use lfs_volume::volume::Volume;
use std::alloc::Global;
use std::io::Write;

/// A volume that is looked at.
#[derive(Drop)]
pub(crate) struct Looked<F: FileStore + Drop> {
    /// The volume.
    pub(crate) volume: Volume<F>,
    /// How many entries looks have left.
    looks: usize,
    /// The lines that look.
    lines: &'static [&'static str],
}

impl<F: FileStore + Drop> Looked<F> {
    /// A volume at which these lines look.
    pub(crate) fn new(volume: Volume<F>, lines: &'static [&'static str]) -> Looked<F> {
        Looked {
            volume,
            looks: 0,
            lines,
        }
    }

    /// Looks: makes the call of each of its lines, and writes how it was answered, how long the journal is without
    /// looks, the clean segments and the level.
    pub(crate) fn look<W: Write>(&mut self, alloc: Global, writer: &mut W) {
        for line in self.lines {
            self.look_at(alloc, writer, line);
        }
        let entries = self.volume.journal().len().saturating_sub(self.looks);
        let clean = self.volume.clean_segments();
        let level = self.volume.level();
        let _ = writeln!(writer, "entries {entries} clean {clean} level {level:?}");
    }

    /// Makes the call of a line; once more where memory was refused.
    fn look_at<W: Write>(&mut self, alloc: Global, writer: &mut W, line: &str) {
        for _ in 0..2 {
            let Some(answer) = self.answer(alloc, writer, line) else {
                return;
            };
            tell_answer(writer, "look", &answer);
            if !lacks_memory(&answer) {
                self.looks = self.looks.saturating_add(1);
                return;
            }
        }
    }

    /// How the call of a line is answered.
    fn answer<W: Write>(&mut self, alloc: Global, writer: &mut W, line: &str) -> Option<Answer> {
        let (session, cred, request) = calls(alloc, writer, line)?.pop()?;
        Some(self.volume.call(session, &cred, request))
    }

    /// Makes the call of a line, and looks; once more where memory was refused.
    pub(crate) fn ask<W: Write>(&mut self, alloc: Global, writer: &mut W, what: &str, line: &str) {
        for _ in 0..2 {
            let Some(answer) = self.answer(alloc, writer, line) else {
                return;
            };
            tell_answer(writer, what, &answer);
            self.look(alloc, writer);
            if !lacks_memory(&answer) {
                return;
            }
        }
    }
}

impl<F: CleanedStore + Drop> Looked<F> {
    /// Asks for the bytes of the ifile, and looks; once more where memory was refused.
    pub(crate) fn ask_ifile<W: Write>(&mut self, alloc: Global, writer: &mut W, cred: &Cred) {
        for _ in 0..2 {
            let answer = self.volume.clean(0, cred, CleanerCall::Ifile);
            tell_ifile(writer, &answer);
            self.look(alloc, writer);
            if !matches!(answer, CleanerAnswer::Refused(Resource::NoMemory)) {
                return;
            }
        }
    }
}

/// Whether an answer is that memory was refused.
fn lacks_memory(answer: &Answer) -> bool {
    matches!(answer, Answer::Refused(Resource::NoMemory))
}

/// Writes what was asked for and what it was answered.
pub(crate) fn tell_answer<W: Write>(writer: &mut W, what: &str, answer: &Answer) {
    let _ = match answer {
        Answer::Served(Served::Stat(number, attrs)) => {
            writeln!(writer, "{what} stat {number} {}", attrs.size)
        }
        Answer::Served(Served::Bytes(bytes)) => tell_bytes(writer, what, bytes.as_slice()),
        Answer::Served(Served::Names(names)) => {
            writeln!(writer, "{what} names {}", names.as_slice().len())
        }
        Answer::Served(Served::Done) => writeln!(writer, "{what} done"),
        Answer::Denied(_) => writeln!(writer, "{what} denied"),
        Answer::Refused(resource) => writeln!(writer, "{what} {resource:?}"),
    };
}

/// Writes what the ifile is.
fn tell_ifile<W: Write>(writer: &mut W, answer: &CleanerAnswer) {
    let _ = match answer {
        CleanerAnswer::Ifile(bytes) => tell_bytes(writer, "ifile-bytes", bytes.as_slice()),
        CleanerAnswer::Refused(resource) => writeln!(writer, "ifile-bytes {resource:?}"),
        _ => writeln!(writer, "ifile-bytes other"),
    };
}

/// Writes how many bytes there are, and their sum.
fn tell_bytes<W: Write>(writer: &mut W, what: &str, bytes: &[u8]) -> std::io::Result<()> {
    let mut sum = 0u32;
    for byte in bytes {
        sum = sum.wrapping_add(u32::from(*byte));
    }
    writeln!(writer, "{what} bytes {} sum {sum}", bytes.len())
}
