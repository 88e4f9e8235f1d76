//! The first line: how many allocations are spent, and what is done.

use std::io::Read;

/// What is done.
#[derive(Clone, Copy)]
pub(crate) enum Word {
    /// The script behind the first line is run.
    Run,
    /// The same with its sessions on threads.
    Threads,
    /// Its sessions are served, and the run is settled.
    Serve,
    /// Frames are made.
    Frames,
    /// Caches are made.
    Cache,
    /// The four things that are laid out are.
    Formats,
    /// The slots of open files are made.
    Opens,
    /// Names are parsed.
    Names,
    /// Paths are parsed.
    Paths,
    /// The script behind the first line is parsed.
    Script,
    /// Requests and answers are copied.
    Copies,
    /// Volumes are made, and runs of calls and of steps on them.
    Volume,
    /// A Read, a List and the bytes of the ifile are asked for.
    Shows,
    /// Files of the plain store are changed.
    Plain,
    /// Plans are split, and answers, a cleaner's and a report are printed.
    Texts,
}

/// Each word as it is spelled.
const WORDS: [(&[u8], Word); 15] = [
    (b"run", Word::Run),
    (b"threads", Word::Threads),
    (b"serve", Word::Serve),
    (b"frames", Word::Frames),
    (b"cache", Word::Cache),
    (b"formats", Word::Formats),
    (b"opens", Word::Opens),
    (b"names", Word::Names),
    (b"paths", Word::Paths),
    (b"script", Word::Script),
    (b"copies", Word::Copies),
    (b"volume", Word::Volume),
    (b"shows", Word::Shows),
    (b"plain", Word::Plain),
    (b"texts", Word::Texts),
];

/// The most bytes of a first line that are read.
const LINE_MAX: usize = 32;

/// The number and the word in the first line.
pub(crate) fn first_line<R: Read>(reader: &mut R) -> Option<(u32, Word)> {
    let mut count = 0u32;
    let mut spelled = [0u8; LINE_MAX];
    let mut length = 0usize;
    let mut is_number = true;
    for _ in 0..LINE_MAX {
        match next_byte(reader)? {
            b'\n' => return Some((count, word_of(spelled.get(..length)?)?)),
            b' ' => is_number = false,
            digit if is_number => count = with_digit(count, digit),
            letter => {
                *spelled.get_mut(length)? = letter;
                length = length.saturating_add(1);
            }
        }
    }
    None
}

/// The next byte; none at the end, and where reading fails.
fn next_byte<R: Read>(reader: &mut R) -> Option<u8> {
    let mut byte = [0u8; 1];
    match reader.read(&mut byte) {
        Ok(1) => Some(byte[0]),
        _ => None,
    }
}

/// A number with one more digit.
fn with_digit(number: u32, digit: u8) -> u32 {
    number
        .saturating_mul(10)
        .saturating_add(u32::from(digit % 16))
}

/// The word that is spelled so.
fn word_of(spelled: &[u8]) -> Option<Word> {
    for (text, word) in &WORDS {
        if *text == spelled {
            return Some(*word);
        }
    }
    None
}
