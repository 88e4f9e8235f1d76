//! Why a line is not done, and how that is told.

ghost use Rattle.std.specs.Prelude.{◌≡◌, ◌++◌, [], IfOk, OnOk};
ghost use Rattle.lfs_script.specs.Places.{place_text};
ghost use Rattle.lfs_hearing.specs.FaultLines.{fault_line, fault_word, kind_word};

use lfs_script::place::push_place;
use lfs_words::append::{push_decimal, push_word};
use lfs_words::fault::FaultKind;
use std::alloc::{AllocError, Global};
use std::marker::Model;

/// Why a line is not done. Nothing changes.
#[derive(Clone, Copy, PartialEq, Eq, Debug)]
pub enum LineFault {
    /// It has more than 65,536 bytes.
    TooLong,
    /// It is no call, for what a script would be refused too.
    Kind(FaultKind),
    /// The volume is to be saved, and there is no file for it.
    NoImage,
    /// The volume is to be saved, and what waits is not written.
    Unsynced,
    /// The volume is to be saved, and the file didn't get it.
    Unsaved,
}

impl LineFault {
    /// Its word.
    pub fn word(self) -> &'static str
        ensures { result.now ≡ fault_word self }
    {
        match self {
            LineFault::TooLong => "TooLong",
            LineFault::Kind(kind) => kind_word(kind),
            LineFault::NoImage => "NoImage",
            LineFault::Unsynced => "Unsynced",
            LineFault::Unsaved => "Unsaved",
        }
    }
}

/// Where a fault stands, and what was expected there, as it is told behind the fault's word.
#[derive(Drop)]
pub struct Place {
    text: Vec<u8>,
}

impl Model for Place {
    ghost use Rattle.std.specs.Prelude.{ℕ, List};

    ghost Value = { List ℕ };

    ghost view = { λ p. p.text.items };
}

impl Place {
    /// None.
    pub fn none(alloc: Global) -> Place
        ensures { result ≡ [] }
    {
        Place {
            text: Vec::new(alloc),
        }
    }

    /// That of the fault of a line of a script, which stands behind so many bytes.
    pub fn of(alloc: Global, before: u64, line: &[u8]) -> Result<Place, AllocError>
        ensures { IfOk result (λ place. place ≡ place_text before line.now) }
    {
        let mut text = Vec::new(alloc);
        push_place(alloc, &mut text, before, line)?;
        Ok(Place { text })
    }

    /// This text.
    pub fn told(alloc: Global, words: &str) -> Result<Place, AllocError>
        ensures { IfOk result (λ place. place ≡ words.now) }
    {
        let mut text = Vec::new(alloc);
        text.extend_from_slice(words.as_bytes())?;
        Ok(Place { text })
    }

    /// The text.
    pub fn text(&self) -> &[u8]
        ensures { result.now ≡ self.now }
    {
        self.text.as_slice()
    }
}

/// The word of what is wrong with a line of a script.
fn kind_word(kind: FaultKind) -> &'static str
    ensures { result.now ≡ kind_word kind }
{
    match kind {
        FaultKind::Cut => "Cut",
        FaultKind::Bytes => "Bytes",
        FaultKind::Words => "Words",
        FaultKind::Many => "Many",
        FaultKind::Number => "Number",
        FaultKind::Range => "Range",
        FaultKind::Path(_) => "Path",
        FaultKind::Hex => "Hex",
        FaultKind::Cred(_) => "Cred",
        FaultKind::Memory => "Memory",
    }
}

/// Appends the line of a fault: its word, the number of the line that has it, and where it stands there.
#[tactic(auto, unfolding(crate::specs::FaultLines::fault_line))]
pub fn push_fault(
    out: &mut Vec<u8>,
    number: u64,
    fault: LineFault,
    place: &Place,
) -> Result<(), AllocError>
    ensures { OnOk result (out.new.items ≡ out.old.items ++ fault_line number fault place.now) }
{
    out.extend_from_slice(b"fault")?;
    push_word(out, fault.word())?;
    out.extend_from_slice(b" line ")?;
    push_decimal(out, number)?;
    out.extend_from_slice(place.text())?;
    out.extend_from_slice(b"\n")
}
