//! A row for a name, of what a Stat of it was answered.

ghost use Rattle.std.specs.Prelude.{◌≡◌, ◌∷◌, ◌++◌, OnOk};
ghost use Rattle.lfs_print.specs.AnswerText.{attrs_words, kind_word};
ghost use Rattle.lfs_words.specs.Wording.{spaced};
ghost use Rattle.lfs_browse.specs.Listing.{more_text, row_text, row_words};

use lfs_print::print::push_answer;
use lfs_types::answer::{Answer, Served};
use lfs_types::attrs::{Attrs, Kind};
use lfs_types::name::Name;
use lfs_words::append::{push_flags, push_mode, push_name, push_number, push_word};
use std::alloc::AllocError;

/// Appends the row of a name.
pub(crate) fn push_row(out: &mut Vec<u8>, name: &Name, answer: &Answer) -> Result<(), AllocError>
    ensures { OnOk result (out.new.items ≡ out.old.items ++ row_text name.now answer.now) }
{
    push_row_words(out, answer)?;
    push_name(out, name)?;
    out.extend_from_slice(b"\n")
}

/// Appends what a Stat was answered.
fn push_row_words(out: &mut Vec<u8>, answer: &Answer) -> Result<(), AllocError>
    ensures { OnOk result (out.new.items ≡ out.old.items ++ spaced (row_words answer.now)) }
{
    match answer {
        Answer::Served(Served::Stat(_, attrs)) => push_stat(out, attrs),
        _ => push_answer(out, answer),
    }
}

/// Appends the kind, the owner, the group, the mode, the flags and the length of a file.
fn push_stat(out: &mut Vec<u8>, attrs: &Attrs) -> Result<(), AllocError>
    ensures { OnOk result (out.new.items
        ≡ out.old.items ++ spaced (kind_word attrs.now.kind ∷ attrs_words attrs.now)) }
{
    push_word(out, kind_word(attrs.kind))?;
    push_number(out, u64::from(attrs.uid))?;
    push_number(out, u64::from(attrs.gid))?;
    push_mode(out, attrs.mode)?;
    push_flags(out, attrs.flags)?;
    push_number(out, attrs.size)
}

/// The word of a kind of file.
fn kind_word(kind: Kind) -> &'static str
    ensures { result.now ≡ kind_word kind }
{
    match kind {
        Kind::File => "file",
        Kind::Directory => "dir",
    }
}

/// Appends how many names have no row, where there are some.
pub(crate) fn push_more(out: &mut Vec<u8>, count: usize) -> Result<(), AllocError>
    ensures { OnOk result (out.new.items ≡ out.old.items ++ more_text count) }
{
    if count == 0 {
        return Ok(());
    }
    push_number(out, count as u64)?;
    out.extend_from_slice(b" more, which list tells\n")
}
