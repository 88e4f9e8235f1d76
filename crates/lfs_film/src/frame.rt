//! The text of a frame.

ghost use Rattle.std.specs.Prelude.{◌≡◌, ◌++◌, map, IfOk, OnOk};
ghost use Rattle.std.specs.List.{flat_map};
ghost use Rattle.lfs_film.specs.Frames.{begun_text, frame_end, item};

use crate::quoting::push_quoted;
use lfs_words::append::push_decimal;
use std::alloc::{AllocError, Global};

/// A frame up to its end: a line of JSON, a list of a number and texts.
pub(crate) fn begin(
    alloc: Global,
    number: u64,
    head: &[&[u8]],
    rows: &[&[u8]],
) -> Result<Vec<u8>, AllocError>
    ensures { IfOk result (λ text. text.items
        ≡ begun_text number (map (λ x. x.now) head.now ++ map (λ x. x.now) rows.now)) }
{
    let mut text = Vec::new(alloc);
    text.push(b'[')?;
    push_decimal(&mut text, number)?;
    push_items(&mut text, head)?;
    push_items(&mut text, rows)?;
    Ok(text)
}

/// Appends the end of a frame.
pub(crate) fn end(out: &mut Vec<u8>) -> Result<(), AllocError>
    ensures { OnOk result (out.new.items ≡ out.old.items ++ frame_end) }
{
    out.extend_from_slice(b"]\n")
}

/// Appends texts, each behind a comma.
fn push_items(out: &mut Vec<u8>, texts: &[&[u8]]) -> Result<(), AllocError>
    ensures { OnOk result (out.new.items
        ≡ out.old.items ++ flat_map item (map (λ x. x.now) texts.now)) }
{
    for text in texts {
        push_item(out, text)?;
    }
    Ok(())
}

/// Appends a text behind a comma.
pub(crate) fn push_item(out: &mut Vec<u8>, text: &[u8]) -> Result<(), AllocError>
    ensures { OnOk result (out.new.items ≡ out.old.items ++ item text.now) }
{
    out.push(b',')?;
    push_quoted(out, text)
}
