//! Whose the blocks are that a line wrote.

ghost use Rattle.std.specs.Prelude.{◌≡◌, ◌++◌, IfOk, OnOk};
ghost use Rattle.std.specs.List.{flat_map};
ghost use Rattle.lfs_film.specs.Frames.{changed_owner, changed_owners, item, told_owners};

use crate::changed::row_at;
use crate::frame::push_item;
use lfs_view::rows::Row;
use lfs_words::append::push_decimal;
use std::alloc::{AllocError, Global};

/// What begins a text that goes on.
const MORE: u8 = b'+';

/// What begins a text that is another.
const ANOTHER: u8 = b'=';

/// Appends, for each segment whose blocks' owners are others than before, what is new.
pub(crate) fn push_owners(
    alloc: Global,
    out: &mut Vec<u8>,
    old: &[Row],
    new: &[Row],
) -> Result<(), AllocError>
    ensures { OnOk result (out.new.items
        ≡ out.old.items ++ flat_map item (changed_owners old.now new.now)) }
{
    for number in 0..new.len() {
        push_changed(alloc, out, number, row_at(old, number), row_at(new, number))?;
    }
    Ok(())
}

/// Appends what is new in a segment of this number, if anything is.
fn push_changed(
    alloc: Global,
    out: &mut Vec<u8>,
    number: usize,
    old: &[u8],
    new: &[u8],
) -> Result<(), AllocError>
    ensures { OnOk result (out.new.items
        ≡ out.old.items ++ flat_map item (changed_owner number old.now new.now)) }
{
    if old == new {
        return Ok(());
    }
    let text = match new.strip_prefix(old) {
        Some(more) => told_owners(alloc, MORE, number, more)?,
        None => told_owners(alloc, ANOTHER, number, new)?,
    };
    push_item(out, text.as_slice())
}

/// A sign, a number, and behind a space a text.
fn told_owners(alloc: Global, sign: u8, number: usize, text: &[u8]) -> Result<Vec<u8>, AllocError>
    ensures { IfOk result (λ told. told.items ≡ told_owners sign number text.now) }
{
    let mut told = Vec::new(alloc);
    told.push(sign)?;
    push_decimal(&mut told, number as u64)?;
    told.push(b' ')?;
    told.extend_from_slice(text)?;
    Ok(told)
}
