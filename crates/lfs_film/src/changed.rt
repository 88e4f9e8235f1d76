//! Which rows are others than before.

ghost use Rattle.std.specs.Prelude.{◌≡◌, map, IfOk};
ghost use Rattle.lfs_film.specs.Frames.{changed_rows, row_at};

use lfs_view::rows::Row;
use std::alloc::{AllocError, Global};

/// The new rows that aren't the old ones, in order.
pub(crate) fn changed_rows<'a>(
    alloc: Global,
    old: &[Row],
    new: &'a [Row],
) -> Result<Vec<&'a [u8]>, AllocError>
    ensures { IfOk result (λ rows. map (λ x. x.now) rows.items ≡ changed_rows old.now new.now) }
{
    let mut rows = Vec::new(alloc);
    for number in 0..new.len() {
        let row = row_at(new, number);
        if row_at(old, number) != row {
            rows.push(row)?;
        }
    }
    Ok(rows)
}

/// The row of a number: empty where there is none.
pub(crate) fn row_at(rows: &[Row], number: usize) -> &[u8]
    ensures { result.now ≡ row_at rows.now number }
{
    match rows.get(number) {
        Some(row) => row.as_bytes(),
        None => &[],
    }
}
