//! Words in columns.

ghost use Rattle.std.specs.Prelude.{◌≡◌, ◌++◌, decimal, replicate, OnOk};
ghost use Rattle.lfs_view.specs.MapText.{right};

use itoa::Buffer;
use std::alloc::AllocError;

/// Appends so many spaces.
fn push_spaces(out: &mut Vec<u8>, count: usize) -> Result<(), AllocError>
    ensures { OnOk result (out.new.items ≡ out.old.items ++ replicate count 32) }
{
    for _ in 0..count {
        out.push(b' ')?;
    }
    Ok(())
}

/// Appends a word at the right of so many columns.
pub(crate) fn push_right(out: &mut Vec<u8>, word: &str, width: usize) -> Result<(), AllocError>
    ensures { OnOk result (out.new.items ≡ out.old.items ++ right width word.now) }
{
    push_spaces(out, width.saturating_sub(word.len()))?;
    out.extend_from_slice(word.as_bytes())
}

/// Appends a number at the right of so many columns.
pub(crate) fn push_right_number(
    out: &mut Vec<u8>,
    number: u32,
    width: usize,
) -> Result<(), AllocError>
    ensures { OnOk result (out.new.items ≡ out.old.items ++ right width (decimal number)) }
{
    let mut buffer = Buffer::new();
    push_right(out, buffer.format(number), width)
}
