//! Writing the image of a store.

ghost use Rattle.std.specs.Prelude.{◌≡◌, IfOk, OnOk};
ghost use Rattle.std.specs.Io.KnownBytes.{Appends};
ghost use Rattle.lfs_parts.specs.Store.{IsFlushed};
ghost use Rattle.lfs_image.specs.Image.{image_bytes};

use crate::fault::CheckFault;
use lfs_image::save;
use lfs_io::output::{flush, write_text};
use lfs_logstore::LogStore;
use lfs_types::level::Level;
use std::alloc::{AllocError, Global};
use std::io::Write;

/// Writes the image of a store of which nothing waits, as behind a Sync, and of a securelevel. It takes memory for the
/// whole image.
///
/// # Errors
///
/// `Write` where the writer fails; `Memory`.
pub fn save_volume<W: Write>(
    alloc: Global,
    store: &LogStore,
    level: Level,
    writer: &mut W,
) -> Result<(), CheckFault>
    requires { IsFlushed store.now }
    ensures { OnOk result (Appends (W.contents writer.old) (W.contents writer.new)
        (image_bytes store.now.log level)) }
{
    let image = image_of(alloc, store, level)?;
    write_text(writer, image.as_slice())?;
    flush(writer)?;
    Ok(())
}

/// The image of a store and a securelevel.
pub(crate) fn image_of(alloc: Global, store: &LogStore, level: Level) -> Result<Vec<u8>, AllocError>
    ensures { IfOk result (λ image. image.items ≡ image_bytes store.now.log level) }
{
    let mut image = Vec::new(alloc);
    save(&store.parts().log, level, &mut image)?;
    Ok(image)
}
