//! A look at a path.

ghost use Rattle.std.specs.Prelude.{[], IfOk, OnOk};
ghost use Rattle.lfs_volume.specs.Cleanings.{cleaner_of};
ghost use Rattle.lfs_browse.specs.Looks.{TellsLook};

use crate::content::tell_content;
use crate::listing::tell_listing;
use crate::walk::tell_tree;
use lfs_audit::asker::Asker;
use lfs_hearing::look::Look;
use lfs_types::cleaned::CleanedStore;
use lfs_types::path::Path;
use lfs_volume::volume::Volume;
use std::alloc::{AllocError, Global};

/// Looks at a path by calls of one caller, at most 107, each judged by the rules and entered as any, and gives what is
/// told of their answers.
///
/// # Errors
///
/// Memory ran out; some of the calls may have been made.
pub fn tell_look<F: CleanedStore + Drop>(
    alloc: Global,
    volume: &mut Volume<F>,
    asker: &Asker,
    look: Look,
    path: &Path,
) -> Result<Vec<u8>, AllocError>
    ensures { IfOk result (λ text. TellsLook (cleaner_of F.state F.is_flushed F.made F.cleaner)
        volume.old volume.new asker.now look path.now [] text.items) }
{
    let mut text = Vec::new(alloc);
    push_look(volume, asker, look, path, &mut text)?;
    Ok(text)
}

/// Looks at a path, and appends what is told of it.
fn push_look<F: CleanedStore + Drop>(
    volume: &mut Volume<F>,
    asker: &Asker,
    look: Look,
    path: &Path,
    text: &mut Vec<u8>,
) -> Result<(), AllocError>
    ensures { OnOk result (TellsLook (cleaner_of F.state F.is_flushed F.made F.cleaner)
        volume.old volume.new asker.now look path.now text.old.items text.new.items) }
{
    match look {
        Look::Listing => tell_listing(volume, asker, path, text),
        Look::Content => tell_content(volume, asker, path, text),
        Look::Tree => tell_tree(volume, asker, path, text),
    }
}
