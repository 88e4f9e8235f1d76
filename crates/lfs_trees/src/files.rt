//! Each file by itself: its number and its length.

ghost use Rattle.std.specs.Prelude.{◌≡◌, ◌↔◌, IsTrue, IfErr, OnOk};
ghost use Rattle.lfs_types.specs.Changes.{IsLength};
ghost use Rattle.lfs_types.specs.Tree.{root};
ghost use Rattle.lfs_calls.specs.Content.{IsDirectoryAt};
ghost use Rattle.lfs_trees.specs.Faults.{IsBelow, IsTreeFaultOf};
ghost use Rattle.lfs_trees.specs.Files.{AreFiles, IsNumberFault, MayStand};

use crate::fault::TreeFault;
use lfs_types::attrs::{Attrs, Kind};
use lfs_types::block::BLOCK_SIZE;
use lfs_types::limits::{FILE_BYTES, FIRST_INODE, ROOT_INODE};
use lfs_types::store::FileStore;

/// Root where the root isn't a directory.
pub(crate) fn check_root<F: FileStore>(store: &F) -> Result<(), TreeFault>
    ensures ok { OnOk result (IsDirectoryAt (F.state store.now).content root) }
    ensures fault { IfErr result (IsTreeFaultOf (F.state store.now).content) }
{
    match store.attrs(ROOT_INODE) {
        Some(attrs) if attrs.kind.is_directory() => Ok(()),
        _ => Err(TreeFault::Root),
    }
}

/// Reserved or Length at the first of the numbers that has a file that may not stand there.
pub(crate) fn check_files<F: FileStore>(store: &F, numbers: u32) -> Result<(), TreeFault>
    requires { IsBelow numbers (F.state store.now).content }
    ensures ok { OnOk result (AreFiles (F.state store.now).content) }
    ensures fault { IfErr result (IsTreeFaultOf (F.state store.now).content) }
{
    for number in 0..numbers {
        if let Some(attrs) = store.attrs(number) {
            check_file(number, &attrs)?;
        }
    }
    Ok(())
}

/// Reserved or Length where a file of these attributes may not have this number.
fn check_file(number: u32, attrs: &Attrs) -> Result<(), TreeFault>
    ensures ok { OnOk result (MayStand number attrs.now.kind attrs.now.size) }
    ensures fault { IfErr result (IsNumberFault number attrs.now) }
{
    if number < FIRST_INODE && number != ROOT_INODE {
        return Err(TreeFault::Reserved { number });
    }
    if !is_length(attrs.kind, attrs.size) {
        return Err(TreeFault::Length { number });
    }
    Ok(())
}

/// Whether a file of this kind may have so many bytes.
fn is_length(kind: Kind, size: u64) -> bool
    ensures { IsTrue result ↔ IsLength kind size }
{
    match kind {
        Kind::File => size <= FILE_BYTES,
        Kind::Directory => size <= FILE_BYTES && size % BLOCK_SIZE as u64 == 0,
    }
}
