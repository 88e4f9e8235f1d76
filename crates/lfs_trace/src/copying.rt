//! A plain store with the content of another.

ghost use Rattle.std.specs.Prelude.{◌≡◌, ◌*◌, ◌≤◌, ◌<◌, ◌++◌, [], ◌∷◌, length, take, IfOk, OnOk, IsSome, IsSomeAnd, Some, ℕ};
ghost use Rattle.std.specs.FinMap as map;
ghost use Rattle.std.specs.Vec.{vec_len};
ghost use Rattle.lfs_types.specs.Changes.{CanApply, IsLength, applied, changed_at};
ghost use Rattle.lfs_types.specs.Splicing.{splice};
ghost use Rattle.lfs_types.specs.Stored.{bytes_of, slice_of};
ghost use Rattle.lfs_types.specs.Tree.{File, attrs_of, file_of, opening_content};
ghost use Rattle.lfs_types.specs.declared.attrs.Attrs.{Attrs};
ghost use Rattle.lfs_flatfiles.specs.FlatFiles.{content_of};
ghost use Rattle.lfs_trace.specs.Copying.{CanCopy, IsCopiedAt, MayBegin};

use lfs_flatfiles::flat_files::FlatFiles;
use lfs_types::attrs::Attrs;
use lfs_types::fault::FormatFault;
use lfs_types::limits::ROOT_INODE;
use lfs_types::store::{Change, FileStore, Reserve};
use std::alloc::{AllocError, Global};

/// How many bytes are copied at once: as many as changes may put.
const PIECE: usize = 4096;

/// A plain store with so many inode numbers and the content of another store, which stays as it is.
pub(crate) fn copy_of<F: FileStore>(
    alloc: Global,
    store: &mut F,
    numbers: u32,
) -> Result<FlatFiles, FormatFault>
    requires { CanCopy numbers (F.state store.old).content }
    ensures content { IfOk result (λ files. content_of files.places.items
        ≡ (F.state store.old).content) }
    ensures numbers { IfOk result (λ files. vec_len files.places ≡ numbers) }
    ensures state { F.state store.new ≡ F.state store.old }
{
    let mut files = FlatFiles::new(alloc, numbers)?;
    for number in 0..numbers {
        copy_file(store, &mut files, number)?;
    }
    Ok(files)
}

/// Copies the file of a number, if it has one.
fn copy_file<F: FileStore>(
    store: &mut F,
    files: &mut FlatFiles,
    number: u32,
) -> Result<(), AllocError>
    requires can { CanCopy (vec_len files.old.places) (F.state store.old).content }
    requires fresh { map.get (content_of files.old.places.items) number
        ≡ map.get opening_content number }
    ensures copied { OnOk result (IsCopiedAt number (F.state store.old).content
        (content_of files.old.places.items) (content_of files.new.places.items)) }
    ensures numbers { vec_len files.new.places ≡ vec_len files.old.places }
    ensures state { F.state store.new ≡ F.state store.old }
{
    match store.attrs(number) {
        None => Ok(()),
        Some(attrs) => {
            let size = attrs.size;
            begin_file(files, number, attrs)?;
            put_file(store, files, number, size)
        }
    }
}

/// Gives a number an empty file of these attributes.
fn begin_file(files: &mut FlatFiles, number: u32, attrs: Attrs) -> Result<(), AllocError>
    requires { MayBegin (vec_len files.old.places) number attrs
        (content_of files.old.places.items) }
    ensures begun { OnOk result (content_of files.new.places.items
        ≡ map.insert (content_of files.old.places.items) number (file_of attrs [])) }
    ensures numbers { vec_len files.new.places ≡ vec_len files.old.places }
{
    let ino = number;
    if ino == ROOT_INODE {
        apply(files, &[Change::SetAttrs { ino, attrs }])
    } else {
        apply(files, &[Change::Make { ino, attrs }])
    }
}

/// Puts the bytes of a file into that of its number, which is empty.
fn put_file<F: FileStore>(
    store: &mut F,
    files: &mut FlatFiles,
    number: u32,
    size: u64,
) -> Result<(), AllocError>
    requires file { (f : File) × (map.get (F.state store.old).content number ≡ Some f)
        × (size ≡ length f.bytes) × IsLength f.kind (length f.bytes)
        × (map.get (content_of files.old.places.items) number ≡ Some (file_of (attrs_of f) [])) }
    ensures copied { OnOk result (IsCopiedAt number (F.state store.old).content
        (content_of files.old.places.items) (content_of files.new.places.items)) }
    ensures numbers { vec_len files.new.places ≡ vec_len files.old.places }
    ensures state { F.state store.new ≡ F.state store.old }
{
    for piece in 0..size.div_ceil(PIECE as u64) {
        copy_piece(store, files, number, piece * PIECE as u64)?;
    }
    Ok(())
}

/// Puts the bytes of a file from `off` on, at most 4,096, into that of its number, at the same place.
fn copy_piece<F: FileStore>(
    store: &mut F,
    files: &mut FlatFiles,
    number: u32,
    off: u64,
) -> Result<(), AllocError>
    requires used { IsSome (map.get (F.state store.old).content number) }
    requires file { IsSomeAnd (map.get (content_of files.old.places.items) number)
        (λ f. IsLength f.kind (length (splice f.bytes off
        (slice_of (bytes_of (F.state store.old).content number) off 4096)))) }
    ensures put { OnOk result (content_of files.new.places.items
        ≡ changed_at (map.get (content_of files.old.places.items) number) number
        (λ f. record f {
          bytes = splice f.bytes off
              (slice_of (bytes_of (F.state store.old).content number) off 4096);
        })
        (content_of files.old.places.items)) }
    ensures numbers { vec_len files.new.places ≡ vec_len files.old.places }
    ensures state { F.state store.new ≡ F.state store.old }
{
    let mut buffer = [0; PIECE];
    let count = store.read(number, off, &mut buffer);
    let bytes = &buffer[..count];
    put(files, number, off, bytes)
}

/// Puts bytes, at most 4,096, into the file of a number.
fn put(files: &mut FlatFiles, ino: u32, off: u64, bytes: &[u8]) -> Result<(), AllocError>
    requires few { length bytes.now ≤ 4096 }
    requires file { IsSomeAnd (map.get (content_of files.old.places.items) ino)
        (λ f. IsLength f.kind (length (splice f.bytes off bytes.now))) }
    ensures put { OnOk result (content_of files.new.places.items
        ≡ changed_at (map.get (content_of files.old.places.items) ino) ino
        (λ f. record f { bytes = splice f.bytes off bytes.now })
        (content_of files.old.places.items)) }
    ensures numbers { vec_len files.new.places ≡ vec_len files.old.places }
{
    apply(files, &[Change::Put { ino, off, bytes }])
}

/// Makes changes.
fn apply(files: &mut FlatFiles, changes: &[Change<'_>]) -> Result<(), AllocError>
    requires { CanApply (vec_len files.old.places) changes.now (content_of files.old.places.items) }
    ensures changed { OnOk result (content_of files.new.places.items
        ≡ applied changes.now (content_of files.old.places.items)) }
    ensures numbers { vec_len files.new.places ≡ vec_len files.old.places }
{
    match files.apply(changes, Reserve::Users) {
        Ok(()) => Ok(()),
        Err(_) => Err(AllocError),
    }
}
