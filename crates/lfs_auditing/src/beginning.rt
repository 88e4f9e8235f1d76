//! Where the journal begins that is audited.

ghost use Rattle.std.specs.Prelude.{◌≡◌, IfOk};
ghost use Rattle.lfs_auditing.specs.Beginnings.{IsBegun, IsBegunBy, IsReadFrom};

use crate::audit::Audit;
use crate::fault::AuditFault;
use crate::options::Options;
use lfs_checking::fault::{CheckFault, KeepFault};
use lfs_checking::reading::read_image;
use lfs_checking::volume::load_volume;
use lfs_logstore::LogStore;
use lfs_trace::errors::Denials;
use lfs_types::level::Level;
use lfs_types::limits::LEAST_FRAMES;
use std::alloc::Global;
use std::fs::File;
use std::io::Read;
use std::rt::Files;

/// An audit that has read nothing: from the tree of the volume whose image a file has, where one is named, else from
/// that of a fresh volume.
///
/// # Errors
///
/// `Image` where the file can't be read, or what it has is the image of no volume; `Memory`.
pub(crate) fn begin<F: Files>(
    files: &F,
    alloc: Global,
    options: &Options<'_>,
) -> Result<Audit, AuditFault>
    ensures { IfOk result (IsBegun F.File.remaining options.now) }
{
    let Some(path) = options.from else {
        let audit = Audit::new(alloc, options.inodes, options.segments, options.denials)?;
        return Ok(audit);
    };
    match File::open(files, path) {
        Ok(mut file) => from_image(alloc, &mut file, options.denials),
        Err(_) => Err(AuditFault::Image(KeepFault::Read(CheckFault::Open))),
    }
}

/// An audit from the tree of the volume whose image a reader has, which compares so much of denials.
fn from_image<R: Read>(alloc: Global, reader: &mut R, denials: Denials) -> Result<Audit, AuditFault>
    ensures begun { IfOk result (IsBegunBy (R.remaining reader.old)) }
    ensures denials { IfOk result (λ audit. audit.denials ≡ denials) }
{
    let (mut store, level) = load(alloc, reader)?;
    let audit = Audit::over(alloc, &mut store, level, denials)?;
    Ok(audit)
}

/// The store and the securelevel of the volume whose image a reader has.
fn load<R: Read>(alloc: Global, reader: &mut R) -> Result<(LogStore, Level), KeepFault>
    ensures { IfOk result (λ both. IsReadFrom (R.remaining reader.old) both.0 both.1) }
{
    let bytes = read_image(alloc, reader)?;
    let both = load_volume(alloc, bytes.as_slice(), LEAST_FRAMES)?;
    Ok(both)
}
