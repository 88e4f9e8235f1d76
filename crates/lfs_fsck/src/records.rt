//! The record of each number.

ghost use Rattle.std.specs.Prelude.{◌≡◌, ◌≢◌, ◌↔◌, ◌<◌, Some, IfErr, IfOk, IsTrue, OnOk, length};
ghost use Rattle.lfs_types.specs.declared.limits.TheConstants.{FIRST_INODE, ROOT_INODE};
ghost use Rattle.lfs_ifile.specs.Tables.{place_of};
ghost use Rattle.lfs_log.specs.Parts.{IsParts};
ghost use Rattle.lfs_fsck.specs.Checks.{IsRecordOf};
ghost use Rattle.lfs_fsck.specs.Faults.{IsFileFaultOf};

use crate::fault::LogFault;
use lfs_ifile::InodePlace;
use lfs_inodes::inode::Inode;
use lfs_log::Log;
use lfs_log::packing::inode_in;
use lfs_types::limits::{FIRST_INODE, ROOT_INODE};

/// Whether a number is below those of files, and isn't the root's.
fn is_reserved(number: u32) -> bool
    ensures { IsTrue result ↔ (number < FIRST_INODE) × (number ≢ ROOT_INODE) }
{
    number < FIRST_INODE && number != ROOT_INODE
}

/// Whether a record is of a number at a version.
fn is_of(inode: &Inode, number: u32, version: u32) -> bool
    ensures { IsTrue result ↔ (inode.now.number ≡ number) × (inode.now.version ≡ version) }
{
    inode.number == number && inode.version == version
}

/// The record that the log has of a number in use, whose place this is: Reserved where the number is reserved, NoRecord
/// where none stands there, OtherRecord where one of another number or version does.
pub(crate) fn record_of(log: &Log, number: u32, place: InodePlace) -> Result<Inode, LogFault>
    requires parts { IsParts log.now }
    requires below { number < length log.now.tables.rows }
    requires here { place_of log.now.tables number ≡ Some place }
    ensures record { IfOk result (IsRecordOf log.now) }
    ensures number { IfOk result (λ inode. inode.number ≡ number) }
    ensures allowed { OnOk result (number < FIRST_INODE → number ≡ ROOT_INODE) }
    ensures fault { IfErr result (IsFileFaultOf log.now) }
{
    if is_reserved(number) {
        return Err(LogFault::Reserved { number });
    }
    let Some(inode) = inode_in(log.block(place.addr), place.slot as usize) else {
        return Err(LogFault::NoRecord { number });
    };
    if is_of(&inode, number, place.version) {
        Ok(inode)
    } else {
        Err(LogFault::OtherRecord { number })
    }
}
