//! Whether the cleaner's call may come to what an entry tells.

ghost use Rattle.std.specs.Prelude.{◌↔◌, IsTrue};
ghost use Rattle.lfs_model.specs.Cleaning.{IsCleaning, MayDo, MayFault};

use lfs_model::journal::{CleanerKind, CleanerOutcome};
use lfs_types::cleaner::{CleanFault, INFO_LIMIT, MARK_LIMIT};
use lfs_types::cred::Cred;

/// Whether a call of the cleaner by this caller may come to this, on a volume of so many inode numbers and segments.
pub fn is_cleaning(
    numbers: u32,
    segments: u32,
    cred: &Cred,
    kind: CleanerKind,
    outcome: CleanerOutcome,
) -> bool
    ensures { IsTrue result ↔ IsCleaning numbers segments cred.now kind outcome }
{
    match outcome {
        CleanerOutcome::Denied => !cred.is_superuser(),
        CleanerOutcome::Fault(fault) => cred.is_superuser() && may_fault(kind, fault),
        CleanerOutcome::Done(count) => {
            cred.is_superuser() && may_do(numbers, segments, kind, count)
        }
    }
}

/// Whether a call of the cleaner has this fault.
fn may_fault(kind: CleanerKind, fault: CleanFault) -> bool
    ensures { IsTrue result ↔ MayFault kind fault }
{
    match kind {
        CleanerKind::Ifile | CleanerKind::Bmapv => false,
        CleanerKind::Infos => matches!(
            fault,
            CleanFault::NoSuchSegment | CleanFault::Active | CleanFault::NotDirty
        ),
        CleanerKind::Markv => matches!(fault, CleanFault::NoSpace),
        CleanerKind::Segclean => !matches!(fault, CleanFault::NoSpace | CleanFault::NotGainful),
        CleanerKind::Gain => matches!(fault, CleanFault::NotGainful),
    }
}

/// Whether a call of the cleaner may have done so much.
fn may_do(numbers: u32, segments: u32, kind: CleanerKind, count: u32) -> bool
    ensures { IsTrue result ↔ MayDo numbers segments kind count }
{
    match kind {
        CleanerKind::Ifile => {
            u64::from(count) == 12 + 8 * u64::from(segments) + 12 * u64::from(numbers)
        }
        CleanerKind::Infos | CleanerKind::Bmapv => count as usize <= INFO_LIMIT,
        CleanerKind::Markv => count as usize <= MARK_LIMIT,
        CleanerKind::Segclean | CleanerKind::Gain => count == 0,
    }
}
