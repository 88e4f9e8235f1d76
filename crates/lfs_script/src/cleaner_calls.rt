//! Calls of the cleaner in scripts.

ghost use Rattle.std.specs.Prelude.{◌≡◌, map};
ghost use Rattle.lfs_script.specs.CleanerCalls.{cleaner_said, segment_of};
ghost use Rattle.lfs_words.specs.Faults.{ReadsAs};

use crate::plan::HeldCall;
use lfs_model::journal::CleanerKind;
use lfs_types::cleaner::CleanerCall;
use lfs_words::fault::FaultKind;
use lfs_words::info::infos;
use lfs_words::number::short_decimal;
use lfs_words::words::{no_word, one_word};
use std::alloc::Global;

/// The call of this kind that the words behind its name ask for, in memory of its own.
pub fn held_call(alloc: Global, kind: CleanerKind, words: &[&str]) -> Result<HeldCall, FaultKind>
    ensures { ReadsAs (cleaner_said kind (map (λ x. x.now) words.now)) result }
{
    let call = cleaner_call(alloc, kind, words)?;
    Ok(HeldCall::new(alloc, call)?)
}

/// The call of this kind that the words behind its name ask for.
fn cleaner_call(alloc: Global, kind: CleanerKind, words: &[&str]) -> Result<CleanerCall, FaultKind>
    ensures { ReadsAs (cleaner_said kind (map (λ x. x.now) words.now)) result }
{
    match kind {
        CleanerKind::Ifile => {
            no_word(words)?;
            Ok(CleanerCall::Ifile)
        }
        CleanerKind::Infos => Ok(CleanerCall::Infos(segment(words)?)),
        CleanerKind::Bmapv => Ok(CleanerCall::Bmapv(infos(alloc, words)?)),
        CleanerKind::Markv => Ok(CleanerCall::Markv(infos(alloc, words)?)),
        CleanerKind::Segclean => Ok(CleanerCall::Segclean(segment(words)?)),
        CleanerKind::Gain => {
            no_word(words)?;
            Ok(CleanerCall::Gain)
        }
    }
}

/// The segment that a lone word spells.
fn segment(words: &[&str]) -> Result<u32, FaultKind>
    ensures { result ≡ segment_of (map (λ x. x.now) words.now) }
{
    short_decimal(one_word(words)?)
}
