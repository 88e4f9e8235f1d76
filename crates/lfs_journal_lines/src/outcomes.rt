//! What came of the cleaner's calls, read back.

ghost use Rattle.std.specs.Prelude.{◌≡◌, map};
ghost use Rattle.lfs_journal_lines.specs.Outcomes.{fault_named, fault_told, outcome_told};

use lfs_model::journal::CleanerOutcome;
use lfs_types::cleaner::CleanFault;
use lfs_words::fault::FaultKind;
use lfs_words::number::short_decimal;
use lfs_words::words::{no_word, one_word};

/// What words tell that came of a call of the cleaner.
pub(crate) fn outcome_told(words: &[&str]) -> Result<CleanerOutcome, FaultKind>
    ensures { result ≡ outcome_told (map (λ x. x.now) words.now) }
{
    let [first, rest @ ..] = words else {
        return Err(FaultKind::Words);
    };
    if *first == "denied" {
        no_word(rest)?;
        return Ok(CleanerOutcome::Denied);
    }
    if *first == "ok" {
        return Ok(CleanerOutcome::Done(short_decimal(one_word(rest)?)?));
    }
    if *first == "fault" {
        return Ok(CleanerOutcome::Fault(fault_told(rest)?));
    }
    Err(FaultKind::Words)
}

/// Why a call of the cleaner did nothing.
fn fault_told(words: &[&str]) -> Result<CleanFault, FaultKind>
    ensures { result ≡ fault_told (map (λ x. x.now) words.now) }
{
    match words {
        [word] => fault_named(word).ok_or(FaultKind::Words),
        [word, bytes] => {
            if *word == "Live" {
                Ok(CleanFault::Live(short_decimal(bytes)?))
            } else {
                Err(FaultKind::Words)
            }
        }
        _ => Err(FaultKind::Words),
    }
}

/// The fault that a lone word names.
fn fault_named(word: &str) -> Option<CleanFault>
    ensures { result ≡ fault_named word.now }
{
    if word == "NoSuchSegment" {
        Some(CleanFault::NoSuchSegment)
    } else if word == "Active" {
        Some(CleanFault::Active)
    } else if word == "NotDirty" {
        Some(CleanFault::NotDirty)
    } else if word == "NoSpace" {
        Some(CleanFault::NoSpace)
    } else if word == "NotGainful" {
        Some(CleanFault::NotGainful)
    } else {
        None
    }
}
