//! Whether a volume is well, and that it is saved.

ghost use Rattle.std.specs.Prelude.{◌≡◌, ◌≢◌, ◌∷◌, ◌++◌, [], codes, IfOk, MatchResult};
ghost use Rattle.lfs_volume.specs.Cleanings.{cleaner_of};
ghost use Rattle.lfs_volume.specs.Journals.{AtPresent};
ghost use Rattle.lfs_live.specs.Saving.{IsFaultTold, Saves, Syncs};
ghost use Rattle.lfs_live.specs.Talkers.{talker_of};

use crate::telling::tell_fault;
use crate::watch::{Watch, WatchFault};
use lfs_checking::standing::ChecksLog;
use lfs_hearing::fault::{LineFault, Place};
use lfs_types::answer::{Answer, Resource, Served};
use lfs_types::cleaned::CleanedStore;
use lfs_types::request::Request;
use lfs_view::shows::ShowsLog;
use lfs_volume::volume::Volume;
use lfs_words::caller::first_caller;
use std::alloc::{AllocError, Global};

/// What a check tells of a volume.
pub(crate) fn check<F: ChecksLog + Drop>(
    alloc: Global,
    volume: &Volume<F>,
) -> Result<Vec<u8>, AllocError>
    ensures { IfOk result (λ text. AtPresent F.state volume.now
        (λ w. F.checked volume.now.store text.items)) }
{
    // By its clause the store shows a tree.
    let _journal = volume.journal();
    volume.store().check(alloc, volume.level())
}

/// Saves a volume behind a Sync, where there is a file for it, and gives what is told of that.
pub(crate) fn save<F: CleanedStore + ShowsLog + ChecksLog + Drop, V: Watch<F>>(
    alloc: Global,
    volume: &mut Volume<F>,
    watch: &V,
    number: u64,
) -> Result<Vec<u8>, AllocError>
    ensures { IfOk result (λ text. Saves
        (talker_of (cleaner_of F.state F.is_flushed F.made F.cleaner)
        F.map_text F.segment_text F.space_text F.checked V.kept)
        number volume.old volume.new text.items) }
{
    if !watch.has_file() {
        return tell_unsaved(alloc, number, LineFault::NoImage, ": --image names no file");
    }
    if let Err(why) = sync(volume) {
        return tell_unsaved(alloc, number, LineFault::Unsynced, why);
    }
    match watch.keep(alloc, volume.store(), volume.level()) {
        Ok(()) => tell_saved(alloc),
        Err(why) => tell_unsaved(alloc, number, LineFault::Unsaved, unkept_text(why)),
    }
}

/// Makes a Sync of the superuser as session 0, which is entered. Why it isn't done.
fn sync<F: CleanedStore + Drop>(volume: &mut Volume<F>) -> Result<(), &'static str>
    ensures { (answer : Answer)
        × Syncs (cleaner_of F.state F.is_flushed F.made F.cleaner) volume.old volume.new answer
        × MatchResult result
        (λ _. (answer ≡ Answer.Served Served.Done) × F.is_flushed volume.new.store)
        (λ _. answer ≢ Answer.Served Served.Done) }
{
    let answer = volume.call(0, &first_caller(), Request::Sync);
    let outcome = outcome_of(&answer);
    drop(answer);
    outcome
}

/// Why a call is not done.
fn outcome_of(answer: &Answer) -> Result<(), &'static str>
    ensures { MatchResult result (λ _. answer.now ≡ Answer.Served Served.Done)
        (λ _. answer.now ≢ Answer.Served Served.Done) }
{
    match answer {
        Answer::Served(Served::Done) => Ok(()),
        Answer::Refused(Resource::JournalFull) => Err(": the journal is full"),
        Answer::Refused(Resource::NoSpace) => Err(": no space for what waits"),
        Answer::Refused(Resource::NoMemory) => Err(": no memory"),
        _ => Err(": not synced"),
    }
}

/// Why a volume is not kept.
fn unkept_text(why: WatchFault) -> &'static str {
    match why {
        WatchFault::Unwritten => ": the image is not written",
        WatchFault::Memory => ": no memory",
    }
}

/// What is told where a volume is saved.
fn tell_saved(alloc: Global) -> Result<Vec<u8>, AllocError>
    ensures { IfOk result (λ text. text.items ≡ codes "saved\n") }
{
    let mut text = Vec::new(alloc);
    text.extend_from_slice(b"saved\n")?;
    Ok(text)
}

/// The line of a fault, behind which stands why.
fn tell_unsaved(
    alloc: Global,
    number: u64,
    fault: LineFault,
    why: &str,
) -> Result<Vec<u8>, AllocError>
    ensures { IfOk result (λ text. IsFaultTold number fault text.items) }
{
    let place = Place::told(alloc, why)?;
    let text = tell_fault(alloc, number, fault, &place);
    drop(place);
    text
}
