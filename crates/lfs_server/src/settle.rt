//! Whether a volume's journal is an interleaving of what the sessions asked and were answered.

ghost use Rattle.std.specs.Prelude.{◌≡◌, ◌↔◌, ◌≤◌, IsOk, IfErr, length};
ghost use Rattle.lfs_settle.specs.Interleaving.{IsInterleaving, IsLowestToDiffer, run_of};

pub use lfs_settle::entries::Unsettled;
use lfs_settle::entries::{Sessions, settle_entries};
use lfs_types::answer::Answer;
use lfs_types::script::Script;
use lfs_types::store::FileStore;
use lfs_volume::volume::Volume;

/// Whether a volume's journal is an interleaving of a setup and of sessions' scripts with these answers: it begins
/// with the setup as session 0, its later entries of session k are those of the k-th script, and all others are the
/// cleaner's, session 255 as user 0. There is one answer to each call, and one transcript to each script.
pub fn settle<F: FileStore + Drop>(
    volume: &Volume<F>,
    setup: &Script,
    answers: &[Answer],
    scripts: &[Script],
    transcripts: &[Vec<Answer>],
) -> Result<(), Unsettled>
    requires { (length scripts.now ≤ 8) × (length transcripts.now ≤ 8) }
    ensures interleaving { IsOk result ↔ IsInterleaving (run_of volume.now.journal volume.now.limit
        setup.now answers.now scripts.now transcripts.now) }
    ensures lowest { IfErr result (λ u. IsLowestToDiffer (run_of volume.now.journal volume.now.limit
        setup.now answers.now scripts.now transcripts.now) u.0) }
{
    let sessions = Sessions {
        setup: setup.as_slice(),
        answers,
        scripts,
        transcripts,
    };
    settle_entries(volume.journal(), volume.journal_limit(), sessions)
}
