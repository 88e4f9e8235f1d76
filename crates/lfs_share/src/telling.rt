//! Full is told only where it is so.

ghost use Rattle.std.specs.Prelude.{◌≡◌, ◌≢◌, true};
ghost use Rattle.lfs_types.specs.Changes.{CanApply};
ghost use Rattle.lfs_segwrite.specs.Applying.{MakesChanges, may_use_reserve};
ghost use Rattle.lfs_logstore.specs.Gaining.{GainsSpace};
ghost use Rattle.lfs_logstore.specs.States.{state_of};
ghost use Rattle.lfs_share.specs.Telling.{AllTakeTooMuch, IsFullFor};

use lfs_logstore::LogStore;
use lfs_types::store::{Change, FileStore, Reserve};

/// What became of changes that may use the room that is kept back.
#[derive(Clone, Copy, PartialEq, Eq, Debug)]
pub enum Outcome {
    /// They were made.
    Made,
    /// There was no room for them, and some was gained.
    Gained,
    /// There was none, and each dirty segment takes too much to be cleaned.
    Full,
}

/// Makes changes that give back, or that are the superuser's and take flags away; where the store refuses them, it
/// gains room. So a refusal is told only of a full store, and is the last word only where no segment is worth cleaning.
pub fn apply_or_gain(store: &mut LogStore, changes: &[Change<'_>], by: Reserve) -> Outcome
    requires can { CanApply (state_of store.old).shape.numbers changes.now
        (state_of store.old).content }
    requires may { may_use_reserve by (state_of store.old).content changes.now ≡ true }
    ensures made { result ≡ Outcome.Made → MakesChanges by changes.now store.old store.new }
    ensures refused { result ≢ Outcome.Made → IsFullFor by changes.now store.old }
    ensures content { result ≢ Outcome.Made
        → (state_of store.new).content ≡ (state_of store.old).content }
    ensures gained { result ≡ Outcome.Gained → GainsSpace store.old store.new }
    ensures full { result ≡ Outcome.Full → AllTakeTooMuch store.new }
{
    if store.apply(changes, by).is_ok() {
        return Outcome::Made;
    }
    match store.gain() {
        Ok(()) => Outcome::Gained,
        Err(_) => Outcome::Full,
    }
}
